// A store that charges open snapshots for their operations.
ghost use Rattle.std.specs.Prelude.{◌≡◌};
ghost use Rattle.snap_store.specs.Values.{HasChargedShare, HasRefusedShare};

use crate::note::{is_recorded, note_entry};
use crate::store::{Locked, Store};
use snap_book::{Charger, Refusal, wanted};
use snap_ledger::Share;
use snap_round::RoundName;
use snap_tape::Session;
use snap_usage::Usage;
use std::sync::Wait;

/// The charger of a store's open snapshots, for [`Active::apply_by`](snap_book::Active::apply_by): each charge is a call
/// of the session, as [`Store::charge`] makes it, with the same refusals, and waits for the lock.
#[derive(Drop)]
pub struct StoreCharger<'a, N: RoundName, R: Wait> {
    pub store: &'a Store<N>,
    pub rt: &'a R,
}

impl<'a, N: RoundName, R: Wait> Charger<N> for StoreCharger<'a, N, R> {
    type Ledger = Session;

    type Fault = Refusal;

    ghost grants = { λ _ s t share need extra now. HasChargedShare s t share need extra now };

    ghost refuses = { λ _ s t share need extra why. HasRefusedShare s t share need extra why };

    fn charge(
        &self,
        session: &mut Session,
        share: &mut Share<N>,
        need: Usage,
        extra: Usage,
    ) -> Result<(), Refusal> {
        session.reserve(1)?;
        let mut locked = self.store.locked(self.rt);
        let Locked { book, tapes, .. } = &mut *locked;
        match book.charge_share(session.number(), share, need, wanted(need, extra)) {
            Ok(()) => {
                note_entry(book, tapes, session, true);
                Ok(())
            }
            Err(why) => {
                note_entry(book, tapes, session, is_recorded(why));
                Err(why)
            }
        }
    }
}
