// The commands on snapshots that the script holds.
use crate::refused::Refused;
use crate::round::{Round, session_at};
use snap_book::{Held, Reply};
use snap_merge::FsError;
use snap_record::{Labels, Text};
use snap_script::{Answer, Field};
use snap_store::RoundName;
use snap_upper::Op;
use snap_usage::Usage;
use snap_writers::{RunError, run};
use std::sync::Wait;

impl<'a, N: RoundName, R: Wait> Round<'a, N, R> {
    // Charges for the wanted amount, or for the needed one; trims where there are none.
    pub(crate) fn charge(
        &mut self,
        n: u64,
        namespace: &str,
        key: &str,
        amounts: Option<(Usage, Usage)>,
    ) -> Result<Answer, Refused> {
        let place = self.found(namespace, key)?;
        let session = session_at(&mut self.sessions, n)?;
        let Some(hand) = self.hands.get_mut(place) else {
            return Err(Refused::NoHand);
        };
        let Held::Active(active) = &mut hand.held else {
            return Err(Refused::NoHand);
        };
        match amounts {
            Some((need, want)) => {
                self.store.charge(self.rt, session, active, need, want)?;
                Ok(Answer::Reply(Reply::Charged {
                    now: active.share(),
                }))
            }
            None => {
                self.store.trim(self.rt, session, active)?;
                Ok(Answer::Share(active.share()))
            }
        }
    }

    pub(crate) fn commit(
        &mut self,
        n: u64,
        namespace: &str,
        key: &str,
        name: &str,
        lease: &Option<Text>,
        labels: &Option<Labels>,
    ) -> Result<Answer, Refused> {
        let place = self.found(namespace, key)?;
        let session = session_at(&mut self.sessions, n)?;
        if place >= self.hands.len() {
            return Err(Refused::NoHand);
        }
        match self
            .hands
            .swap_remove(place)
            .commit(session, name, lease, labels)
        {
            Ok(reply) => Ok(Answer::Reply(reply)),
            Err((why, hand)) => {
                self.hands.push(hand)?;
                Err(Refused::Book(why))
            }
        }
    }

    pub(crate) fn discard(
        &mut self,
        n: u64,
        namespace: &str,
        key: &str,
    ) -> Result<Answer, Refused> {
        let place = self.found(namespace, key)?;
        let session = session_at(&mut self.sessions, n)?;
        session.reserve(1)?;
        if place >= self.hands.len() {
            return Err(Refused::NoHand);
        }
        let freed = self.hands.swap_remove(place).discard(session);
        Ok(Answer::Reply(Reply::Discarded(freed)))
    }

    // The operation, with the charge that it needs. A session that isn't open can't charge.
    pub(crate) fn file(
        &mut self,
        n: u64,
        namespace: &str,
        key: &str,
        operation: &Result<Op, Field>,
        extra: Usage,
    ) -> Result<Answer, Refused> {
        let place = self.found(namespace, key)?;
        let Ok(op) = operation else {
            return Err(Refused::File(FsError::BadPath));
        };
        let Some(hand) = self.hands.get_mut(place) else {
            return Err(Refused::NoHand);
        };
        let Held::Active(active) = &mut hand.held else {
            return Err(Refused::NoHand);
        };
        let done = match self.sessions.get_mut(n as usize) {
            Some(session) => run(self.store, self.rt, session, active, op, extra),
            None => match active.apply(op) {
                Ok(()) => Ok(()),
                Err(FsError::NeedsCharge(_)) => return Err(Refused::NoSession),
                Err(error) => Err(RunError::File(error)),
            },
        };
        match done {
            Ok(()) => Ok(Answer::Changed {
                count: active.count(),
                share: active.share(),
            }),
            Err(RunError::File(error)) => Err(Refused::File(error)),
            Err(RunError::Book(why)) => Err(Refused::Book(why)),
        }
    }
}
