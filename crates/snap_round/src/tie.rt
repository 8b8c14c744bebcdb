// The two halves of a round, and the steps that split and join them.
ghost use Rattle.std.specs.Prelude.{◌≡◌, ◌<◌, []};
ghost use Rattle.snap_round.specs.Rounds.{inner, outer, whole_round};

use crate::name::{KnownRound, RoundName};
use crate::rest::Resting;
use crate::rule::{JoinInner, LoadMet, RoundTable, RoundView, SetRound, SplitInner};
use atomic_table::Seat;
use std::marker::{Model, PhantomData};

/// The half of a round that lies under a store's lock. It takes no bytes. Contracts see what it knows.
#[derive(Drop)]
pub struct Half<N: RoundName> {
    seat: Seat<(), RoundView>,
    of: PhantomData<N>,
}

impl<N: RoundName> Model for Half<N> {
    ghost use Rattle.std.specs.Prelude.{◌≡◌, []};
    ghost use Rattle.snap_round.specs.declared.rule.RoundView.{RoundView};

    ghost Value = { RoundView };

    ghost view = { λ h. h.seat.me.0 };

    ghost invariant = { λ h. (h.seat.table_id ≡ N.rounds) × (h.seat.me.1 ≡ []) };
}

/// What a store keeps of its round beside the lock: the other half, or both while no lock has one. It can be shared
/// among threads. Contracts see what it knows.
#[derive(Drop)]
pub struct Tie<N: RoundName> {
    table: RoundTable,
    seat: Resting,
    of: PhantomData<N>,
}

impl<N: RoundName> Model for Tie<N> {
    ghost use Rattle.std.specs.Prelude.{◌≡◌, ◌<◌, []};
    ghost use Rattle.snap_round.specs.declared.rule.RoundView.{RoundView};

    ghost Value = { RoundView };

    ghost view = { λ t. t.seat.seat.me.0 };

    ghost invariant = { λ t. (t.table.shared.table_id ≡ N.rounds) × (0 < N.rounds.words) × (t.seat.seat.table_id ≡ N.rounds) × (t.seat.seat.me.1 ≡ []) };
}

impl<N: RoundName> Tie<N> {
    pub(crate) fn of(table: RoundTable, seat: Seat<(), RoundView>) -> Tie<N>
        requires names { (table.shared.table_id ≡ N.rounds) × (0 < N.rounds.words) × (seat.table_id ≡ N.rounds) }
        requires empty { seat.me.1 ≡ [] }
        ensures { result ≡ seat.me.0 }
    {
        Tie {
            table,
            seat: Resting::new(seat),
            of: PhantomData,
        }
    }

    /// Both halves at another round. Takes no memory, as no call of a tie does. The cost is constant.
    pub fn begin<K: KnownRound>(self) -> Tie<N>
        requires { self ≡ whole_round self.round }
        ensures { result ≡ whole_round K.round }
    {
        let Tie { table, seat, of: _ } = self;
        let mut seat = seat.into_seat();
        table
            .shared
            .compare_exchange::<SetRound<K>>(&mut seat, 0, 1, 1);
        Tie::of(table, seat)
    }

    /// Splits the inner half off.
    pub fn split(self) -> (Tie<N>, Half<N>)
        requires { self ≡ whole_round self.round }
        ensures outer { result.0 ≡ outer self.round }
        ensures inner { result.1 ≡ inner self.round }
    {
        let Tie { table, seat, of: _ } = self;
        let mut own = seat.into_seat();
        let seat = table.shared.split_seat::<SplitInner>(&mut own);
        let half = Half {
            seat,
            of: PhantomData,
        };
        (Tie::of(table, own), half)
    }

    /// Joins the inner half again: it has the same round.
    pub fn join(self, half: Half<N>) -> Tie<N>
        requires outer { self ≡ outer self.round }
        requires inner { half ≡ inner half.round }
        ensures met { half.round ≡ self.round }
        ensures whole { result ≡ whole_round self.round }
    {
        let Half { seat, of: _ } = half;
        let Tie {
            table,
            seat: own,
            of: _,
        } = self;
        let mut own = own.into_seat();
        table.shared.join_seat::<JoinInner>(&mut own, seat);
        table.shared.load::<LoadMet>(&mut own, 0);
        Tie::of(table, own)
    }
}
