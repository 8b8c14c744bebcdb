// The names of a store's tables, and the tables before it is opened.
ghost use Rattle.std.specs.Prelude.{◌≡◌, IfOk};
ghost use Rattle.snap_round.specs.Rounds.{whole_round};

use crate::rule::{RoundTable, RoundView};
use crate::tie::Tie;
use atomic_table::{Seat, Table};
use snap_ledger::{NewTable, StoreName};
use std::alloc::{AllocError, Global};
use std::marker::{Brand, Model};

/// The name of a store: which table its charges are of, and which one its rounds.
pub trait RoundName: StoreName {
    ghost use Rattle.atomic_table.specs.Seated.{TableId};

    ghost rounds: { TableId };
}

impl RoundName for Brand {
    ghost use Rattle.snap_ledger.specs.Names.{no_table};

    ghost rounds = { no_table };
}

/// A round as a type. A call at `Brand` picks it by its arguments.
pub trait KnownRound {
    ghost use Rattle.snap_round.specs.declared.rule.Round.{Round};

    ghost round: { Round };
}

impl KnownRound for Brand {
    ghost use Rattle.snap_round.specs.Rounds.{no_round};

    ghost round = { no_round };
}

/// The tables of a store to come. Contracts see their names: that of the charges, and that of the rounds.
#[derive(Drop)]
pub struct NewStore {
    charges: NewTable,
    rounds: RoundTable,
    seat: Seat<(), RoundView>,
}

impl Model for NewStore {
    ghost use Rattle.std.specs.Prelude.{◌≡◌, ◌<◌, []};
    ghost use Rattle.std.specs.Coded.{coded×};
    ghost use Rattle.atomic_table.specs.Seated.{TableId, table_id_coded};
    ghost use Rattle.snap_round.specs.Rounds.{no_round, whole_round};

    ghost Value = { TableId × TableId };

    ghost coded = { coded× table_id_coded table_id_coded };

    ghost view = { λ n. (n.charges, n.rounds.shared.table_id) };

    ghost invariant = { λ n. (n.seat.table_id ≡ n.rounds.shared.table_id) × (0 < n.rounds.shared.table_id.words) × (n.seat.me ≡ (whole_round no_round, [])) };
}

impl NewStore {
    /// Makes both tables, whose names are those of a store to come. It takes memory for the two tables alone; the
    /// error says that there was none, and nothing is left then.
    pub fn new(alloc: Global) -> Result<NewStore, AllocError>
        ensures { IfOk result (λ t. (t.0.words ≡ 1) × (t.0.slots ≡ 0) × (t.1.words ≡ 1) × (t.1.slots ≡ 0)) }
    {
        let charges = NewTable::new(alloc)?;
        let (rounds, seat) = Table::of_words(alloc, &[0], &())?;
        Ok(NewStore {
            charges,
            rounds,
            seat,
        })
    }

    /// The table of the charges, and both halves of a round that is not known yet. Takes no memory. The cost is
    /// constant.
    pub fn into_parts<N: RoundName>(self) -> (NewTable, Tie<N>)
        requires { self ≡ (N.table, N.rounds) }
        ensures charges { result.0 ≡ N.table }
        ensures whole { result.1 ≡ whole_round result.1.round }
    {
        let NewStore {
            charges,
            rounds,
            seat,
        } = self;
        (charges, Tie::of(rounds, seat))
    }
}
