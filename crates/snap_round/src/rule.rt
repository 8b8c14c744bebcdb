// A round, what a seat knows of it, the rule over all views, and what each step tells.

use crate::name::KnownRound;
use atomic_table::{Join, Play, Split, Table, TableRule};
use snap_call::State;
use std::alloc::Global;
use std::marker::PhantomData;

/// What is fixed while a round goes on: the state that it began at, and the most entries of its journal.
/// Contracts see a store as its round; no value of it is made.
pub struct Round {
    pub opening: State,
    pub limit: u64,
}

/// What a seat knows: which halves it is, their round, and that of the half that was joined to it last. No value
/// of it is made.
pub struct RoundView {
    pub inner: bool,
    pub outer: bool,
    pub round: Round,
    pub met: Round,
}

// There is one half of each kind, and both have the same round.
pub(crate) struct HalvesRule;

// The table whose seats are the halves. Its one word stays 0.
pub(crate) type RoundTable = Table<(), RoundView, (), HalvesRule, Global>;

impl TableRule<(), RoundView, ()> for HalvesRule {
    ghost use Rattle.snap_round.specs.Rounds.{AllRoundsAgree, no_round, whole_round};

    ghost holds = { λ _ s. AllRoundsAgree s.views };

    ghost first = { λ _. whole_round no_round };
}

// Splits the inner half off.
pub(crate) struct SplitInner;

impl Split<RoundView> for SplitInner {
    ghost use Rattle.snap_round.specs.Rounds.{inner_of, outer_of};

    ghost left = { outer_of };

    ghost right = { inner_of };
}

// Joins the inner half to the outer one, which keeps the rounds of both.
pub(crate) struct JoinInner;

impl Join<RoundView> for JoinInner {
    ghost use Rattle.snap_round.specs.Rounds.{joined_rounds, neither};

    ghost both = { joined_rounds };

    ghost spent = { neither };
}

// A load: the view stays, and what the rule says of it alone is known.
pub(crate) struct LoadMet;

impl Play<(), RoundView> for LoadMet {
    ghost use Rattle.snap_round.specs.Rounds.{RoundChecked};

    ghost then = { RoundChecked };
}

// Sets the round of both halves.
pub(crate) struct SetRound<K: KnownRound> {
    of: PhantomData<K>,
}

impl<K: KnownRound> Play<(), RoundView> for SetRound<K> {
    ghost use Rattle.snap_round.specs.Rounds.{RoundSetTo};

    ghost then = { RoundSetTo K.round };
}
