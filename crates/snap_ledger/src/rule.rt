// What a half holds and what a seat knows, the rule over all views, and what each step tells.
ghost use Rattle.std.specs.Prelude.{◌≡◌};
ghost use Rattle.snap_ledger.specs.Halves.{no_holding};

use atomic_table::{Join, Play, Split, Table, TableRule};
use snap_usage::Usage;
use std::alloc::Global;

/// What a half holds, and the id of its snapshot.
#[derive(Clone, Copy)]
pub struct Holding {
    pub id: u32,
    pub usage: Usage,
}

impl Holding {
    /// What the charge of a free slot holds.
    pub fn none() -> Holding
        ensures { result ≡ no_holding }
    {
        Holding {
            id: 0,
            usage: Usage::ZERO,
        }
    }
}

/// What a seat knows. No value of it is made.
// A charge that isn't issued has the marks of both halves.
pub struct HalfView {
    pub makes: bool,
    pub charges: bool,
    pub shares: bool,
    pub clashes: bool,
    pub slot: u64,
    pub holding: Holding,
    pub met: Holding,
}

/// A slot has one charge, and one share exactly while it is issued, and both hold the same.
pub struct HalvesRule;

/// The table whose seats are the halves. Its one word stays 0.
pub type HalvesTable = Table<Holding, HalfView, (), HalvesRule, Global>;

impl TableRule<Holding, HalfView, ()> for HalvesRule {
    ghost use Rattle.snap_ledger.specs.Halves.{AllAgree, maker};

    ghost holds = { λ _ s. AllAgree s.views };

    ghost first = { λ _. maker 0 };
}

/// Splits the charge of the next slot off.
pub struct SplitCharge;

impl Split<HalfView> for SplitCharge {
    ghost use Rattle.snap_ledger.specs.Halves.{maker_after, new_charge};

    ghost left = { maker_after };

    ghost right = { new_charge };
}

/// Splits the share off its charge.
pub struct SplitShare;

impl Split<HalfView> for SplitShare {
    ghost use Rattle.snap_ledger.specs.Halves.{charge_issued, issued_share};

    ghost left = { charge_issued };

    ghost right = { issued_share };
}

/// Splits a seat off that knows nothing.
pub struct SplitEmpty;

impl Split<HalfView> for SplitEmpty {
    ghost use Rattle.snap_ledger.specs.Halves.{spent_view};

    ghost left = { λ v. v };

    ghost right = { λ _. spent_view };
}

/// Joins a share to its charge, which keeps what both held.
pub struct JoinShare;

impl Join<HalfView> for JoinShare {
    ghost use Rattle.snap_ledger.specs.Halves.{joined, spent_view};

    ghost both = { joined };

    ghost spent = { spent_view };
}

/// A load: the view stays, and what the rule says of it alone is known.
pub struct LoadPair;

impl Play<Holding, HalfView> for LoadPair {
    ghost use Rattle.snap_ledger.specs.Halves.{Checked};

    ghost then = { Checked };
}

/// Sets what a charge holds whose share isn't issued.
pub struct SetHolding;

impl Play<Holding, HalfView> for SetHolding {
    ghost use Rattle.snap_ledger.specs.Halves.{SetTo};

    ghost then = { SetTo };
}
