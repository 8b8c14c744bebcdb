// The two halves of a slot, and the calls that move both alike.
ghost use Rattle.std.specs.Prelude.{◌≡◌, ◌<◌, ◌+◌, ◌^◌, [], true, IfOk, OnOk};
ghost use Rattle.std.specs.Arc.{arc_value};
ghost use Rattle.snap_ledger.specs.Halves.{maker as maker_of};
ghost use Rattle.snap_ledger.specs.States.{CoversOne, Meets, free_row, free_charge};
ghost use Rattle.snap_usage.specs.Counted.{no_usage};

use crate::rule::{
    HalfView, HalvesTable, Holding, JoinShare, LoadPair, SetHolding, SplitCharge, SplitEmpty,
    SplitShare,
};
use atomic_table::{Seat, Table};
use snap_usage::Usage;
use std::alloc::{AllocError, Global};
use std::marker::{Brand, Model, PhantomData};
use std::mem;
use std::sync::Arc;

/// The name of a store: which table its halves are of.
pub trait StoreName {
    ghost use Rattle.atomic_table.specs.Seated.{TableId};

    ghost table: { TableId };
}

impl StoreName for Brand {
    ghost use Rattle.snap_ledger.specs.Names.{no_table};

    ghost table = { no_table };
}

/// A table of which no half was made yet. Contracts see it as its name.
#[derive(Drop)]
pub struct NewTable {
    table: HalvesTable,
    first: Seat<Holding, HalfView>,
}

impl Model for NewTable {
    ghost use Rattle.std.specs.Prelude.{◌≡◌, ◌<◌, []};
    ghost use Rattle.atomic_table.specs.Seated.{TableId, table_id_coded};
    ghost use Rattle.snap_ledger.specs.Halves.{maker};

    ghost Value = { TableId };

    ghost coded = { table_id_coded };

    ghost view = { λ b. b.table.shared.table_id };

    ghost invariant = { λ b. (b.first.table_id ≡ b.table.shared.table_id) × (0 < b.table.shared.table_id.words) × (b.first.me ≡ (maker 0, [])) };
}

impl NewTable {
    /// Makes a table, whose name is that of a store to come. It takes memory for the table alone,
    /// whose size doesn't depend on the halves made of it; the error says that there was none.
    pub fn new(alloc: Global) -> Result<NewTable, AllocError>
        ensures { IfOk result (λ t. (t.words ≡ 1) × (t.slots ≡ 0)) }
    {
        let (table, first) = Table::of_words(alloc, &[0], &())?;
        Ok(NewTable { table, first })
    }
}

/// The store's half of a slot: what it has charged for the slot. It is free, and holds 0/0, or it
/// is issued, and its [`Share`] is in a writer's hands.
#[derive(Drop)]
pub struct Charge<N: StoreName> {
    table: Arc<HalvesTable, Global>,
    seat: Seat<Holding, HalfView>,
    slot: u64,
    holding: Holding,
    issued: bool,
    of: PhantomData<N>,
}

impl<N: StoreName> Model for Charge<N> {
    ghost use Rattle.std.specs.Prelude.{◌≡◌, ◌<◌, []};
    ghost use Rattle.std.specs.Arc.{arc_value};
    ghost use Rattle.snap_ledger.specs.States.{ChargeState, HeldWhile, charge_view};

    ghost Value = { ChargeState };

    ghost view = { λ c. record { slot = c.slot; id = c.holding.id; usage = c.holding.usage; issued = c.issued } };

    ghost invariant = { λ c. (c.seat.table_id ≡ N.table) × ((arc_value c.table).shared.table_id ≡ N.table) × (0 < N.table.words) × (c.seat.me ≡ (charge_view c.issued c.slot c.holding, [])) × HeldWhile c.issued c.holding };
}

/// The writer's half of a slot: what it may fill. It covers 1/1, and equals the charge of its slot.
/// It has no `Drop`: it goes back with [`Charge::spend`] alone.
pub struct Share<N: StoreName> {
    seat: Seat<Holding, HalfView>,
    slot: u64,
    holding: Holding,
    of: PhantomData<N>,
}

impl<N: StoreName> Model for Share<N> {
    ghost use Rattle.std.specs.Prelude.{◌≡◌, []};
    ghost use Rattle.snap_ledger.specs.Halves.{share_half};
    ghost use Rattle.snap_ledger.specs.States.{ShareState, CoversOne};

    ghost Value = { ShareState };

    ghost view = { λ s. record { slot = s.slot; id = s.holding.id; usage = s.holding.usage } };

    ghost invariant = { λ s. (s.seat.table_id ≡ N.table) × (s.seat.me ≡ (share_half s.slot s.holding, [])) × CoversOne s.holding.usage };
}

impl<N: StoreName> Share<N> {
    /// What both halves hold.
    pub fn held(&self) -> Usage
        ensures held { result ≡ self.now.usage }
        ensures covers { CoversOne result }
    {
        let Holding { id: _, usage } = self.holding;
        usage
    }

    /// The slot, below their number where the charge is of a [`Charge::row`].
    pub fn slot(&self) -> u64
        ensures { result ≡ self.now.slot }
    {
        self.slot
    }

    /// The id of the snapshot that it was issued for.
    pub fn id(&self) -> u32
        ensures { result ≡ self.now.id }
    {
        self.holding.id
    }
}

impl<N: StoreName> Charge<N> {
    /// The free charges of the slots from 0 on, in order. It takes memory for them, which grows
    /// with their number, and for the table's shared place; the error says that there was none, and
    /// nothing is left then.
    pub fn row(alloc: Global, table: NewTable, slots: u64) -> Result<Vec<Charge<N>>, AllocError>
        requires { table ≡ N.table }
        ensures { IfOk result (λ row. row.items ≡ free_row slots) }
    {
        let NewTable { table, mut first } = table;
        let table = Arc::new(alloc, table)?;
        let mut row = Vec::with_capacity(alloc, slots as usize)?;
        for slot in 0..slots {
            row.push(Charge::made(&table, &mut first, slot)?)?;
        }
        Ok(row)
    }

    // The charge of the next slot.
    fn made(
        table: &Arc<HalvesTable, Global>,
        maker: &mut Seat<Holding, HalfView>,
        slot: u64,
    ) -> Result<Charge<N>, AllocError>
        requires name { ((arc_value table.now).shared.table_id ≡ N.table) × (maker.old.table_id ≡ N.table) × (0 < N.table.words) }
        requires slot { (maker.old.me ≡ (maker_of slot, [])) × (slot + 1 < 2 ^ 64) }
        ensures maker { OnOk result ((maker.new.table_id ≡ N.table) × (maker.new.me ≡ (maker_of (slot + 1), []))) }
        ensures charge { IfOk result (λ c. c ≡ free_charge slot) }
    {
        let table = Arc::try_clone(table)?;
        let seat = table.shared.split_seat::<SplitCharge>(maker);
        Ok(Charge {
            table,
            seat,
            slot,
            holding: Holding::none(),
            issued: false,
            of: PhantomData,
        })
    }

    /// What the slot is charged: 0/0 where it is free, what its share holds otherwise.
    pub fn held(&self) -> Usage
        ensures { result ≡ self.now.usage }
    {
        self.holding.usage
    }

    /// Charges a free slot and hands out its share. It takes no memory, as no call below does.
    pub fn issue(&mut self, id: u32, first: Usage) -> Share<N>
        requires free { self.old.usage ≡ no_usage }
        requires covers { CoversOne first }
        ensures charge { self.new ≡ record self.old { id = id; usage = first; issued = true } }
        ensures share { result ≡ record { slot = self.old.slot; id = id; usage = first } }
    {
        let table = &self.table.shared;
        let holding = Holding { id, usage: first };
        table.compare_exchange_with::<SetHolding>(&mut self.seat, 0, 1, 1, &holding);
        let seat = table.split_seat::<SplitShare>(&mut self.seat);
        self.holding = holding;
        self.issued = true;
        Share {
            seat,
            slot: self.slot,
            holding,
            of: PhantomData,
        }
    }

    /// Takes a share back and frees the slot. The answer is what both held.
    pub fn spend(&mut self, share: Share<N>) -> Usage
        requires { share.slot ≡ self.old.slot }
        ensures met { Meets self.old share }
        ensures held { result ≡ share.usage }
        ensures free { self.new ≡ free_charge self.old.slot }
    {
        let Share {
            seat,
            slot: _,
            holding,
            of: _,
        } = share;
        let table = &self.table.shared;
        table.join_seat::<JoinShare>(&mut self.seat, seat);
        table.load::<LoadPair>(&mut self.seat, 0);
        let none = Holding::none();
        table.compare_exchange_with::<SetHolding>(&mut self.seat, 0, 1, 1, &none);
        self.holding = none;
        self.issued = false;
        holding.usage
    }

    /// What both halves hold.
    pub fn meet(&mut self, share: &mut Share<N>) -> Usage
        requires { share.old.slot ≡ self.old.slot }
        ensures met { Meets self.old share.old }
        ensures held { result ≡ share.old.usage }
        ensures covers { CoversOne result }
        ensures charge { self.new ≡ self.old }
        ensures share { share.new ≡ share.old }
    {
        let held = share.held();
        self.set(share, held);
        held
    }

    /// Sets both halves to the same amount. It takes no memory.
    pub fn set(&mut self, share: &mut Share<N>, to: Usage)
        requires slot { share.old.slot ≡ self.old.slot }
        requires covers { CoversOne to }
        ensures met { Meets self.old share.old }
        ensures charge { self.new ≡ record self.old { usage = to } }
        ensures share { share.new ≡ record share.old { usage = to } }
    {
        let table = &self.table.shared;
        let empty = table.split_seat::<SplitEmpty>(&mut self.seat);
        let seat = mem::replace(&mut share.seat, empty);
        table.join_seat::<JoinShare>(&mut self.seat, seat);
        table.load::<LoadPair>(&mut self.seat, 0);
        let holding = Holding {
            id: self.holding.id,
            usage: to,
        };
        table.compare_exchange_with::<SetHolding>(&mut self.seat, 0, 1, 1, &holding);
        share.seat = table.split_seat::<SplitShare>(&mut self.seat);
        share.holding = holding;
        self.holding = holding;
    }
}
