// Calls of a new store, of one with a view, and of one whose slot is taken. Witnesses: they are proved, and not run.
// Each has the book by reference, since a book of its own is let go at each `?`, which is dear to prove.
ghost use Rattle.std.specs.Prelude.{◌≡◌, ◌+◌, ◌<◌, ◌≤◌, [], ◌∷◌, length, IfOk, true};
ghost use Rattle.snap_layer.specs.Edits.{root_only};
ghost use Rattle.test_stores.specs.Stores.{new_store, with_one_slot, with_taken_slot, with_view};

use crate::setup::{config, text};
use snap_book::{Active, Book, Held, Viewed};
use snap_call::{Call, Refusal, Reply};
use snap_ledger::{NewTable, StoreName};
use snap_record::{Filter, Labels, Sequence, Text};
use snap_usage::Usage;
use std::alloc::Global;
use std::process::Abort;

// A new store is charged nothing, and has no snapshot.
fn opened<N: StoreName, R: Abort>(rt: &R, alloc: Global, table: NewTable) -> Book<N>
    requires { table ≡ N.table }
    ensures { result.state ≡ new_store }
{
    let limit = Usage {
        blocks: 100,
        inodes: 100,
    };
    let config = config(rt, alloc, limit, 100);
    let book = Book::<N>::open(alloc, table, config).expect(rt, "a book");
    let (total, none) = (book.totals("a"), book.totals("z"));
    prove!(total == Some(Usage::ZERO));
    prove!(none == None);
    let (open, found) = (book.open_slots(), book.slot_of("a", "k"));
    prove!(open == 0);
    prove!(found == Err(Refusal::NotFound));
    book
}

// The first session has the number 0. A new snapshot is charged 1/1 for its root, and gives it back.
fn prepared<N: StoreName>(alloc: Global, book: &mut Book<N>) -> Result<(), Refusal>
    requires { book.old.state ≡ new_store }
{
    let first = book.open_session()?;
    prove!(first == 0);
    let active = book.prepare(0, "a", "k", "", &Labels::new(alloc))?;
    let (share, spare) = (active.share(), active.spare());
    let freed = book.discard(0, Held::Active(active));
    prove!(share.blocks == 1);
    prove!(spare.blocks == 0);
    prove!(freed.blocks == 1);
    Ok(())
}

// The first snapshot of a store of one slot takes it.
fn taken<N: StoreName>(alloc: Global, book: &mut Book<N>) -> Result<Active<N>, Refusal>
    requires { book.old.state ≡ with_one_slot }
    ensures { IfOk result (λ a. book.new.state ≡ with_taken_slot) }
{
    book.prepare(0, "a", "k", "", &Labels::new(alloc))
}

// Where the store's one slot is taken, a second snapshot is refused. While the journal has room, only memory can be
// refused before.
#[tactic(auto, using(crate::proofs::Slots::taken_open, crate::proofs::Slots::taken_refuses))]
fn without_slot<N: StoreName>(alloc: Global, book: &mut Book<N>)
    requires state { book.old.state ≡ with_taken_slot }
    requires room { length book.old.journal + 3 ≤ book.old.limit }
{
    match book.prepare(0, "a", "l", "", &Labels::new(alloc)) {
        Ok(active) => {
            book.discard(0, Held::Active(active));
            let granted = false;
            prove!(granted);
        }
        Err(why) => {
            let slots = matches!(why, Refusal::TooManyActives | Refusal::OutOfMemory(_));
            prove!(slots);
        }
    }
}

// The view q of nothing in the namespace a has the first id and no ancestors; it is charged nothing, and takes no
// slot. The answer is whether it is there.
fn viewed<N: StoreName, R: Abort>(rt: &R, alloc: Global, book: &mut Book<N>) -> bool
    requires { book.old.state ≡ new_store }
    ensures { result ≡ true → book.new.state ≡ with_view }
{
    let call = Call::View {
        namespace: text(rt, alloc, "a"),
        key: text(rt, alloc, "q"),
        parent: Text::new(alloc),
        labels: Labels::new(alloc),
    };
    match book.do_call(0, call) {
        Reply::Viewed { id, chain } => {
            let ancestors = chain.len();
            prove!(id == 1);
            prove!(ancestors == 0);
            let (total, open) = (book.totals("a"), book.open_slots());
            prove!(total == Some(Usage::ZERO));
            prove!(open == 0);
            true
        }
        _ => false,
    }
}

// The first view of a new store has the id 1, and without a parent it shows one empty layer.
fn first_view<N: StoreName>(alloc: Global, book: &mut Book<N>) -> Result<Viewed, Refusal>
    requires { book.old.state ≡ new_store }
    ensures id { IfOk result (λ v. v.id ≡ 1) }
    ensures lowers { IfOk result (λ v. v.lowers ≡ root_only (record { mode = 493 }) 1 ∷ []) }
{
    book.view(0, "a", "q", "", &Labels::new(alloc))
}

// A removed view frees nothing, and is gone. While the journal isn't full, only memory is refused.
fn removed<N: StoreName, R: Abort>(rt: &R, alloc: Global, book: &mut Book<N>)
    requires state { book.old.state ≡ with_view }
    requires room { length book.old.journal < book.old.limit }
{
    let call = Call::Remove {
        namespace: text(rt, alloc, "a"),
        key: text(rt, alloc, "q"),
    };
    match book.do_call(0, call) {
        Reply::Removed(freed) => {
            let found = book.slot_of("a", "q");
            prove!(freed == Usage::ZERO);
            prove!(found == Err(Refusal::NotFound));
        }
        Reply::Refused(why) => {
            let memory = matches!(why, Refusal::OutOfMemory(_));
            prove!(memory);
        }
        _ => {}
    }
}

// Of two books with the view alone: its update is the second entry, and a walk is a page of its info.
fn told<N: StoreName, R: Abort>(rt: &R, alloc: Global, updated: &mut Book<N>, walked: &mut Book<N>)
    requires update { updated.old.state ≡ with_view }
    requires walk { walked.old.state ≡ with_view }
{
    let update = Call::Update {
        namespace: text(rt, alloc, "a"),
        key: text(rt, alloc, "q"),
        labels: Labels::new(alloc),
        paths: Sequence::new(alloc),
    };
    if let Reply::Info(info) = updated.do_call(0, update) {
        prove!(info.created == 1);
        prove!(info.updated == 2);
    }
    let walk = Call::Walk {
        namespace: text(rt, alloc, "a"),
        after: Text::new(alloc),
        most: 64,
        asked: Filter {
            name: None,
            parent: None,
            kind: None,
            labels: Sequence::new(alloc),
        },
    };
    if let Reply::Page(infos) = walked.do_call(0, walk) {
        let found = infos.len();
        prove!(found == 1);
    }
}
