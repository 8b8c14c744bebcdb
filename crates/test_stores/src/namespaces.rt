// Namespaces that come and go. Witnesses: they are proved, and not run.
ghost use Rattle.std.specs.Prelude.{◌≡◌, ◌+◌, ◌<◌, length, IfOk, true};
ghost use Rattle.test_stores.specs.Stores.{new_store, with_second, with_snapshot};

use crate::setup::text;
use snap_book::{Active, Book};
use snap_call::{Call, Refusal, Reply};
use snap_ledger::StoreName;
use snap_record::Labels;
use snap_usage::Usage;
use std::alloc::Global;
use std::process::Abort;

// A namespace that is made is charged nothing. The answer is whether it is made.
fn made<N: StoreName, R: Abort>(rt: &R, alloc: Global, book: &mut Book<N>) -> bool
    requires { book.old.state ≡ new_store }
    ensures { result ≡ true → book.new.state ≡ with_second }
{
    let call = Call::NamespaceCreate {
        namespace: text(rt, alloc, "b"),
        limit: Usage {
            blocks: 10,
            inodes: 10,
        },
    };
    let made = matches!(book.do_call(0, call), Reply::Done);
    if made {
        let total = book.totals("b");
        prove!(total == Some(Usage::ZERO));
    }
    made
}

// A snapshot in it is charged 1/1 for its root, and so is the namespace.
#[tactic(auto, using(crate::proofs::Spaces::snapshot_total))]
fn charged<N: StoreName>(alloc: Global, book: &mut Book<N>) -> Result<Active<N>, Refusal>
    requires { book.old.state ≡ with_second }
    ensures { IfOk result (λ a. book.new.state ≡ with_snapshot) }
{
    let active = book.prepare(0, "b", "k", "", &Labels::new(alloc))?;
    let (share, total) = (active.share(), book.totals("b"));
    let one = Usage {
        blocks: 1,
        inodes: 1,
    };
    prove!(share == one);
    prove!(total == Some(one));
    Ok(active)
}

// A namespace with a snapshot stays. While the journal has room beside the snapshot's end, only memory can be
// refused before.
#[tactic(auto, using(crate::proofs::Spaces::snapshot_open, crate::proofs::Spaces::snapshot_keeps))]
fn kept<N: StoreName, R: Abort>(rt: &R, alloc: Global, book: &mut Book<N>)
    requires state { book.old.state ≡ with_snapshot }
    requires room { length book.old.journal + 1 < book.old.limit }
{
    let call = Call::NamespaceRemove {
        namespace: text(rt, alloc, "b"),
    };
    let answer = book.do_call(0, call);
    let stays = matches!(
        answer,
        Reply::Refused(Refusal::NotEmpty | Refusal::OutOfMemory(_))
    );
    prove!(stays);
}

// Without one it goes, and the store has no such namespace then.
fn gone<N: StoreName, R: Abort>(rt: &R, alloc: Global, book: &mut Book<N>)
    requires { book.old.state ≡ with_second }
{
    let call = Call::NamespaceRemove {
        namespace: text(rt, alloc, "b"),
    };
    if matches!(book.do_call(0, call), Reply::Done) {
        let total = book.totals("b");
        prove!(total == None);
    }
}
