// Lookups, of which some take memory, and calls that take none.
ghost use Rattle.std.specs.Prelude.{◌≡◌};

use crate::setup::{config, equal, new_table, path, usage};
use snap_book::{Active, Book, Held, Refusal};
use snap_ledger::{NewTable, StoreName};
use snap_merge::FsError;
use snap_path::Path;
use snap_record::Labels;
use snap_tape::{Mismatch, Session, first_mismatch};
use snap_upper::Op;
use std::alloc::Global;
use std::marker::Brand;
use std::process::Abort;

/// The bytes of an allocation that `.ci/refuse.c` takes for a mark.
const MARK: usize = 7_654_321;

// A mark: between two of them no memory may be asked for. It is printed in the end, so that it is really made.
fn mark<R: Abort>(rt: &R, alloc: Global) -> String {
    let mut text = String::with_capacity(alloc, MARK).expect(rt, "memory for a mark");
    text.push('|').expect(rt, "memory for a character");
    text
}

// A view, which shows an empty root. It has the last id but one.
fn view<N: StoreName, R: Abort>(rt: &R, alloc: Global, book: &mut Book<N>) {
    let viewed = book.view(0, "a", "v", "", &Labels::new(alloc));
    let viewed = viewed.expect(rt, "a view");
    let names = viewed.list(&Path::root(alloc)).expect(rt, "names");
    equal(rt, "an empty root", names.len(), 0);
    let place = viewed.resolve(&path(rt, alloc, "/no"));
    equal(rt, "nothing is there", place.err(), Some(FsError::NotFound));
}

// An active snapshot of the last id, with a file, which its root lists and which leads to itself, and with what is
// charged beforehand. No snapshot can be made after it.
fn filled<N: StoreName, R: Abort>(
    rt: &R,
    alloc: Global,
    book: &mut Book<N>,
    create: &Op,
) -> Active<N> {
    let prepared = book.prepare(0, "a", "k", "", &Labels::new(alloc));
    let mut active = prepared.expect(rt, "a snapshot");
    equal(rt, "the last id", active.id(), 4_294_967_295);
    let next = book.view(0, "a", "w", "", &Labels::new(alloc)).err();
    equal(rt, "no id is left", next, Some(Refusal::NumbersSpent));
    let charged = book.charge(0, &mut active, usage(9, 9), usage(9, 9));
    equal(rt, "it is charged", charged, Ok(()));
    equal(rt, "it has a file", active.apply(create), Ok(()));
    let names = active.list(&Path::root(alloc)).expect(rt, "names");
    equal(rt, "one name", names.len(), 1);
    let file = path(rt, alloc, "/f");
    let place = active.resolve(&file).expect(rt, "a path");
    equal(rt, "it leads to itself", place, file);
    active
}

// Between the marks: lookups, a plan, the errors of calls that take memory where they have none, the comparison of
// a tape, and a discard.
fn spare<N: StoreName, R: Abort + Print>(rt: &R, alloc: Global, table: NewTable)
    requires { table ≡ N.table }
{
    let mut config = config(rt, alloc, usage(9, 9), 9);
    config.first_id = 4_294_967_294;
    let mut book = Book::<N>::open(alloc, table, config).expect(rt, "a book");
    let create = Op::Create {
        path: path(rt, alloc, "/f"),
        mode: 420,
    };
    view(rt, alloc, &mut book);
    let mut active = filled(rt, alloc, &mut book, &create);
    let (file, below) = (path(rt, alloc, "/f"), path(rt, alloc, "/f/g"));
    let unlink = Op::Unlink {
        path: path(rt, alloc, "/f"),
    };
    let sessions = [Session::of(0, Vec::new(alloc))];

    let first = mark(rt, alloc);
    let seen = (active.look(&file).is_some(), active.read(&file).is_ok());
    let planned = active.plan(&unlink).is_ok();
    let created = active.apply(&create).err();
    let listed = active.list(&file).err();
    let resolved = active.resolve(&below).err();
    let mismatch = first_mismatch(book.journal(), &sessions);
    let freed = book.discard(0, Held::Active(active));
    let last = mark(rt, alloc);

    equal(
        rt,
        "lookups and a plan",
        (seen, planned),
        ((true, true), true),
    );
    let (exists, no_dir) = (Some(FsError::Exists), Some(FsError::NotDir));
    let errors = (created, listed, resolved);
    equal(rt, "errors", errors, (exists, no_dir, no_dir));
    let (session, place) = (0, 0);
    equal(rt, "the tape", mismatch, Some(Mismatch { session, place }));
    equal(rt, "what is freed", freed, usage(9, 9));
    let _ = println!(rt; "{first}{last}");
}

#[test]
fn without_memory(rt: HostRuntime) {
    let alloc = rt.alloc();
    spare::<Brand, HostRuntime>(&rt, alloc, new_table(&rt, alloc));
}
