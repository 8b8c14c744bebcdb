// What a namespace is charged after each of its entries: a small round, whose figure follows from the contract
// of `history` alone, and a round of two namespaces and of one that is made in it.
ghost use Rattle.std.specs.Prelude.{◌≡◌, ◌∷◌, [], Some, IfOk, map};
ghost use Rattle.snap_call.specs.declared.call.Call.TheVariants as calls;
ghost use Rattle.snap_call.specs.declared.reply.Reply.TheVariants as replies;
ghost use Rattle.test_parts.specs.Worked.{small_round, usage};

use crate::setup::{equal, text, usage};
use snap_call::Given::{Count, Nothing};
use snap_call::Reply::{Charged, Discarded, Opened, Refused, Removed, Trimmed};
use snap_call::limits::DEFAULT_SLOTS;
use snap_call::{Call, Entry, Given, Refusal, Reply, SharedEntry};
use snap_history::{CallKind, EntryInfo, Shares, history};
use snap_record::{Labels, Sequence, Text};
use snap_usage::Usage;
use std::alloc::{AllocError, Global};
use std::process::Abort;

fn shared(alloc: Global, call: Call, given: Given, reply: Reply) -> Result<SharedEntry, AllocError>
    ensures { IfOk result (λ e. e ≡ record { session = 0; call = call; given = given; reply = reply }) }
{
    let (shared, _) = SharedEntry::pair(
        alloc,
        Entry {
            session: 0,
            call,
            given,
            reply,
        },
    )?;
    Ok(shared)
}

// A snapshot on no parent.
fn prepare(alloc: Global, namespace: &str) -> Result<Call, AllocError>
    ensures { IfOk result (λ c. c ≡ calls.Prepare namespace.now (107 ∷ []) [] []) }
{
    Ok(Call::Prepare {
        namespace: Text::copy_of(alloc, namespace)?,
        key: Text::copy_of(alloc, "k")?,
        parent: Text::new(alloc),
        labels: Labels::new(alloc),
    })
}

fn prepared(alloc: Global, id: u32, slot: u64) -> Reply
    ensures { result ≡ replies.Prepared id slot [] }
{
    let chain = Sequence::new(alloc);
    Reply::Prepared { id, slot, chain }
}

fn charge(slot: u64, id: u32, more: Usage) -> Call
    ensures { result ≡ calls.Charge slot id more more }
{
    Call::Charge {
        slot,
        id,
        need: more,
        want: more,
    }
}

fn small_round(alloc: Global) -> Result<Vec<SharedEntry>, AllocError>
    ensures { IfOk result (λ entries. entries.items ≡ small_round) }
{
    let now = usage(4, 3);
    let call = prepare(alloc, "a")?;
    let mut entries = Vec::new(alloc);
    entries.push(shared(alloc, Call::Session, Nothing, Opened)?)?;
    entries.push(shared(alloc, call, Nothing, prepared(alloc, 1, 0))?)?;
    entries.push(shared(alloc, charge(0, 1, now), Nothing, Charged { now })?)?;
    Ok(entries)
}

// One entry after the first: 1/1 is charged after it, and not the 4/3 of the round's end.
fn first_page(alloc: Global) -> Result<Sequence<EntryInfo>, AllocError>
    ensures { IfOk result (λ page. map (λ info. info.charge) page ≡ Some (usage 1 1) ∷ []) }
{
    let entries = small_round(alloc)?;
    history(
        alloc,
        &entries,
        3,
        "a",
        &Shares::none(alloc, DEFAULT_SLOTS)?,
        usage(4, 3),
        1,
        1,
    )
}

// Entries 101 to 111. That of the session and those on `b` and `z` are none of `a`, which was charged 10/10 before them.
// The last one makes `z`.
fn round<R: Abort>(rt: &R, alloc: Global) -> Vec<SharedEntry> {
    let a = prepare(alloc, "a").expect(rt, "memory for a call");
    let b = prepare(alloc, "b").expect(rt, "memory for a call");
    let z = prepare(alloc, "z").expect(rt, "memory for a call");
    let create = Call::NamespaceCreate {
        namespace: text(rt, alloc, "z"),
        limit: usage(9, 9),
    };
    let remove = Call::Remove {
        namespace: text(rt, alloc, "a"),
        key: text(rt, alloc, "old"),
    };
    let full = Refusal::OverLimit {
        free_blocks: 1,
        free_inodes: 1,
    };
    let (slot, id, more) = (0, 7, usage(4, 2));
    let mut entries = Vec::new(alloc);
    for (call, given, reply) in [
        (Call::Session, Nothing, Opened),
        (a, Nothing, prepared(alloc, id, slot)),
        (b, Nothing, prepared(alloc, 8, 1)),
        (
            charge(slot, id, more),
            Nothing,
            Charged { now: usage(5, 3) },
        ),
        (
            charge(1, 8, usage(8, 8)),
            Nothing,
            Charged { now: usage(9, 9) },
        ),
        (charge(slot, id, more), Nothing, Refused(full)),
        (Call::Trim { slot, id }, Count(usage(3, 2)), Trimmed),
        (Call::Discard { slot, id }, Nothing, Discarded(usage(3, 2))),
        (remove, Nothing, Removed(usage(4, 4))),
        (z, Nothing, Refused(Refusal::NoNamespace)),
        (create, Nothing, Reply::Done),
    ] {
        let entry = shared(alloc, call, given, reply).expect(rt, "memory for an entry");
        entries.push(entry).expect(rt, "memory for entries");
    }
    entries
}

// Each entry's number, its call, and the charge after it.
fn are<R: Abort>(
    rt: &R,
    alloc: Global,
    infos: &Sequence<EntryInfo>,
    wanted: &[(u64, CallKind, Usage)],
) {
    let mut found = Vec::new(alloc);
    for info in infos.as_slice() {
        let charge = info.charge.expect(rt, "a charge");
        let row = (info.number, info.call, charge);
        found.push(row).expect(rt, "memory for rows");
    }
    equal(rt, found.as_slice(), wanted);
}

#[test]
fn the_charge_after_each_entry(rt: HostRuntime) {
    let alloc = rt.alloc();
    let page = first_page(alloc).expect(&rt, "memory for a page");
    are(&rt, alloc, &page, &[(2, CallKind::Prepare, usage(1, 1))]);
    let entries = round(&rt, alloc);
    let held = Shares::none(alloc, DEFAULT_SLOTS).expect(&rt, "memory for shares");
    assert_eq!(rt; entries.len(), 11);
    let rows = [
        (102, CallKind::Prepare, usage(11, 11)),
        (104, CallKind::Charge, usage(15, 13)),
        (106, CallKind::Charge, usage(15, 13)),
        (107, CallKind::Trim, usage(13, 12)),
        (108, CallKind::Discard, usage(10, 10)),
        (109, CallKind::Remove, usage(6, 6)),
    ];
    for (namespace, now, after, most, wanted) in [
        ("a", usage(6, 6), 0, 64, rows.as_slice()),
        ("a", usage(6, 6), 102, 2, &rows[1..3]),
        (
            "z",
            usage(0, 0),
            0,
            64,
            &[(111, CallKind::NamespaceCreate, usage(0, 0))],
        ),
        ("y", usage(0, 0), 0, 64, &[]),
    ] {
        let page = history(alloc, &entries, 111, namespace, &held, now, after, most);
        are(&rt, alloc, &page.expect(&rt, "memory for a page"), wanted);
    }
}
