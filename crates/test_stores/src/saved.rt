// A world that is saved, and restored.
ghost use Rattle.std.specs.Prelude.{◌≡◌, IfOk, IfErr, Ok};
ghost use Rattle.std.specs.List.{AllByRecursion};
ghost use Rattle.snap_book.specs.Round.{roll_answer};
ghost use Rattle.snap_path.specs.Memory.{no_memory};
ghost use Rattle.snap_checkpoint.specs.declared.fault.StoreFault.TheVariants as store_faults;
ghost use Rattle.snap_world.specs.Round.{reopened};
ghost use Rattle.snap_world.specs.Saved.{IsWholeSnapshot};
ghost use Rattle.snap_world.specs.declared.fault.RestoreFault.TheVariants.{OutOfMemory};

use crate::setup::{config, equal, new_table, path, text, usage};
use snap_call::{Call, ConfigField, Refusal, Reply};
use snap_checkpoint::{LineGathering, StoreFault, StoreLines};
use snap_json::{Scratch, Value, Writer};
use snap_ledger::{NewTable, StoreName};
use snap_merge::FsError;
use snap_pieces::{Line, read_line, write_line};
use snap_record::{Labels, Sequence, Text};
use snap_script::{Answer as ScriptAnswer, Command, Line as ScriptLine, RestoreRefusal};
use snap_session::Stepper;
use snap_upper::Op;
use snap_world::{Answer, NoMemory, RestoreFault, SavedWorld, Step, World};
use std::alloc::Global;
use std::marker::Brand;
use std::process::Abort;

// What is saved of a world makes the world of a roll, or memory is refused. A witness: it is proved, and not run.
fn again<N: StoreName, M: StoreName>(
    alloc: Global,
    table: NewTable,
    world: &World<N>,
) -> Result<World<M>, RestoreFault>
    requires table { table ≡ M.table }
    requires room { roll_answer world.now.state world.now.limit ≡ Ok tt }
    ensures rolled { IfOk result (λ w. w ≡ reopened world.now world.now.limit) }
    ensures memory { IfErr result (λ fault. fault ≡ OutOfMemory no_memory) }
{
    let saved = world.save(alloc)?;
    World::<M>::restore(alloc, table, saved)
}

// The lines of what is saved of a world, put one after another, make it again, or memory is refused.
fn by_lines(alloc: Global, saved: SavedWorld) -> Result<SavedWorld, StoreFault>
    requires { AllByRecursion IsWholeSnapshot saved.snapshots }
    ensures same { IfOk result (λ back. back ≡ saved) }
    ensures memory { IfErr result (λ fault. fault ≡ store_faults.OutOfMemory no_memory) }
{
    let mut lines = StoreLines::begin(alloc, saved)?;
    let mut gathering = LineGathering::new(alloc);
    while let Some(line) = lines.next_line()? {
        match gathering.put(line) {
            Ok(None) => {}
            Ok(Some(back)) => return Ok(back),
            Err(fault) => return Err(fault),
        }
    }
    unreachable!()
}

// An end without a head has no place, and opens no store. A witness: it is proved, and not run.
fn an_end_alone<N: StoreName>(alloc: Global, table: NewTable) -> Result<(), NoMemory>
    requires { table ≡ N.table }
{
    let mut stepper: Stepper<N> = Stepper::new(alloc, table);
    let end = ScriptLine::Command {
        session: 0,
        command: Command::Restore(Ok(Line::End { lines: 2 })),
    };
    let answer = stepper.step(end)?;
    let is_refused = matches!(
        &answer,
        Some(ScriptAnswer::BadRestore(RestoreRefusal::Misplaced))
    );
    prove!(is_refused);
    let is_open = stepper.is_open();
    prove!(!is_open);
    Ok(())
}

fn written<R: Abort>(rt: &R, alloc: Global, line: &Line) -> String {
    let mut out = Writer::new(alloc).expect(rt, "memory for a line");
    write_line(alloc, &mut out, line).expect(rt, "memory for a line");
    out.finish()
}

fn read<R: Abort>(rt: &R, alloc: Global, text: &str) -> Line {
    let mut scratch = Scratch::new(alloc);
    let value = Value::read_object(alloc, text, &mut scratch).expect(rt, "JSON");
    let value = value.expect(rt, "an object");
    read_line(alloc, &value).expect(rt, "a line")
}

// What is read of a line's text.
fn through_text<R: Abort>(rt: &R, alloc: Global, line: &Line) -> Line {
    let text = written(rt, alloc, line);
    read(rt, alloc, text.as_str())
}

// A saved world by the texts of its lines, of which there are at most 64.
fn through_texts<R: Abort>(rt: &R, alloc: Global, saved: SavedWorld) -> SavedWorld {
    let mut lines = StoreLines::begin(alloc, saved).expect(rt, "memory for lines");
    let mut gathering = LineGathering::new(alloc);
    let mut back = None;
    for _ in 0..64 {
        if let Some(line) = lines.next_line().expect(rt, "memory for a line") {
            let line = through_text(rt, alloc, &line);
            back = gathering.put(line).expect(rt, "a line in its place");
        }
    }
    equal(rt, "all lines came", lines.is_empty(), true);
    back.expect(rt, "a saved world")
}

fn prepare<R: Abort>(rt: &R, alloc: Global, key: &str, parent: &str) -> Step {
    let call = Call::Prepare {
        namespace: text(rt, alloc, "a"),
        key: text(rt, alloc, key),
        parent: text(rt, alloc, parent),
        labels: Labels::new(alloc),
    };
    Step::Locked(0, call)
}

fn mkdir<R: Abort>(rt: &R, alloc: Global, at: &str) -> Step {
    let path = path(rt, alloc, at);
    Step::Hand(0, Op::Mkdir { path, mode: 493 })
}

fn commit<R: Abort>(rt: &R, alloc: Global, name: &str) -> Step {
    let call = Call::Commit {
        slot: 0,
        id: 1,
        name: text(rt, alloc, name),
        lease: None,
        labels: None,
    };
    Step::Locked(0, call)
}

// The lease l names b.
fn lease<R: Abort>(rt: &R, alloc: Global) -> (Step, Step) {
    let create = Call::LeaseCreate {
        namespace: text(rt, alloc, "a"),
        lease: text(rt, alloc, "l"),
        until: None,
    };
    let add = Call::LeaseAdd {
        namespace: text(rt, alloc, "a"),
        lease: text(rt, alloc, "l"),
        name: text(rt, alloc, "b"),
    };
    (Step::Locked(0, create), Step::Locked(0, add))
}

fn remove<R: Abort>(rt: &R, alloc: Global) -> Step {
    let call = Call::Remove {
        namespace: text(rt, alloc, "a"),
        key: text(rt, alloc, "b"),
    };
    Step::Locked(0, call)
}

fn release<R: Abort>(rt: &R, alloc: Global) -> Step {
    let call = Call::LeaseRelease {
        namespace: text(rt, alloc, "a"),
        lease: text(rt, alloc, "l"),
    };
    Step::Locked(0, call)
}

// A world whose snapshot b, with one directory, is leased, and whose active snapshot k stands on it.
fn saved<N: StoreName, R: Abort>(rt: &R, alloc: Global, table: NewTable) -> SavedWorld
    requires { table ≡ N.table }
    ensures { AllByRecursion IsWholeSnapshot result.snapshots }
{
    let config = config(rt, alloc, usage(10, 5), 100);
    let mut world = World::<N>::open(alloc, table, config).expect(rt, "a world");
    let charge = Call::Charge {
        slot: 0,
        id: 1,
        need: usage(2, 2),
        want: usage(2, 2),
    };
    let (create, add) = lease(rt, alloc);
    let steps = [
        Step::Locked(0, Call::Session),
        prepare(rt, alloc, "w", ""),
        Step::Locked(0, charge),
        mkdir(rt, alloc, "/d"),
        commit(rt, alloc, "b"),
        create,
        add,
        prepare(rt, alloc, "k", "b"),
    ];
    let steps = Vec::from_array(alloc, steps).expect(rt, "memory for steps");
    world.run(steps).expect(rt, "memory for answers");
    equal(rt, "the charge", world.totals("a"), Some(usage(3, 3)));
    world.save(alloc).expect(rt, "memory for what is saved")
}

// Ids, charges, hands and leases are as they were; sessions are counted from 0.
fn goes_on<N: StoreName, R: Abort>(rt: &R, alloc: Global, table: NewTable, saved: SavedWorld)
    requires { table ≡ N.table }
{
    let mut world = World::<N>::restore(alloc, table, saved).expect(rt, "a world");
    equal(rt, "the charge", world.totals("a"), Some(usage(3, 3)));
    let steps = [
        Step::Locked(0, Call::Session),
        mkdir(rt, alloc, "/e"),
        Step::Locked(0, Call::Discard { slot: 0, id: 2 }),
        remove(rt, alloc),
        release(rt, alloc),
        remove(rt, alloc),
        prepare(rt, alloc, "x", ""),
    ];
    let steps = Vec::from_array(alloc, steps).expect(rt, "memory for steps");
    let found = world.run(steps).expect(rt, "memory for answers");
    let (slot, id, chain) = (0, 3, Sequence::new(alloc));
    let wanted = [
        Answer::Reply(Reply::Opened),
        Answer::File(Err(FsError::NeedsCharge(usage(2, 2)))),
        Answer::Reply(Reply::Discarded(usage(1, 1))),
        Answer::Reply(Reply::Refused(Refusal::Leased)),
        Answer::Reply(Reply::Done),
        Answer::Reply(Reply::Removed(usage(2, 2))),
        Answer::Reply(Reply::Prepared { id, slot, chain }),
    ];
    equal(rt, "the answers", found.as_slice(), wanted.as_slice());
}

// One part is malformed.
fn spoil<R: Abort>(rt: &R, alloc: Global, part: RestoreFault, saved: &mut SavedWorld) {
    match part {
        RestoreFault::Config(_) => saved.config.slots = 0,
        RestoreFault::Entries => saved.entries = 4_611_686_018_427_387_905,
        RestoreFault::Snapshot(place, _) => {
            if let Some(snapshot) = saved.snapshots.get_mut(place) {
                snapshot.hand = None;
            }
        }
        RestoreFault::Lease(place, _) => {
            if let Some(lease) = saved.leases.get_mut(place) {
                lease.name = Text::new(alloc);
            }
        }
        RestoreFault::NextId => saved.next_id = 2,
        RestoreFault::Journal(_) => saved.config.journal = 1,
        RestoreFault::OutOfMemory(_) => equal(rt, "a part", false, true),
    }
}

fn refused<N: StoreName, R: Abort>(
    rt: &R,
    alloc: Global,
    table: NewTable,
    saved: SavedWorld,
    fault: RestoreFault,
)
    requires { table ≡ N.table }
{
    match World::<N>::restore(alloc, table, saved) {
        Ok(_) => equal(rt, "a fault", false, true),
        Err(found) => equal(rt, "the fault", found, fault),
    }
}

// What is saved of a world of a new table.
fn new_saved<R: Abort>(rt: &R, alloc: Global) -> SavedWorld
    ensures { AllByRecursion IsWholeSnapshot result.snapshots }
{
    saved::<Brand, R>(rt, alloc, new_table(rt, alloc))
}

fn resumed<R: Abort>(rt: &R, alloc: Global, saved: SavedWorld) {
    goes_on::<Brand, R>(rt, alloc, new_table(rt, alloc), saved);
}

fn spoiled<R: Abort>(rt: &R, alloc: Global, fault: RestoreFault) {
    let mut saved = new_saved(rt, alloc);
    spoil(rt, alloc, fault, &mut saved);
    refused::<Brand, R>(rt, alloc, new_table(rt, alloc), saved, fault);
}

// A line of each kind, by snap_pieces/README.md.
#[test]
fn lines_are_written_as_they_are_read(rt: HostRuntime) {
    let alloc = rt.alloc();
    for text in [
        r#"{"ancestors":64,"do":"restore","entries":8,"first_id":1,"journal":9,"layer_inodes":7,"next_id":3,"piece":"store","root":"/r","slots":2}"#,
        r#"{"blocks":0,"do":"restore","inodes":0,"name":"","piece":"namespace"}"#,
        r#"{"created":1,"do":"restore","key":"v","kind":"View","ns":"a","parent":"","piece":"snapshot","snapshot_id":1,"updated":2}"#,
        r#"{"blocks":2,"created":1,"do":"restore","inodes":1,"key":"k","kind":"Active","mode":493,"most":9,"next":1,"ns":"a","opaque":true,"parent":"b","piece":"snapshot","sealed":true,"slot":0,"snapshot_id":1,"updated":1}"#,
        r#"{"created":1,"do":"restore","key":"b","kind":"Committed","mode":493,"most":9,"next":1,"ns":"a","opaque":false,"parent":"","piece":"snapshot","snapshot_id":4294967295,"updated":3}"#,
        r#"{"do":"restore","key":"k","piece":"label","value":"\"\u0001"}"#,
        r#"{"do":"restore","mode":493,"opaque":true,"path":"/é","piece":"dir"}"#,
        r#"{"do":"restore","path":"/x","piece":"whiteout"}"#,
        r#"{"do":"restore","mode":420,"number":1,"piece":"file"}"#,
        r#"{"digest":"","do":"restore","mode":420,"number":2,"piece":"sized","size":0}"#,
        r#"{"do":"restore","mode":420,"number":2,"piece":"sized","size":18446744073709551615}"#,
        r#"{"do":"restore","number":1,"piece":"symlink","target":"ff2f"}"#,
        r#"{"bytes":"00ff","do":"restore","piece":"bytes"}"#,
        r#"{"do":"restore","path":"/d/n","piece":"name"}"#,
        r#"{"do":"restore","name":"l","ns":"a","piece":"lease","until":18446744073709551615}"#,
        r#"{"do":"restore","name":"l","ns":"a","piece":"lease"}"#,
        r#"{"do":"restore","name":"b","piece":"leased"}"#,
        r#"{"do":"restore","lines":18446744073709551615,"piece":"end"}"#,
    ] {
        let line = read(&rt, alloc, text);
        let again = written(&rt, alloc, &line);
        equal(&rt, "the line", again.as_str(), text);
    }
}

#[test]
fn a_world_goes_on(rt: HostRuntime) {
    let alloc = rt.alloc();
    let saved = new_saved(&rt, alloc);
    let saved = by_lines(alloc, saved).expect(&rt, "the same");
    let saved = through_texts(&rt, alloc, saved);
    resumed(&rt, alloc, saved);
}

#[test]
fn parts_are_refused(rt: HostRuntime) {
    let alloc = rt.alloc();
    for fault in [
        RestoreFault::Config(ConfigField::Slots),
        RestoreFault::Entries,
        RestoreFault::Snapshot(1, Refusal::BadArgument),
        RestoreFault::Lease(0, Refusal::BadArgument),
        RestoreFault::NextId,
        RestoreFault::Journal(Refusal::JournalFull),
    ] {
        spoiled(&rt, alloc, fault);
    }
}
