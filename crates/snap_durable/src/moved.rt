//! A store, or one namespace of it, as lines that make it elsewhere.
ghost use Rattle.std.specs.Prelude.{◌≡◌, ◌⊎◌, ◌↔◌, None, Ok, Err, IfErr, IfOk, IfSome, IsTrue, OnOk, option_copied, ℕ, List};
ghost use Rattle.std.specs.Io.KnownBytes.{Appends};
ghost use Rattle.std.specs.List.{AllByRecursion};
ghost use Rattle.snap_checkpoint.specs.Lines.{lines_put, store_lines};
ghost use Rattle.snap_log.specs.Log.{disk_of, text_in, IsHonest};
ghost use Rattle.snap_path.specs.Memory.{no_memory};
ghost use Rattle.snap_session.specs.Kept.{idle_kept};
ghost use Rattle.snap_session.specs.Script.{unbegun};
ghost use Rattle.snap_world.specs.Restored.{restored, saved_world};
ghost use Rattle.snap_world.specs.Saved.{IsWholeSnapshot};
ghost use Rattle.snap_world.specs.World.{WorldValue};
ghost use Rattle.snap_world.specs.declared.fault.RestoreFault.TheVariants as faults;
ghost use Rattle.snap_durable.specs.Checked.{saved_options};
ghost use Rattle.snap_durable.specs.Checkpoints.{IsTold, saved_text};
ghost use Rattle.snap_durable.specs.Moved.{HasMovedStore, IsLogMoved, IsLogUnmoved, IsSavedMoved, IsSavedUnmoved, IsSameThere, IsSilent, IsUnmoved, IsUnmovedStore, IsUnwrittenOf, has_moving, holdings_of, moved_config, moved_store, moves, moving};

use crate::check::SAVED;
use crate::chunk::READS;
use crate::holding::{Holding, holdings};
use crate::restart::{ReplayError, replay};
use crate::saved::{Unwritten, fill};
use snap_call::{Config, Namespace, SavedLease};
use snap_checkpoint::StoreLines;
use snap_ledger::{NewTable, StoreName};
use snap_lines::{Stop, read_lines, write_bytes};
use snap_log::{Lines, Log};
use snap_marks::Sums;
use snap_record::{Sequence, Text};
use snap_session::{KeptServer, Resuming, Runner};
use snap_world::{RestoreFault, SavedSnapshot, SavedWorld, World};
use sqlite_disk::Disk;
use std::alloc::{AllocError, Global};
use std::io::{self, Read, Write};
use std::marker::Brand;

/// What of a store moves, and where its snapshots' directories lie there.
#[derive(Debug, Drop)]
pub struct Move {
    /// The root there, where it isn't that of the store.
    pub root: Option<Text>,
    /// The name of the one namespace that moves, where not all do.
    pub namespace: Option<Text>,
}

/// Why not all lines were written.
#[derive(Drop)]
pub enum Unmoved {
    /// A call of the log's file failed.
    Io(io::Error),
    /// The lines of the file were not carried out, a write failed, or memory was refused.
    Stopped(Stop),
    /// A mark of the log doesn't agree with the lines before it or with their answers, or the last line is no mark.
    Differs(Sums),
    /// The lines of the file open no store.
    NoStore,
    /// The store has no namespace of this name.
    NoNamespace,
    /// No store can be made of what moves: its root is none, or no round of as many entries begins there.
    Unfit(RestoreFault),
    /// Of a namespace the store that is made has not the same.
    Changed,
    /// A line would have more than 16 MiB.
    TooLong,
}

impl From<Stop> for Unmoved {
    ghost use Rattle.std.specs.Prelude.{◌≡◌};
    ghost use Rattle.snap_durable.specs.declared.moved.Unmoved.TheVariants.{Stopped};

    ghost from_gives = { λ stop e. e ≡ Stopped stop };

    fn from(stop: Stop) -> Unmoved {
        Unmoved::Stopped(stop)
    }
}

impl From<AllocError> for Unmoved {
    ghost use Rattle.std.specs.Prelude.{◌≡◌};
    ghost use Rattle.snap_durable.specs.declared.moved.Unmoved.TheVariants.{Stopped};
    ghost use Rattle.snap_lines.specs.declared.stop.Stop.TheVariants.{OutOfMemory};
    ghost use Rattle.snap_path.specs.Memory.{no_memory};

    ghost from_gives = { λ _ e. e ≡ Stopped (OutOfMemory no_memory) };

    fn from(refused: AllocError) -> Unmoved {
        Unmoved::Stopped(refused.into())
    }
}

impl From<ReplayError> for Unmoved {
    ghost use Rattle.std.specs.Prelude.{◌≡◌};
    ghost use Rattle.snap_durable.specs.Moved.{unreplayed};

    ghost from_gives = { λ error e. e ≡ unreplayed error };

    fn from(error: ReplayError) -> Unmoved {
        match error {
            ReplayError::Io(error) => Unmoved::Io(error),
            ReplayError::Stopped(stop) => Unmoved::Stopped(stop),
        }
    }
}

impl From<Unwritten> for Unmoved {
    ghost use Rattle.std.specs.Prelude.{◌≡◌};
    ghost use Rattle.snap_durable.specs.Moved.{unfilled};

    ghost from_gives = { λ why e. e ≡ unfilled why };

    fn from(why: Unwritten) -> Unmoved {
        match why {
            Unwritten::OutOfMemory(want) => Unmoved::Stopped(Stop::OutOfMemory(want)),
            Unwritten::TooLong => Unmoved::TooLong,
            Unwritten::Io(error) => Unmoved::Io(error),
        }
    }
}

// Whether a namespace of this name moves.
fn moves(wanted: &Move, name: &Text) -> bool
    ensures { result ≡ moves wanted.now name.now }
{
    match &wanted.namespace {
        Some(one) => one.as_str() == name.as_str(),
        None => true,
    }
}

fn moved_namespaces(
    alloc: Global,
    wanted: &Move,
    namespaces: &[Namespace],
) -> Result<Sequence<Namespace>, AllocError>
    ensures { IfOk result (λ kept. kept ≡ moving wanted.now (λ n. n.name) namespaces.now) }
{
    let mut kept = Sequence::new(alloc);
    for namespace in namespaces {
        if moves(wanted, &namespace.name) {
            kept.push(namespace.clone()?)?;
        }
    }
    Ok(kept)
}

fn moved_config(alloc: Global, wanted: &Move, config: Config) -> Result<Config, AllocError>
    ensures { IfOk result (λ there. there ≡ moved_config wanted.now config) }
{
    let Config {
        root,
        namespaces,
        slots,
        journal,
        first_id,
        layer_inodes,
        ancestors,
    } = config;
    let root = match &wanted.root {
        Some(other) => other.clone()?,
        None => root,
    };
    Ok(Config {
        root,
        namespaces: moved_namespaces(alloc, wanted, namespaces.as_slice())?,
        slots,
        journal,
        first_id,
        layer_inodes,
        ancestors,
    })
}

fn moved_snapshots(
    alloc: Global,
    wanted: &Move,
    snapshots: Vec<SavedSnapshot>,
) -> Result<Vec<SavedSnapshot>, AllocError>
    ensures { IfOk result (λ kept. kept.items ≡ moving wanted.now (λ s. s.saved.namespace) snapshots.items) }
{
    let mut kept = Vec::new(alloc);
    for snapshot in snapshots {
        if moves(wanted, &snapshot.saved.namespace) {
            kept.push(snapshot)?;
        }
    }
    Ok(kept)
}

fn moved_leases(
    alloc: Global,
    wanted: &Move,
    leases: Vec<SavedLease>,
) -> Result<Vec<SavedLease>, AllocError>
    ensures { IfOk result (λ kept. kept.items ≡ moving wanted.now (λ l. l.namespace) leases.items) }
{
    let mut kept = Vec::new(alloc);
    for lease in leases {
        if moves(wanted, &lease.namespace) {
            kept.push(lease)?;
        }
    }
    Ok(kept)
}

// What moves of a saved store.
fn moved_store(alloc: Global, wanted: &Move, saved: SavedWorld) -> Result<SavedWorld, AllocError>
    ensures { IfOk result (λ there. there ≡ moved_store wanted.now saved) }
{
    let SavedWorld {
        config,
        entries,
        next_id,
        snapshots,
        leases,
    } = saved;
    Ok(SavedWorld {
        config: moved_config(alloc, wanted, config)?,
        entries,
        next_id,
        snapshots: moved_snapshots(alloc, wanted, snapshots)?,
        leases: moved_leases(alloc, wanted, leases)?,
    })
}

// What is had of the namespaces that move.
fn moved_holdings(
    alloc: Global,
    wanted: &Move,
    list: &[(Text, Holding)],
) -> Result<Sequence<(Text, Holding)>, AllocError>
    ensures { IfOk result (λ kept. kept ≡ moving wanted.now (λ h. h.0) list.now) }
{
    let mut kept = Sequence::new(alloc);
    for (name, holding) in list {
        if moves(wanted, name) {
            kept.push((name.clone()?, *holding))?;
        }
    }
    Ok(kept)
}

fn is_same(a: &Sequence<(Text, Holding)>, b: &Sequence<(Text, Holding)>) -> bool
    ensures { IsTrue result ↔ (a.now ≡ b.now) }
{
    *a == *b
}

// What the store has of its namespaces that is made of a saved one.
fn holdings_of<N: StoreName>(
    alloc: Global,
    table: NewTable,
    saved: SavedWorld,
) -> Result<Sequence<(Text, Holding)>, RestoreFault>
    requires { table ≡ N.table }
    ensures there { IfOk result (λ list. (w : WorldValue) × (restored saved ≡ Ok w) × (list ≡ holdings_of w)) }
    ensures refused { IfErr result (λ fault. (restored saved ≡ Err fault) ⊎ (fault ≡ faults.OutOfMemory no_memory)) }
{
    let world: World<N> = World::restore(alloc, table, saved)?;
    Ok(holdings(alloc, &world)?)
}

// The same, with a store of its own.
fn holdings_there(
    alloc: Global,
    saved: SavedWorld,
) -> Result<Sequence<(Text, Holding)>, RestoreFault>
    ensures there { IfOk result (λ list. (w : WorldValue) × (restored saved ≡ Ok w) × (list ≡ holdings_of w)) }
    ensures refused { IfErr result (λ fault. (restored saved ≡ Err fault) ⊎ (fault ≡ faults.OutOfMemory no_memory)) }
{
    let table = NewTable::new(alloc)?;
    holdings_of::<Brand>(alloc, table, saved)
}

// What moves of a world.
fn moved_world<N: StoreName>(
    alloc: Global,
    world: &World<N>,
    wanted: &Move,
) -> Result<SavedWorld, AllocError>
    ensures moved { IfOk result (λ saved. saved ≡ moved_store wanted.now (saved_world world.now)) }
    ensures whole { IfOk result (λ saved. AllByRecursion IsWholeSnapshot saved.snapshots) }
{
    moved_store(alloc, wanted, world.save(alloc)?)
}

// Makes a store of what moves, and lets it go: it has of each namespace what the world has.
fn check_moved<N: StoreName>(alloc: Global, world: &World<N>, wanted: &Move) -> Result<(), Unmoved>
    ensures ok { OnOk result (IsSameThere wanted.now world.now) }
    ensures why { IfErr result (λ why. IsUnmoved wanted.now world.now why) }
{
    let all: Sequence<(Text, Holding)> = holdings(alloc, world)?;
    let here = moved_holdings(alloc, wanted, all.as_slice())?;
    let saved = moved_world(alloc, world, wanted)?;
    match holdings_there(alloc, saved) {
        Ok(there) => {
            if is_same(&there, &here) {
                Ok(())
            } else {
                Err(Unmoved::Changed)
            }
        }
        Err(RestoreFault::OutOfMemory(want)) => Err(Unmoved::Stopped(Stop::OutOfMemory(want))),
        Err(fault) => Err(Unmoved::Unfit(fault)),
    }
}

// Whether the namespace that is asked for is there, if one is.
fn has_moving<N: StoreName>(world: &World<N>, wanted: &Move) -> bool
    ensures { result ≡ has_moving wanted.now world.now.state.namespaces }
{
    match &wanted.namespace {
        Some(name) => world.state().place_of(name.as_str()).is_some(),
        None => true,
    }
}

// The lines of what moves.
fn moved_lines<N: StoreName>(
    alloc: Global,
    world: &World<N>,
    wanted: &Move,
) -> Result<StoreLines, Unmoved>
    ensures lines { IfOk result (λ lines. lines ≡ store_lines (moved_store wanted.now (saved_world world.now))) }
    ensures back { IfOk result (λ lines. lines_put None lines ≡ Ok (moved_store wanted.now (saved_world world.now))) }
    ensures same { OnOk result (IsSameThere wanted.now world.now) }
    ensures why { IfErr result (λ why. IsUnmoved wanted.now world.now why) }
{
    if !has_moving(world, wanted) {
        return Err(Unmoved::NoNamespace);
    }
    check_moved(alloc, world, wanted)?;
    let saved = moved_world(alloc, world, wanted)?;
    Ok(StoreLines::begin(alloc, saved)?)
}

// Writes the lines, in parts.
fn write_lines<W: Write>(
    alloc: Global,
    mut lines: StoreLines,
    output: &mut W,
) -> Result<(), Unmoved>
    ensures written { OnOk result (Appends (W.contents output.old) (W.contents output.new) (saved_text lines)) }
    ensures told { OnOk result (AllByRecursion IsTold lines) }
    ensures why { IfErr result (λ why. IsUnwrittenOf lines why) }
{
    let mut sums = Sums::new();
    let mut text = Lines::new(alloc);
    'parts: while !lines.is_empty() {
        text.clear();
        fill(alloc, &mut lines, &mut text, &mut sums)?;
        write_bytes(output, text.as_slice())?;
    }
    Ok(())
}

// Writes the lines of what moves of the store, if one stands.
fn write_moved<N: StoreName, W: Write>(
    alloc: Global,
    world: Option<&World<N>>,
    wanted: &Move,
    output: &mut W,
) -> Result<(), Unmoved>
    ensures moved { OnOk result (HasMovedStore wanted.now (option_copied world.entry) (W.contents output.old) (W.contents output.new)) }
    ensures why { IfErr result (λ why. IsUnmovedStore wanted.now (option_copied world.entry) why) }
    ensures silent { IfErr result (λ why. IsSilent why (W.contents output.old) (W.contents output.new)) }
{
    let Some(world) = world else {
        return Err(Unmoved::NoStore);
    };
    let lines = moved_lines(alloc, world, wanted)?;
    write_lines(alloc, lines, output)
}

// Moves the store of a log by a server that has carried out no line.
fn move_by<N: StoreName, D: Disk, W: Write>(
    alloc: Global,
    resuming: &mut Resuming<N>,
    log: &mut Log<D>,
    wanted: &Move,
    output: &mut W,
) -> Result<(), Unmoved>
    requires { resuming.old ≡ idle_kept }
    ensures done { OnOk result (IsHonest log.new → IsLogMoved wanted.now (text_in log.old) (W.contents output.old) (W.contents output.new)) }
    ensures why { IfErr result (λ why. IsHonest log.new → IsLogUnmoved wanted.now (text_in log.old) why) }
    ensures silent { IfErr result (λ why. IsSilent why (W.contents output.old) (W.contents output.new)) }
    ensures text { text_in log.new ≡ text_in log.old }
    ensures crash { (c : List ℕ) → D.Disk.may_leave (disk_of log.new) c → D.Disk.may_leave (disk_of log.old) c }
    ensures clean { IsHonest log.new → IsHonest log.old }
{
    replay(alloc, resuming, log)?;
    let server = resuming.server();
    if !server.is_whole() {
        return Err(Unmoved::Differs(*server.sums()));
    }
    write_moved(alloc, server.world(), wanted, output)
}

fn run<N: StoreName, D: Disk, W: Write>(
    alloc: Global,
    table: NewTable,
    log: &mut Log<D>,
    wanted: &Move,
    output: &mut W,
) -> Result<(), Unmoved>
    requires { table ≡ N.table }
    ensures done { OnOk result (IsHonest log.new → IsLogMoved wanted.now (text_in log.old) (W.contents output.old) (W.contents output.new)) }
    ensures why { IfErr result (λ why. IsHonest log.new → IsLogUnmoved wanted.now (text_in log.old) why) }
    ensures silent { IfErr result (λ why. IsSilent why (W.contents output.old) (W.contents output.new)) }
    ensures text { text_in log.new ≡ text_in log.old }
    ensures crash { (c : List ℕ) → D.Disk.may_leave (disk_of log.new) c → D.Disk.may_leave (disk_of log.old) c }
    ensures clean { IsHonest log.new → IsHonest log.old }
{
    let mut resuming: Resuming<N> = Resuming::new(KeptServer::new(alloc, table));
    move_by(alloc, &mut resuming, log, wanted, output)
}

/// Carries out the lines of a log, whose marks have to agree, and writes the lines of what moves of its store: its
/// saved store with the root and the namespaces that are wanted. It makes a store of them first, and compares what each
/// namespace has there with what it has here: its charge and its limit, and how many snapshots and leases it has.
///
/// At `Ok` a server makes that store of the lines. `Io` where a call of the disk failed; `Stopped` where the log's
/// lines were not carried out, memory was refused or a write failed; `Differs`, `NoStore`, `NoNamespace`; `Unfit` with
/// the fault of [`World::restore`], as `Config` with `Root` for a root that none can have, and `Journal` where a `roll`
/// to as many entries is refused; `TooLong`. `Changed` was never seen. After `Stopped` and `TooLong` a first part of
/// the lines may be written, which makes no store without the last one; after another error nothing is. The log has its
/// text as before. The cost is that of the log's commands and of twice the store's lines, which are written in parts of
/// 256 KiB; takes memory for the store, another one that shares its committed layers, two copies of what is open, and
/// such a part.
pub fn move_log<D: Disk, W: Write>(
    alloc: Global,
    log: &mut Log<D>,
    wanted: &Move,
    output: &mut W,
) -> Result<(), Unmoved>
    ensures done { OnOk result (IsHonest log.new → IsLogMoved wanted.now (text_in log.old) (W.contents output.old) (W.contents output.new)) }
    ensures why { IfErr result (λ why. IsHonest log.new → IsLogUnmoved wanted.now (text_in log.old) why) }
    ensures silent { IfErr result (λ why. IsSilent why (W.contents output.old) (W.contents output.new)) }
    ensures text { text_in log.new ≡ text_in log.old }
    // Whatever the call answers, a crash leaves what could be left before.
    ensures crash { (c : List ℕ) → D.Disk.may_leave (disk_of log.new) c → D.Disk.may_leave (disk_of log.old) c }
    ensures clean { IsHonest log.new → IsHonest log.old }
{
    let table = NewTable::new(alloc)?;
    run::<Brand, D, W>(alloc, table, log, wanted, output)
}

// Moves the store of a saved one by a run that has taken no line.
fn move_saved_by<N: StoreName, R: Read, W: Write>(
    alloc: Global,
    runner: &mut Runner<N>,
    input: &mut R,
    wanted: &Move,
    output: &mut W,
) -> Result<(), Unmoved>
    requires { runner.old ≡ unbegun saved_options }
    ensures done { OnOk result (IfSome (R.remaining input.old) (λ bytes. IsSavedMoved wanted.now bytes (W.contents output.old) (W.contents output.new))) }
    ensures why { IfErr result (λ why. IfSome (R.remaining input.old) (λ bytes. IsSavedUnmoved wanted.now bytes why)) }
    ensures silent { IfErr result (λ why. IsSilent why (W.contents output.old) (W.contents output.new)) }
{
    read_lines(alloc, runner, input, &mut io::sink(), None, READS)?;
    write_moved(alloc, runner.world(), wanted, output)
}

fn run_saved<N: StoreName, R: Read, W: Write>(
    alloc: Global,
    table: NewTable,
    input: &mut R,
    wanted: &Move,
    output: &mut W,
) -> Result<(), Unmoved>
    requires { table ≡ N.table }
    ensures done { OnOk result (IfSome (R.remaining input.old) (λ bytes. IsSavedMoved wanted.now bytes (W.contents output.old) (W.contents output.new))) }
    ensures why { IfErr result (λ why. IfSome (R.remaining input.old) (λ bytes. IsSavedUnmoved wanted.now bytes why)) }
    ensures silent { IfErr result (λ why. IsSilent why (W.contents output.old) (W.contents output.new)) }
{
    let mut runner: Runner<N> = Runner::new(alloc, table, SAVED);
    move_saved_by(alloc, &mut runner, input, wanted, output)
}

/// Carries out the lines of a saved store, and writes the lines of what moves of it, as [`move_log`] does.
///
/// `Stopped` with `Line` at the first line that is no command or is refused, with `InputFailed` where a read failed;
/// else as [`move_log`]. The cost and the memory are those of the lines, and those that [`move_log`] names.
pub fn move_saved<R: Read, W: Write>(
    alloc: Global,
    input: &mut R,
    wanted: &Move,
    output: &mut W,
) -> Result<(), Unmoved>
    ensures done { OnOk result (IfSome (R.remaining input.old) (λ bytes. IsSavedMoved wanted.now bytes (W.contents output.old) (W.contents output.new))) }
    ensures why { IfErr result (λ why. IfSome (R.remaining input.old) (λ bytes. IsSavedUnmoved wanted.now bytes why)) }
    ensures silent { IfErr result (λ why. IsSilent why (W.contents output.old) (W.contents output.new)) }
{
    let table = NewTable::new(alloc)?;
    run_saved::<Brand, R, W>(alloc, table, input, wanted, output)
}
