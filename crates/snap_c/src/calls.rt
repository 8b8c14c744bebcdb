// The calls of a store that is kept between them.
ghost use Rattle.std.specs.Prelude.{◌≡◌, ◌⊎◌, true, false};
ghost use Rattle.snap_c.specs.Calls.{Called, NothingGiven, TextGiven, all_done, already_open, memory_refused, not_open};
ghost use Rattle.snap_c.specs.Held.{unserved};

use crate::NO_ROOM;
use crate::handle::Handle;
use crate::held::{Told, Work};
use snap_ledger::NewTable;
use std::alloc::Global;

const DONE: u32 = 0;

const OUT_OF_MEMORY: u32 = 4;

// The handle has no store.
const NOT_OPEN: u32 = 7;

// The handle has a store.
const ALREADY_OPEN: u32 = 8;

// Gives a text to the caller.
fn give_text(text: &[u8], room: &mut [u8], written: &mut usize) -> u32
    ensures { TextGiven text.now result written.new room.old room.new }
{
    *written = text.len();
    if room.len() < text.len() {
        return NO_ROOM;
    }
    room[..text.len()].copy_from_slice(text);
    DONE
}

/// Opens a store that is kept until [`pibroulez_close`], as `snap_replay serve` begins with one: it has answered no line,
/// and its first command is an open. Takes memory for the store.
///
/// 0 where it stands; 4 where memory was refused, and 8 where the handle has a store, which stays as it was.
#[unsafe(no_mangle)]
pub extern "C" fn pibroulez_open(alloc: Global, store: &mut Handle) -> u32
    ensures standing { store.old.stands ≡ true → (result ≡ already_open) × (store.new ≡ store.old) }
    ensures opened { store.old.stands ≡ false → ((result ≡ all_done) × (store.new.stands ≡ true) × (store.new.value ≡ unserved)) ⊎ ((result ≡ memory_refused) × (store.new.stands ≡ false)) }
{
    if store.stands() {
        return ALREADY_OPEN;
    }
    match NewTable::new(alloc) {
        Ok(table) => *store = Handle::opened(alloc, table),
        Err(_) => return OUT_OF_MEMORY,
    }
    if store.stands() { DONE } else { OUT_OF_MEMORY }
}

/// Carries out a line, which stands here without its line feed, as `snap_replay serve` does, and keeps its answer until
/// the next line. The answer goes to the front of the room for it, with its line feed, and its number of bytes to
/// `written`.
///
/// 0 where that was done. 6 where the room is too small: the line was carried out all the same, the room is as it was,
/// `written` says how much the answer takes, and [`pibroulez_answer`] gives it. 4 where memory was refused: the store
/// is let go, as it would be good for nothing. 7 where the handle has none. The room is as it was by 4 and 7, and
/// `written` is 0.
#[unsafe(no_mangle)]
pub extern "C" fn pibroulez_call(
    alloc: Global,
    store: &mut Handle,
    line: &[u8],
    answer: &mut [u8],
    written: &mut usize,
) -> u32
    ensures closed { store.old.stands ≡ false → (result ≡ not_open) × (store.new ≡ store.old) × NothingGiven written.new answer.old answer.new }
    ensures called { store.old.stands ≡ true → Called store.old.value line.now result store.new.stands store.new.value written.new answer.old answer.new }
{
    *written = 0;
    if !store.stands() {
        return NOT_OPEN;
    }
    match store.work(Work::Line(alloc, line)) {
        Told::Text(text) => {
            let status = give_text(text.as_bytes(), answer, written);
            store.swap(alloc, text);
            status
        }
        Told::OutOfMemory => {
            store.close(alloc);
            OUT_OF_MEMORY
        }
    }
}

/// Gives the answer of the last line once more; before the first line it is empty. It carries out nothing, and takes no
/// memory.
///
/// 0 where the answer is in the room, 6 where that is too small, and 7 where the handle has no store, each as by
/// [`pibroulez_call`].
#[unsafe(no_mangle)]
pub extern "C" fn pibroulez_answer(
    alloc: Global,
    store: &mut Handle,
    answer: &mut [u8],
    written: &mut usize,
) -> u32
    ensures closed { store.old.stands ≡ false → (result ≡ not_open) × (store.new ≡ store.old) × NothingGiven written.new answer.old answer.new }
    ensures given { store.old.stands ≡ true → (store.new.stands ≡ true) × (store.new.value ≡ store.old.value) × TextGiven store.old.value.answer result written.new answer.old answer.new }
{
    *written = 0;
    if !store.stands() {
        return NOT_OPEN;
    }
    let text = store.swap(alloc, String::new(alloc));
    let status = give_text(text.as_bytes(), answer, written);
    store.swap(alloc, text);
    status
}

/// Lets the store go, with all that it has; nothing where the handle has none.
#[unsafe(no_mangle)]
pub extern "C" fn pibroulez_close(alloc: Global, store: &mut Handle)
    ensures { store.new.stands ≡ false }
{
    store.close(alloc);
}
