// What can be handed to another thread, and what can be shared. Witnesses: they are proved, and not run.
use snap_book::{Active, Book, Sealed};
use snap_call::{Call, Config, SharedEntry, State};
use snap_store::{Closed, RoundName, Session, Store};
use std::sync::Mutex;

fn sends_and_shares<S: Send, T: Sync>() {}

// The plain data, what writers hold, a book and its lock; and a store, which many threads can call, and what it
// hands out.
fn are_sent<N: RoundName + Send + Sync>() {
    sends_and_shares::<(Config, State, Call, SharedEntry), Mutex<Book<N>>>();
    sends_and_shares::<(Active<N>, Sealed<N>, Session), Store<N>>();
    sends_and_shares::<(Book<N>, Store<N>, Closed<N>), Store<N>>();
}
