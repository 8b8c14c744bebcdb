// A round of a store: its sessions, and the open snapshots and the views in the script's hands.
use crate::hand::Hand;
use crate::refused::Refused;
use crate::stop::Stop;
use snap_book::{Refusal, Reply, Viewed};
use snap_record::Text;
use snap_script::Answer;
use snap_store::{RoundName, Session, Store};
use std::alloc::{AllocError, Global};
use std::sync::Wait;

// A view, with its namespace and its key.
pub(crate) struct View {
    pub(crate) namespace: Text,
    pub(crate) key: Text,
    pub(crate) viewed: Viewed,
}

// By hand: a derived one is proved anew, part by part, wherever a value is let go.
impl Drop for View {
    fn drop(self) {
        let View {
            namespace: _,
            key: _,
            viewed: _,
        } = self;
    }
}

impl View {
    pub(crate) fn is(&self, namespace: &str, key: &str) -> bool {
        self.namespace.as_str() == namespace && self.key.as_str() == key
    }
}

// The session n is at place n. The views are those of earlier rounds too.
pub(crate) struct Round<'a, N: RoundName, R: Wait> {
    pub(crate) alloc: Global,
    pub(crate) rt: &'a R,
    pub(crate) store: &'a Store<N>,
    pub(crate) views: Vec<View>,
    pub(crate) sessions: Vec<Session>,
    pub(crate) hands: Vec<Hand<'a, N, R>>,
    // The entries of the next round, once the script asks for it.
    pub(crate) next: Option<u64>,
}

// By hand: a derived one is proved anew, part by part, wherever a value is let go.
impl<'a, N: RoundName, R: Wait> Drop for Round<'a, N, R> {
    fn drop(self) {
        let Round {
            alloc: _,
            rt: _,
            store: _,
            views: _,
            sessions: _,
            hands: _,
            next: _,
        } = self;
    }
}

// The session of this number.
pub(crate) fn session_at(sessions: &mut Vec<Session>, n: u64) -> Result<&mut Session, Refused> {
    match sessions.get_mut(n as usize) {
        Some(session) => Ok(session),
        None => Err(Refused::NoSession),
    }
}

impl<'a, N: RoundName, R: Wait> Round<'a, N, R> {
    // Opens a session: its number.
    pub(crate) fn open_session(&mut self) -> Result<u64, Refused> {
        self.sessions.reserve(1)?;
        let session = self.store.session(self.rt)?;
        let number = session.number();
        self.sessions.push(session)?;
        Ok(number)
    }

    // What `open` and `reopen` are answered: whether session 0 is open. It is opened again where memory was
    // refused.
    pub(crate) fn first_session(&mut self) -> Result<Option<Answer>, Stop> {
        let opened = match self.open_session() {
            Err(Refused::Book(Refusal::OutOfMemory(_))) => self.open_session(),
            opened => opened,
        };
        match opened {
            Ok(_) => Ok(Some(Answer::Reply(Reply::Done))),
            Err(refused) => refused.answer(),
        }
    }

    // The place of the hand that has the key.
    pub(crate) fn found(&self, namespace: &str, key: &str) -> Result<usize, Refused> {
        for (place, hand) in self.hands.iter().enumerate() {
            if hand.namespace.as_str() == namespace && hand.key.as_str() == key {
                return Ok(place);
            }
        }
        Err(Refused::NotHeld)
    }

    // Discards what is still held, by session 0.
    fn discard_all(&mut self) -> Result<(), AllocError> {
        if let Some(session) = self.sessions.first_mut() {
            for _ in 0..self.hands.len() {
                match session.reserve(1) {
                    Ok(()) => {}
                    Err(_) => session.reserve(1)?,
                }
                if !self.hands.is_empty() {
                    let _ = self.hands.remove(0).discard(session);
                }
            }
        }
        Ok(())
    }

    // What is left of the round, with nothing held.
    pub(crate) fn end(mut self) -> Result<(Vec<Session>, Vec<View>, Option<u64>), AllocError> {
        self.discard_all()?;
        let Round {
            alloc: _,
            rt: _,
            store: _,
            views,
            sessions,
            hands: _,
            next,
        } = self;
        Ok((sessions, views, next))
    }
}
