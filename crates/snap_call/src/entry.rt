ghost use Rattle.std.specs.Prelude.{◌≡◌, IsTrue, ◌↔◌};

use crate::call::{Call, Given};
use crate::reply::Reply;
use crate::same::{is_same_call, is_same_given, is_same_reply};

/// An entry of the journal: a call of a session, what was handed in with it, and the reply.
#[derive(Debug, PartialEq, Eq)]
pub struct Entry {
    pub session: u64,
    pub call: Call,
    pub given: Given,
    pub reply: Reply,
}

// By hand: a derived one is proved anew, part by part, wherever a value is let go.
impl Drop for Entry {
    fn drop(self) {
        let Entry {
            session: _,
            call: _,
            given: _,
            reply: _,
        } = self;
    }
}

impl Entry {
    /// Whether the entries are equal in all parts. Its cost grows with what is compared.
    pub fn is_same(&self, other: &Entry) -> bool
        ensures { IsTrue result ↔ (self.now ≡ other.now) }
    {
        self.session == other.session
            && is_same_call(&self.call, &other.call)
            && is_same_given(&self.given, &other.given)
            && is_same_reply(&self.reply, &other.reply)
    }
}
