// A seat that threads may share.
ghost use Rattle.std.specs.Prelude.{◌≡◌};
ghost use base.Fml.{ftrue};

use crate::rule::RoundView;
use atomic_table::Seat;
use std::marker::Model;

// A seat that is at rest: through a `&` nothing can be done with it, so threads may share it. It takes no bytes.
pub struct Resting {
    pub(crate) seat: Seat<(), RoundView>,
}

impl Model for Resting {
    ghost also_owns = { λ _. ftrue };
}

impl Resting {
    pub(crate) fn new(seat: Seat<(), RoundView>) -> Resting
        ensures { result.seat ≡ seat }
    {
        Resting { seat }
    }

    pub(crate) fn into_seat(self) -> Seat<(), RoundView>
        ensures { result ≡ self.seat }
    {
        let Resting { seat } = self;
        seat
    }
}

// By hand, through `into_seat`: a derived one would forget what `also_owns` covers.
impl Drop for Resting {
    fn drop(self) {
        let _seat = self.into_seat();
    }
}

unsafe impl Send for Resting {}

unsafe impl Sync for Resting {}
