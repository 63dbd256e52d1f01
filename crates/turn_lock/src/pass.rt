// A caller's pass.
ghost use Rattle.std.specs.Prelude.{◌≡◌, false, []};

use crate::growing::Growing;
use crate::rule::View;
use atomic_table::Seat;
use std::marker::Model;

/// What a caller takes turns with. Contracts see it as the table of the lock that it fits and what it knows.
pub struct Pass<S: Growing> {
    pub(crate) seat: Seat<Option<S>, View<S::Entry, S::Ground>>,
    pub(crate) number: u64,
    pub(crate) unused: u64,
    pub(crate) left: u64,
}

impl<S: Growing> Model for Pass<S> {
    ghost use Rattle.turn_lock.specs.Pass.{Known, IsPass};

    ghost Value = { Known S.Entry S.Ground };

    ghost view = { λ p. record { table = p.seat.table_id; knows = p.seat.me.0 } };

    ghost invariant = { λ p. IsPass p.seat.me p.number p.unused p.left };
}

impl<S: Growing> Pass<S> {
    /// The number that this pass's entries carry.
    pub fn number(&self) -> u64
        ensures { result ≡ self.now.knows.number }
    {
        self.number
    }

    pub(crate) fn into_seat(self) -> Seat<Option<S>, View<S::Entry, S::Ground>>
        requires { self.knows.holds ≡ false }
        ensures { (result.table_id ≡ self.table) × (result.me ≡ (self.knows, [])) }
    {
        let Self {
            seat,
            number: _,
            unused: _,
            left: _,
        } = self;
        seat
    }
}

impl<S: Growing> Drop for Pass<S> {
    fn drop(self) {
        let Self {
            seat: _,
            number: _,
            unused: _,
            left: _,
        } = self;
    }
}
