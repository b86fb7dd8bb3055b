//! The driver puts requests while the workers run.
ghost use Rattle.std.specs.Prelude.{◌≡◌, ◌≤◌, ℕ, List, length};
ghost use Rattle.gv_types.specs.declared.request.Request.{Request};
ghost use Rattle.gv_sync.specs.Seats.{IsSeatOf, SeatState, timeline_count};
ghost use Rattle.gv_queues.specs.Driving.{ArePut};
ghost use Rattle.gv_queues.specs.Submitting.{AreCounted, AreOpened, AreSameSubmitters};

use crate::submitter::Submitter;
use crate::vm_lock::VmLock;
use gv_sync::{Seat, Timelines};
use std::sync::Wait;

/// Puts requests, and does whatever else is to be done while the workers run. It stores how many requests were put on each
/// queue.
pub trait Driver {
    ghost put_on: { Self → ℕ → ℕ };

    /// Which requests the driver may put on a queue, in order: of the driver before it ran, the queue, and the list of
    /// them.
    ghost may_put: { Self → ℕ → List Request → Type 0 };

    /// What the driver relies on: how many requests each queue takes, how many places it has, and how many queues there
    /// are.
    ghost relies_on: { Self → ℕ → ℕ → ℕ → Type 0 };

    /// What the driver did with the seat that it was lent: of the seat as it got it, and as it left it.
    ghost does_with: { Self → SeatState → SeatState → Type 0 };

    /// Each place has the submitter of its queue, which put nothing yet; all have one limit and one depth, on which
    /// the driver relies. Afterwards the same submitters are there, on the same channels.
    fn drive<R: Wait>(
        &mut self,
        rt: &R,
        lock: &VmLock,
        submitters: &mut [Submitter],
        timelines: &Timelines,
        seat: &mut Seat,
    )
        requires own { IsSeatOf timelines.now seat.old }
        requires opened { (limit : ℕ) × (depth : ℕ)
            × AreOpened limit depth (timeline_count timelines.now) submitters.old
            × relies_on self.old limit depth (length submitters.old) }
        ensures own { IsSeatOf timelines.now seat.new }
        ensures driven { does_with self.new seat.old seat.new }
        ensures same { AreSameSubmitters submitters.old submitters.new }
        ensures put { ArePut (may_put self.old) submitters.new }
        ensures counts { AreCounted (put_on self.new) submitters.new };

    /// How many requests were put on a queue.
    fn count(&self, queue: u64) -> u64
        ensures { result ≡ put_on self.now queue };
}
