//! A live buffer at its index.
ghost use Rattle.std.specs.Prelude.{◌≡◌, ◌<◌, ℕ, IsOk, IfOk, OnOk, MatchOption, Some, false};
ghost use Rattle.gv_buffers.specs.Slots.{buffer_at, after_move, CanMove, HasRoomForJob, IsUserIn};
ghost use Rattle.gv_buffers.specs.Buffers.{count, use_fault};

use crate::counter::{Counter, Move};
use crate::users::Users;
use gv_types::{Fault, Generation};
use std::alloc::AllocError;

/// A live buffer at its index.
#[derive(Drop)]
pub struct LiveBuffer {
    pub generation: Generation,
    pub pages: u64,
    pub uses: u64,
    pub kept: u64,
    pub users: Users,
}

impl LiveBuffer {
    /// How many mappings the counter counts.
    pub fn count(&self, counter: Counter) -> u64
        ensures { result ≡ count counter (buffer_at 0 self.now) }
    {
        match counter {
            Counter::Uses => self.uses,
            Counter::Kept => self.kept,
        }
    }

    /// Counts a mapping that moves.
    #[inline(always)]
    pub fn count_move(&mut self, how: Move)
        requires { CanMove how (buffer_at 0 self.old) }
        ensures { (index : ℕ) → buffer_at index self.new ≡ after_move how (buffer_at index self.old) }
    {
        match how {
            Move::In | Move::BroughtBack => self.uses += 1,
            Move::Out | Move::TakenOut => self.uses -= 1,
            Move::Saved | Move::Released => {}
        }
        match how {
            Move::TakenOut | Move::Saved => self.kept += 1,
            Move::BroughtBack | Move::Released => self.kept -= 1,
            Move::In | Move::Out => {}
        }
    }

    /// Makes room for a job among its users. Whether the job is new among them.
    pub fn reserve_user(&mut self, job: u64) -> Result<bool, AllocError>
        ensures same { (index : ℕ) → buffer_at index self.new ≡ buffer_at index self.old }
        ensures room { OnOk result (HasRoomForJob job (Some self.new)) }
        ensures user { IfOk result (λ is_new. is_new ≡ false → IsUserIn job (Some self.old)) }
    {
        if self.users.index_of(job).is_some() {
            return Ok(false);
        }
        self.users.list.reserve(1)?;
        Ok(true)
    }

    /// Gives room back that its users don't need.
    pub fn shrink(&mut self)
        ensures { (index : ℕ) → buffer_at index self.new ≡ buffer_at index self.old }
    {
        self.users.shrink();
    }

    /// `Mapped`, `Kept` or `InUse`, in this order, where something names the buffer.
    pub fn check_unused(&self) -> Result<(), Fault>
        ensures { MatchOption (use_fault (buffer_at 0 self.now))
            (IsOk result) (λ fault. result ≡ Err fault) }
    {
        if self.uses > 0 {
            return Err(Fault::Mapped { count: self.uses });
        }
        if self.kept > 0 {
            return Err(Fault::Kept { count: self.kept });
        }
        if !self.users.list.is_empty() {
            return Err(Fault::InUse {
                jobs: self.users.list.len() as u64,
            });
        }
        Ok(())
    }
}
