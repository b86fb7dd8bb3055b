//! The line that is not at its end yet.
ghost use Rattle.std.specs.Prelude.{◌≡◌, ◌≤◌, ◌↔◌, ◌++◌, List, ℕ, [], IfOk, IfSome, IsTrue, MatchOption, length};
ghost use Rattle.gv_serve.specs.Partial.{Holds, IsOver, line_limit};

use gv_lines::{LINE_LIMIT, Slip};
use std::alloc::{AllocError, Global};
use std::marker::Model;

/// The bytes of a line so far. Of one that is too long nothing is kept.
#[derive(Drop)]
pub struct Partial {
    bytes: Vec<u8>,
    is_over: bool,
}

impl Model for Partial {
    ghost use Rattle.std.specs.Prelude.{vec_capacity, ◌≤◌, length};
    ghost use Rattle.gv_serve.specs.Partial.{PartialState, line_limit};

    ghost Value = { PartialState };

    ghost view = { λ p. record { kept = p.bytes.items; is_over = p.is_over } };

    ghost invariant = { λ p. (line_limit ≤ vec_capacity p.bytes) × (length p.bytes.items ≤ line_limit) };
}

impl Partial {
    /// Nothing, with room for the longest line.
    pub fn new(alloc: Global) -> Result<Partial, AllocError>
        ensures { IfOk result (λ partial. Holds partial []) }
    {
        Ok(Partial {
            bytes: Vec::with_capacity(alloc, LINE_LIMIT)?,
            is_over: false,
        })
    }

    /// Whether there is nothing.
    #[tactic(auto, using(crate::proofs::Partials::over_more, crate::proofs::Partials::over_now, crate::proofs::Partials::some_over))]
    pub fn is_empty(&self) -> bool
        ensures { (line : List ℕ) → Holds self.now line → IsTrue result ↔ (line ≡ []) }
    {
        if self.is_over {
            return false;
        }
        self.bytes.is_empty()
    }

    /// Adds bytes of the line.
    #[tactic(auto, using(crate::proofs::Partials::over_more, crate::proofs::Partials::over_now, crate::proofs::Partials::some_over))]
    pub fn keep(&mut self, bytes: &[u8])
        ensures { (line : List ℕ) → Holds self.old line → Holds self.new (line ++ bytes.now) }
    {
        if self.is_over {
            return;
        }
        if LINE_LIMIT - self.bytes.len() < bytes.len() {
            self.bytes.clear();
            self.is_over = true;
            return;
        }
        let Ok(()) = self.bytes.extend_from_slice(bytes) else {
            unreachable!()
        };
    }

    /// The line, unless it is too long.
    pub fn line(&self) -> Option<&[u8]>
        ensures line { (line : List ℕ) → Holds self.now line → MatchOption result (IsOver line) (λ found. found.now ≡ line) }
        ensures short { IfSome result (λ found. length found.now ≤ line_limit) }
    {
        if self.is_over {
            return None;
        }
        Some(self.bytes.as_slice())
    }

    /// Why what stands behind the last line end is bad.
    pub fn no_line_end(&self) -> Slip<'_> {
        self.line()
            .map_or(Slip::too_long(), |line| Slip::no_line_end(line.len()))
    }

    /// The next line begins.
    pub fn clear(&mut self)
        ensures { Holds self.new [] }
    {
        self.bytes.clear();
        self.is_over = false;
    }
}
