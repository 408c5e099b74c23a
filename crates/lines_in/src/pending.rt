//! The prefix of a line that has not ended.
ghost use Rattle.std.specs.Prelude.{◌≡◌, ◌==◌, ◌++◌, ◌<◌, ◌^◌, ℕ, List, [], IfOk, length};
ghost use Rattle.lines_in.specs.Holding.{PendingLine};

use std::alloc::{AllocError, Global};
use std::marker::Model;

/// What is kept of a line that has not ended: its first bytes, one more of them than a line may have.
#[derive(Drop)]
pub struct Pending<const MOST: usize> {
    bytes: Vec<u8>,
}

impl<const MOST: usize> Model for Pending<MOST> {
    ghost use Rattle.std.specs.Prelude.{◌<◌, ◌≤◌, ◌+◌, ◌^◌, ℕ, List, vec_len, vec_capacity};

    ghost Value = { List ℕ };

    ghost view = { λ p. p.bytes.items };

    ghost invariant = { λ p. (MOST < 2 ^ 32) × (vec_len p.bytes ≤ MOST + 1) × (MOST + 1 ≤ vec_capacity p.bytes) };
}

impl<const MOST: usize> Pending<MOST> {
    /// Nothing, with room for all that will be kept.
    pub fn new(alloc: Global) -> Result<Pending<MOST>, AllocError>
        requires { MOST < 2 ^ 32 }
        ensures { IfOk result (λ p. p ≡ []) }
    {
        Ok(Pending {
            bytes: Vec::with_capacity(alloc, MOST + 1)?,
        })
    }

    /// Whether nothing is kept.
    pub fn is_empty(&self) -> bool
        ensures { result ≡ (length self.now == 0) }
    {
        self.bytes.is_empty()
    }

    /// What is kept.
    pub fn as_slice(&self) -> &[u8]
        ensures { result.now ≡ self.now }
    {
        self.bytes.as_slice()
    }

    /// Forgets what is kept.
    pub fn clear(&mut self)
        ensures { self.new ≡ [] }
    {
        self.bytes.clear();
    }

    /// Keeps a part that goes on after what is kept.
    pub fn keep(&mut self, part: &[u8])
        ensures { (rest : List ℕ) → PendingLine MOST rest self.old → PendingLine MOST (rest ++ part.now) self.new }
    {
        let held = self.bytes.len();
        let room = MOST + 1 - held;
        let kept = room.min(part.len());
        match self.bytes.extend_from_slice(&part[..kept]) {
            Ok(()) => {}
            Err(_) => unreachable!(),
        }
    }
}
