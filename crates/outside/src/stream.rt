//! An input and an output in memory.
ghost use Rattle.std.specs.Prelude.{◌≡◌, ◌<◌, ◌≤◌, ◌++◌, Bool, List, ℕ, length, take, IsTrue, OnErr, IfOk};
ghost use Rattle.disk_trait.specs.World.{World, Rose};
ghost use Rattle.outside.specs.Streams.{Takes, TakeMoves, SayMoves, SaidByNow};

use disk_trait::Disk;

/// The input failed.
#[derive(Clone, Copy, Debug, PartialEq, Eq)]
pub struct TakeFault;

/// The output failed.
#[derive(Clone, Copy, Debug, PartialEq, Eq)]
pub struct SayFault;

/// A disk with an input and an output beside it.
///
/// Neither `take` nor `say` changes what the disk holds, its counts, or what a crash may leave of it. A fault comes
/// only where the count of faults of its stream rose in that call.
pub trait Outside: Disk {
    /// Whether it tells what is still to take. No call changes that.
    ghost tells_input: { Bool };

    /// Whether it tells what was said. No call changes that.
    ghost tells_output: { Bool };

    /// Takes the next bytes of the input, as many as it likes and `into` has room for: how many they are, and they
    /// stand at the slice's start. 0 is the end of the input.
    ///
    /// At `Err` nothing was taken.
    fn take(&mut self, into: &mut [u8]) -> Result<usize, TakeFault>
        requires { 0 < length into.old }
        ensures count { IfOk result (λ n. n ≤ length into.old) }
        ensures taken { IsTrue tells_input → IfOk result (λ n. Takes n into.new (Self.world self.old).beside (Self.world self.new).beside) }
        ensures unchanged { OnErr result ((Self.world self.new).beside.to_take ≡ (Self.world self.old).beside.to_take) }
        ensures moves { TakeMoves (Self.world self.old) (Self.world self.new) }
        ensures cause { OnErr result (Rose (Self.world self.old).beside.take_faults (Self.world self.new).beside.take_faults) };

    /// Says the first bytes of the slice, one at least, as many as it likes: how many they are.
    ///
    /// At `Err` nothing was said.
    fn say(&mut self, from: &[u8]) -> Result<usize, SayFault>
        requires { 0 < length from.now }
        ensures some { IfOk result (λ n. 1 ≤ n) }
        ensures count { IfOk result (λ n. n ≤ length from.now) }
        ensures said { IsTrue tells_output → IfOk result (λ n. (Self.world self.new).beside.said ≡ (Self.world self.old).beside.said ++ take n from.now) }
        ensures unchanged { OnErr result ((Self.world self.new).beside.said ≡ (Self.world self.old).beside.said) }
        ensures moves { SayMoves (Self.world self.old) (Self.world self.new) }
        ensures cause { OnErr result (Rose (Self.world self.old).beside.say_faults (Self.world self.new).beside.say_faults) };

    /// By now, all that was said had been said.
    ghost said_now: { (outside : Self) → SaidByNow (Self.world outside) };
}
