//! Laws of crashes of a disk in memory.
ghost use Rattle.disk_mem.specs.Laws.{CrashIsLeft, EachIsOfAChoice, PastTheLastAreNotRead};

/// The laws of crashes: what [`MemDisk::crash`](crate::MemDisk::crash) makes is one of what a crash may leave now, each
/// one of these is made by some choices, and choices past the last write change nothing. It does nothing.
pub fn crash_laws()
    ensures is_left { CrashIsLeft }
    ensures each_is_of_a_choice { EachIsOfAChoice }
    ensures past_the_last { PastTheLastAreNotRead }
{}
