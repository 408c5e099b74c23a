//! What one run leaves is what the next one begins with.
ghost use Rattle.outside.specs.HandingOn.{CrashIsHandedOn, DiskIsHandedOn};

/// Law: what a crash may leave now of a new outside over the disk of another one, it may leave now of that one; and a disk that any
/// crash makes of it has one image, which might have been left of it. It does nothing.
pub fn outsides_follow()
    ensures disk { DiskIsHandedOn }
    ensures crash { CrashIsHandedOn }
{}
