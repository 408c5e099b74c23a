//! Laws of waking keys. They are proved and never called.
ghost use Rattle.waking_keys.specs.Laws.{NothingBeforeWaking, NothingWithoutWaking, WakingIsAdmitted};

/// No key of a table from the bound on is below its waking key, and where it has no waking key all its keys are below the
/// bound. Its filter admits each range from the bound to a string that is not below the waking key.
pub fn waking_keys_are_near()
    ensures before { NothingBeforeWaking }
    ensures none { NothingWithoutWaking }
    ensures admitted { WakingIsAdmitted }
{}
