//! Assertions that cost the check little: a macro's whole body is proved again at each of its uses, a call of these is one
//! step. They say nothing of what holds after them: where a later line needs a condition, assert it there.
use std::fmt::Debug;
use std::process::Abort;

/// Ends the test where the condition is false.
pub(crate) fn check_that(rt: &impl Abort, holds: bool) {
    assert!(rt; holds);
}

/// The same in a loop: it shows at which row.
pub(crate) fn check_that_at<D: Debug>(rt: &impl Abort, row: &D, holds: bool) {
    assert!(rt; holds, "at {row:?}");
}

/// Ends the test where the two differ, and shows both.
pub(crate) fn check_same<T: PartialEq + Debug>(rt: &impl Abort, left: &T, right: &T) {
    assert_eq!(rt; left, right);
}

/// The same in a loop: it shows at which row.
pub(crate) fn check_same_at<T: PartialEq + Debug, D: Debug>(
    rt: &impl Abort,
    row: &D,
    left: &T,
    right: &T,
) {
    assert_eq!(rt; left, right, "at {row:?}");
}
