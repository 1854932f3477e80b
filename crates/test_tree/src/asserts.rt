//! Assertions as functions: the macros put their text and their branches into each test, whose check then takes several times as long.
ghost use Rattle.std.specs.Prelude.{◌≡◌, true};

use std::fmt::Debug;
use std::process::Abort;

/// Stops the test unless `is` holds.
pub(crate) fn assert_true(rt: &impl Abort, is: bool)
    ensures { is ≡ true }
{
    assert!(rt; is);
}

/// Stops the test unless two values are equal. The message has both.
pub(crate) fn assert_same<T: PartialEq + Debug + Drop>(rt: &impl Abort, left: T, right: T) {
    assert_eq!(rt; left, right);
}

/// Stops the test unless two values are equal. The message has both, each beside the case.
pub(crate) fn assert_same_in<N: PartialEq + Debug + Copy + Drop, T: PartialEq + Debug + Drop>(
    rt: &impl Abort,
    case: N,
    left: T,
    right: T,
) {
    assert_same(rt, (case, left), (case, right));
}

/// Returns what is there. Stops the test where nothing is.
pub(crate) fn some<T>(rt: &impl Abort, option: Option<T>) -> T {
    match option {
        Some(value) => value,
        None => panic!(rt; "none"),
    }
}
