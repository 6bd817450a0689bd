//! How the tests compare. A comparison in a function of its own costs its caller a call, and no more: written out as
//! `assert_eq!` it takes the prover a second or two at each place. A library may end no process, so each crate of tests has its own.

ghost use Rattle.std.specs.Prelude.{◌≡◌, true, Ok};

use std::fmt::Debug;
use std::process::Abort;

/// Stops the test with both values unless they are equal.
pub(crate) fn same<T: PartialEq + Debug + Drop>(rt: &impl Abort, is: T, want: T) {
    assert_eq!(rt; is, want);
}

/// Stops the test with both values unless they are equal, and says at which row of a table it was.
pub(crate) fn same_at<R: Debug, T: PartialEq + Debug + Drop>(
    rt: &impl Abort,
    row: &R,
    is: T,
    want: T,
) {
    assert_eq!(rt; is, want, "{row:?}");
}

/// Stops the test unless this is so.
pub(crate) fn holds(rt: &impl Abort, is: bool)
    ensures { is ≡ true }
{
    assert!(rt; is);
}

/// Stops the test unless this is so, and says at which row of a table it was.
pub(crate) fn holds_at<R: Debug>(rt: &impl Abort, row: &R, is: bool)
    ensures { is ≡ true }
{
    assert!(rt; is, "{row:?}");
}

/// What a call gave. It stops the test where the call refused: an early end of the test would cost the prover far more, since the test
/// holds what it has made so far.
pub(crate) fn given<T, E: Drop>(rt: &impl Abort, answer: Result<T, E>) -> T
    ensures { answer ≡ Ok result }
{
    answer.ok().expect(rt, "an answer")
}
