// What was found, beside what is wanted. A comparison is costly to prove, so all tests share these.
ghost use Rattle.std.specs.Prelude.{◌≡◌, true};

use std::fmt::Debug;
use std::process::Abort;

// Ends the test where the two differ.
pub(crate) fn assert_same<T: Debug + PartialEq>(
    rt: &impl Abort,
    found: &T,
    wanted: &T,
    name: &str,
) {
    assert_eq!(rt; *found, *wanted, "{name}");
}

// Ends the test where this is false.
pub(crate) fn must(rt: &impl Abort, whether: bool, name: &str)
    ensures { whether ≡ true }
{
    assert!(rt; whether, "{name}");
}
