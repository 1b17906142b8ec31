// What was found, beside what is wanted.
use std::fmt::Debug;
use std::process::Abort;

// Ends the test where the two differ. It is costly to prove, so all tests share it.
pub(crate) fn assert_same<T: Debug + PartialEq>(
    rt: &impl Abort,
    found: &T,
    wanted: &T,
    name: &str,
) {
    assert_eq!(rt; *found, *wanted, "{name}");
}
