// What is found against what is wanted.
use std::fmt::Debug;
use std::process::Abort;

/// Looks that they are the same.
pub fn expect<T: Debug + PartialEq>(rt: &impl Abort, found: &T, want: &T) {
    assert_eq!(rt; found, want);
}
