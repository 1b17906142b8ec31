// What the calls of the sets answer.
use section_work::Refusal;

/// What a call that adds or changes a key answers.
#[derive(Clone, Copy, Debug, PartialEq, Eq)]
pub enum SetStep {
    /// The change stands in the section, to be committed.
    Yes,
    /// There is nothing to change.
    No,
    /// A lock was refused, and nothing is written.
    Again(Refusal),
}

/// What a call that takes out a key answers.
#[derive(Clone, Copy, Debug, PartialEq, Eq)]
pub enum Removed {
    /// The key is gone in the section, to be committed, and these objects are vacant. `inner` is 0
    /// where only one is.
    Took { node: u32, inner: u32 },
    /// The key was not there.
    Absent,
    /// A lock was refused, and nothing is written.
    Again(Refusal),
}
