// What a count tells.

/// What came of a count.
#[derive(Clone, Copy, Drop)]
pub enum Told {
    /// It was counted.
    Counted,
    /// No time was left.
    Late,
}
