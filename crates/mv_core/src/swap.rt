//! What an exchange tells.
ghost use Rattle.std.specs.Prelude.{◌≡◌};
ghost use Rattle.mv_core.specs.Swaps.{found_by, IsSwap};

/// What an exchange of a word for another tells. It is won exactly where the word was the expected
/// one, and else has changed nothing.
#[derive(Debug, Copy, Clone, PartialEq, Eq)]
pub enum Swap {
    Won,
    /// What was there, which isn't the expected word.
    Found(u64),
}

// What an exchange tells that expected `old` and found `found`.
pub(crate) fn swap_of(found: u64, old: u64) -> Swap
    ensures found { found_by old result ≡ found }
    ensures swap { IsSwap old result }
{
    if found == old {
        Swap::Won
    } else {
        Swap::Found(found)
    }
}
