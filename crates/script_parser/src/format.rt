// The format of a script.
ghost use Rattle.std.specs.Prelude.{◌≡◌, ◌==◌, MatchOption};
ghost use Rattle.script_parser.specs.Formats.{IsFormat};

use std::marker::Model;

/// The format of a script: 1, or 2, which has `put` and `get` besides.
#[derive(Clone, Copy, Debug, Drop, PartialEq, Eq)]
pub struct Format {
    number: u32,
}

impl Model for Format {
    ghost use Rattle.std.specs.Prelude.{ℕ};
    ghost use Rattle.script_parser.specs.Formats.{IsFormat};

    ghost Value = { ℕ };

    ghost view = { λ f. f.number };

    ghost inverse = { λ n. record { number = n } };

    ghost invariant = { λ f. IsFormat f.number };
}

impl Format {
    /// The format of this number. None exactly where it is neither 1 nor 2.
    pub fn new(number: u32) -> Option<Format>
        ensures { MatchOption result (IsFormat number → ⊥) (λ format. (format ≡ number) × IsFormat number) }
    {
        if number == 1 || number == 2 {
            Some(Format { number })
        } else {
            None
        }
    }

    /// Format 1, that of a script which names none.
    pub(crate) fn plain() -> Format
        ensures { result ≡ 1 }
    {
        Format { number: 1 }
    }

    /// Format 2.
    pub(crate) fn valued() -> Format
        ensures { result ≡ 2 }
    {
        Format { number: 2 }
    }

    /// Whether `put` and `get` are commands.
    pub(crate) fn has_values(&self) -> bool
        ensures { result ≡ (self.now == 2) }
    {
        self.number == 2
    }
}
