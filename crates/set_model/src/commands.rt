// The commands of a script, and their replies.
ghost use Rattle.std.specs.Prelude.{◌≡◌, ◌≤◌, ◌<◌, MatchOption};

use std::marker::Model;

/// The name of a set, as its index: `l0` to `l9` are 0 to 9, `h0` to `h9` 10 to 19, `t0` to `t9` 20 to 29.
#[derive(Clone, Copy, Debug, Drop, PartialEq, Eq)]
pub struct Name {
    index: u32,
}

impl Model for Name {
    ghost use Rattle.std.specs.Prelude.{ℕ, ◌<◌};

    ghost Value = { ℕ };

    ghost view = { λ n. n.index };

    ghost inverse = { λ i. record { index = i } };

    ghost invariant = { λ n. n.index < 30 };
}

impl Name {
    /// The name of this index. None exactly from 30 on.
    pub fn new(index: u32) -> Option<Name>
        ensures { MatchOption result (30 ≤ index) (λ name. (name ≡ index) × (index < 30)) }
    {
        if index < 30 {
            Some(Name { index })
        } else {
            None
        }
    }

    /// Its index, below 30.
    pub fn index(&self) -> u32
        ensures is { result ≡ self.now }
        ensures few { result < 30 }
    {
        self.index
    }
}

/// A command of a script.
#[derive(Clone, Copy, Debug, Drop, PartialEq, Eq)]
pub enum Command {
    /// Puts the key into the set, with value 0.
    Add {
        name: Name,
        key: u32,
    },
    /// Gives the key this value in the set, whether or not it is there already.
    Put {
        name: Name,
        key: u32,
        value: u64,
    },
    /// Takes the key out of the set.
    Del {
        name: Name,
        key: u32,
    },
    /// Asks whether the set has the key.
    Has {
        name: Name,
        key: u32,
    },
    /// Asks for the value of the key in the set.
    Get {
        name: Name,
        key: u32,
    },
    /// Takes the key out of the source and puts it into the target, with its value.
    Move {
        source: Name,
        target: Name,
        key: u32,
    },
    /// Asks of each of the two sets whether it has the key.
    Pair {
        first: Name,
        second: Name,
        key: u32,
    },
    /// Asks how many keys the set has.
    Size {
        name: Name,
    },
    /// Asks for the least key of the set that is not below this one.
    Next {
        name: Name,
        key: u32,
    },
}

/// The reply of a command.
#[derive(Clone, Copy, Debug, Drop, PartialEq, Eq)]
pub enum Reply {
    Yes,
    No,
    /// There is no room for what the command adds.
    Full,
    /// No time is left for a commit.
    Worn,
    /// Whether the first and the second set of a `Pair` have the key.
    Both { first: bool, second: bool },
    /// The number of keys of a `Size`.
    Count { count: u64 },
    /// The key of a `Next`.
    Key { key: u32 },
    /// There is no key for a `Next`, or the key of a `Get` is not there.
    NoKey,
    /// The value of a `Get`.
    Value { value: u64 },
}
