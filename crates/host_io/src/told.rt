// What clauses see of the calls of files. It takes no memory.
ghost use Rattle.std.specs.Prelude.{◌≡◌, ◌++◌, ◌∷◌, []};
ghost use Rattle.host_io.specs.Told.{letters_of, failures_of, name_in, failures_in};

use std::mem::replace;
use std::snapshot::Snapshot;

/// The bytes of a name: none, or those before and one more. No value of it is kept.
#[derive(Drop)]
pub(crate) enum Letters {
    None,
    Then {
        before: Snapshot<Letters>,
        letter: u8,
    },
}

/// The names of texts of which a call failed: none, or those before and one more. No value of it is kept: the
/// snapshots need no memory, which may be what was wanting when a call failed.
#[derive(Drop)]
pub(crate) enum Failures {
    None,
    Then {
        before: Snapshot<Failures>,
        name: Snapshot<Snapshot<Letters>>,
    },
}

/// The name by which a text was opened last, and the names of the texts of which a call failed.
#[derive(Drop)]
pub struct CallRecord {
    name: Snapshot<Letters>,
    failures: Snapshot<Failures>,
}

impl CallRecord {
    /// No text was opened, and no call failed.
    pub fn new() -> CallRecord
        ensures { failures_in result ≡ [] }
    {
        CallRecord {
            name: Snapshot::of(&Letters::None),
            failures: Snapshot::of(&Failures::None),
        }
    }

    /// A text is opened by this name.
    pub fn opens(&mut self, name: &str)
        ensures name { name_in self.new ≡ name.now }
        ensures failures { failures_in self.new ≡ failures_in self.old }
    {
        self.name = bytes_seen(name);
    }

    /// Opening this name fails. The name of the open text stays.
    pub fn open_fails(&mut self, name: &str)
        ensures name { name_in self.new ≡ name_in self.old }
        ensures failures { failures_in self.new ≡ failures_in self.old ++ name.now ∷ [] }
    {
        let before = replace(&mut self.failures, Snapshot::of(&Failures::None));
        self.failures = with_one(before, &bytes_seen(name));
    }

    /// Reading the open text fails.
    pub fn read_fails(&mut self)
        ensures name { name_in self.new ≡ name_in self.old }
        ensures failures { failures_in self.new ≡ failures_in self.old ++ name_in self.old ∷ [] }
    {
        let before = replace(&mut self.failures, Snapshot::of(&Failures::None));
        self.failures = with_one(before, &self.name);
    }
}

// These failures, and one more.
fn with_one(before: Snapshot<Failures>, name: &Snapshot<Letters>) -> Snapshot<Failures>
    ensures { failures_of result.value ≡ failures_of before.value ++ letters_of name.now.value ∷ [] }
{
    Snapshot::of(&Failures::Then {
        before,
        name: Snapshot::of(name),
    })
}

// The bytes of a name.
fn bytes_seen(name: &str) -> Snapshot<Letters>
    ensures { letters_of result.value ≡ name.now }
{
    let mut letters = Snapshot::of(&Letters::None);
    for letter in name.as_bytes() {
        letters = Snapshot::of(&Letters::Then {
            before: letters,
            letter: *letter,
        });
    }
    letters
}
