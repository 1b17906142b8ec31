// Files by name and sinks of bytes, with a count of their faults, and of files the names of the texts of which a call failed.
ghost use Rattle.std.specs.Prelude.{◌≡◌, ◌<◌, List, ℕ, length, Option, Some, OnOk, IsOk, IsSome, IfSome, IsTrue, Bool};
ghost use Rattle.std.specs.Io.{ReadsAtMost};
ghost use Rattle.std.specs.Io.KnownBytes.{ReadConsumes};
ghost use Rattle.host_io.specs.Outside.{Faults, HasCause, HasText, IsTold, Starts, Takes, Texts};

/// A call failed, and the count of faults rose.
#[derive(Clone, Copy, Debug, PartialEq, Eq)]
pub struct Failed;

/// Texts by name, of which one is open at a time.
pub trait Files {
    /// The texts by name, where they are told.
    ghost texts: { Self → Option Texts };

    /// What is left of the open text, where it is told.
    ghost left: { Self → Option (List ℕ) };

    /// The name by which the open text was opened, where one is open.
    ghost opened: { Self → Option (List ℕ) };

    /// How often a call failed, and of which names. The count never falls, and ends at `2^64 - 1`.
    ghost faults: { Self → Faults };

    /// Whether no call fails that asks for a text that is there.
    ghost steady: { Self → Bool };

    /// Opens the text of this name, at its beginning. A name that isn't there is a fault. After a failure nothing is
    /// said of which text is open.
    fn open(&mut self, name: &str) -> Result<(), Failed>
        ensures opened { OnOk result (opened self.new ≡ Some name.now) }
        ensures starts { OnOk result (Starts (texts self.old) name.now (left self.new)) }
        ensures texts { texts self.new ≡ texts self.old }
        ensures steady { steady self.new ≡ steady self.old }
        ensures told { IsTold (faults self.old) (faults self.new) name.now result }
        ensures succeeds { IsTrue (steady self.old) → HasText (texts self.old) name.now → IsOk result };

    /// Puts the next bytes of the open text at the front of `into`, and answers how many. 0 is the end, as for every
    /// later read of this text.
    fn read(&mut self, into: &mut [u8]) -> Result<usize, Failed>
        requires opened { IsSome (opened self.old) }
        requires room { 0 < length into.old }
        ensures bound { ReadsAtMost result into.new }
        ensures bytes { ReadConsumes (left self.old) (left self.new) result into.new }
        ensures opened { opened self.new ≡ opened self.old }
        ensures texts { texts self.new ≡ texts self.old }
        ensures steady { steady self.new ≡ steady self.old }
        ensures told { IfSome (opened self.old) (λ name. IsTold (faults self.old) (faults self.new) name result) }
        ensures succeeds { IsTrue (steady self.old) → IsOk result };

    /// What is steady tells its texts.
    ghost tells: { (files : Self) → IsTrue (steady files) → IsSome (texts files) };
}

/// What takes bytes, one piece after another.
pub trait Sink {
    /// All bytes written so far, where they are told.
    ghost written: { Self → Option (List ℕ) };

    /// How often a call failed. It never falls, and ends at `2^64 - 1`.
    ghost faults: { Self → ℕ };

    /// Takes the first bytes of the piece and answers how many, at least one, or fails and takes none.
    fn write(&mut self, piece: &[u8]) -> Result<usize, Failed>
        requires { 0 < length piece.now }
        ensures takes { Takes (written self.old) (written self.new) result piece.now }
        ensures cause { HasCause (faults self.old) (faults self.new) result };
}
