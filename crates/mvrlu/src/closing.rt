// A domain whose seats have met.
ghost use Rattle.std.specs.Prelude.{◌≡◌, ◌+◌, ◌<◌, length};
ghost use Rattle.mv_history.specs.Meaning.{words_at};
ghost use Rattle.mvrlu.specs.Whole.{IsSound, IsStill, last_state};
ghost use Rattle.mvrlu.specs.WholeLaws.{IsSound-prop};

use mv_history::{LogTable, Protocol, View, Words};
use object_lock::mv_core::{Pass, Shared, Steps};
use object_lock::version_chain::{find, read_master, read_version};
use std::marker::{Brand, Model};
use std::sync::ledger::{Blank, Ledger};

/// The shared words of a domain, the one pass that is left of it, in a section that reads the whole
/// history, and the tables of the seats that met. Clauses see them as `Whole`.
#[derive(Drop)]
pub(crate) struct Last<P: Protocol> {
    pub(crate) pass: Pass<P>,
    pub(crate) shared: Shared<P>,
    pub(crate) tables: Vec<LogTable>,
}

impl<P: Protocol> Model for Last<P> {
    ghost use Rattle.object_lock.specs.mv_core.Passes.{view as knows, config_of};
    ghost use Rattle.mvrlu.specs.Whole.{Whole, whole_from, IsReading};

    ghost Value = { Whole };

    ghost view = { λ l. whole_from (config_of l.shared) l.tables.items (knows l.pass) };

    ghost invariant = { λ l. IsReading l.shared l.pass };
}

// The words of an object after the whole history.
fn read_last<P: Protocol, L: Ledger>(last: &mut Last<P>, object: u32, blank: Blank) -> Words
    requires name { blank.name ≡ L.name }
    requires parts { (blank.parts ≡ L.parts) × (0 < L.parts) }
    requires range { object < length last.old.start }
    ensures words { result ≡ words_at (last_state last.old) object }
    ensures still { IsStill last.old last.new }
{
    let mut steps = Steps::<L>::open(blank);
    match find(&last.shared, &mut last.pass, object, &mut steps) {
        None => read_master(&last.shared, &mut last.pass, object, &mut steps),
        Some(at) => read_version(&last.shared, &mut last.pass, at, &mut steps),
    }
}

impl<P: Protocol> Last<P> {
    // The number of objects.
    fn objects(&self) -> u32
        ensures { result ≡ length (last_state self.now) }
    {
        self.shared.config().objects
    }

    // The printed time of the last entry.
    fn time(&self) -> u64
        ensures { result ≡ self.now.base + length self.now.history }
    {
        self.pass.time()
    }

    // The tables of the seats that met.
    fn tables(&self) -> &[LogTable]
        ensures { result.now ≡ self.now.tables }
    {
        self.tables.as_slice()
    }
}

/// A domain whose seats have met: its one history is whole, and nobody makes an entry any more. It
/// reads the state after that history. It may be let go, and then frees all that the domain took.
pub struct Closing<P: Protocol> {
    pub(crate) last: Last<P>,
    pub ghost sound: { IsSound last } by { IsSound-prop last },
}

impl<P: Protocol> Drop for Closing<P> {
    fn drop(self) {
        let Closing { last: _ } = self;
    }
}

impl<P: Protocol> View for Closing<P> {
    ghost use Rattle.mvrlu.specs.Whole.{last_state, IsStill};
    ghost use Rattle.mvrlu.specs.WholeLaws.{still_itself, still_long, still_state, words_at_last};

    ghost state = { λ c. last_state c.last };

    ghost as_before = { λ c d. IsStill c.last d.last };

    ghost as_itself = { λ c. still_itself c.last };

    ghost as_long_before = { λ c d e p q. still_long c.last d.last e.last p q };

    ghost same_state = { λ c d p. still_state c.last d.last p };

    ghost are_words = { λ c. words_at_last c.last c.sound };

    fn objects(&self) -> u32 {
        self.last.objects()
    }

    fn read(&mut self, object: u32) -> Words {
        read_last::<P, Brand>(&mut self.last, object, Blank::new(1))
    }
}

impl<P: Protocol> Closing<P> {
    ghost use Rattle.mvrlu.specs.Meant.{whole_of};

    /// The printed time of the last entry of the domain: its opening time, and one for each entry.
    pub fn time(&self) -> u64
        ensures { result ≡ (whole_of self.now).base + length (whole_of self.now).history }
    {
        self.last.time()
    }

    /// The table of each seat's log, as it was when the seats met, in the order in which they were given to `Domain::meet`,
    /// which took it: each is the one that `Handle::table` told of that seat last. A read changes none of them.
    pub fn tables(&self) -> &[LogTable]
        ensures { result.now ≡ (whole_of self.now).tables }
    {
        self.last.tables()
    }
}
