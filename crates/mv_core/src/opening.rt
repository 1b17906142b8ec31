//! How a domain is opened, and its seats are made.
ghost use Rattle.std.specs.Prelude.{◌≡◌, ◌+◌, ◌<◌, [], length, IfOk, vec_len};
ghost use Rattle.mv_history.specs.Legal.{AreWords};
ghost use Rattle.mv_layout.specs.Limits.{Checked};
ghost use Rattle.mv_layout.specs.Cells.{Shows};
ghost use Rattle.mv_core.specs.SeatSteps.{made_one, newly_made};
ghost use Rattle.mv_core.specs.Start.{opening_memory, zero_state, Laid, ShowsOpening, maker_view};
ghost use Rattle.mv_core.specs.Known.{IsTimed};
ghost use Rattle.mv_core.specs.Passes.{view, IsOf, IsSeatOf, config_of, start_of, AreNew, HomesAreApart};
ghost use Rattle.mv_core.specs.Views.{new_view};

use crate::shared::{Pass, Shared, split_as};
use crate::view::Knowledge;
use atomic_table::Split;
use mv_history::{Protocol, WORDS, Words};
use mv_layout::{
    CLOCK_CELL, Config, GRACE_CELL, NO_SLOT, WIDTH, clock_word, master_cell, total_cells,
};
use std::alloc::{AllocError, Global};
use std::marker::{Brand, PhantomData};
use std::snapshot::Snapshot;

/// The numbers of the domain in which a seat is made.
pub(crate) trait DomainNumbers {
    ghost use Rattle.mv_layout.specs.declared.Config.{Config};

    ghost config: { Config };
}

impl DomainNumbers for Brand {
    ghost config = { record { seats = 0; objects = 0; slots = 0; write_max = 0; low = 0; high = 0; base = 0 } };
}

/// How a view is cut in two where a seat is made.
pub(crate) struct Making<D> {
    domain: PhantomData<D>,
}

impl<D: DomainNumbers> Split<Knowledge> for Making<D> {
    ghost use Rattle.mv_core.specs.SeatSteps.{made_one, newly_made};

    ghost left = { made_one D.config };

    ghost right = { newly_made D.config };
}

/// What the type of a slice of words says, as a fact.
fn have_width(words: &[Words])
    ensures { AreWords words.now }
{}

/// Lays the words of an object's master.
fn lay_object(config: &Config, words: &mut [u64], start: &[Words], object: u32)
    requires checked { Checked config.now }
    requires range { object < config.now.objects }
    requires there { object < length start.now }
    requires laid { Laid config.now start.now words.old object 0 }
    ensures { Laid config.now start.now words.new (object + 1) 0 }
{
    for word in 0..WIDTH {
        words[master_cell(config, object, word) as usize] = start[object as usize][word as usize];
    }
}

/// The words of a domain before any step, where all words of its objects are 0.
fn zero_words(alloc: Global, config: &Config) -> Result<Vec<u64>, AllocError>
    requires checked { Checked config.now }
    ensures { IfOk result (λ words. Shows config.now words.items (opening_memory config.now (zero_state config.now.objects))) }
{
    let mut words = Vec::from_elem(alloc, 0u64, total_cells(config) as usize)?;
    words[CLOCK_CELL as usize] = clock_word(config.base, 0, NO_SLOT);
    words[GRACE_CELL as usize] = config.base;
    Ok(words)
}

/// The words of a domain before any step.
fn opening_words(alloc: Global, config: &Config, start: &[Words]) -> Result<Vec<u64>, AllocError>
    requires checked { Checked config.now }
    requires sized { length start.now ≡ config.now.objects }
    ensures { IfOk result (λ words. Shows config.now words.items (opening_memory config.now start.now)) }
{
    let mut words = zero_words(alloc, config)?;
    for object in 0..config.objects {
        lay_object(config, words.as_mut_slice(), start, object);
    }
    Ok(words)
}

/// An opening state as clauses see it. Its memory is let go at once.
fn seen(state: Vec<Words>) -> Snapshot<Vec<Words>>
    ensures items { result.value.items ≡ state.items }
    ensures wide { AreWords result.value.items }
{
    have_width(state.as_slice());
    Snapshot::of(&state)
}

/// So many objects of zeros. The number is a variable here, since a proof would compute a list of a literal length.
fn zeros(alloc: Global, count: usize) -> Result<Vec<Words>, AllocError>
    ensures { IfOk result (λ state. state.items ≡ zero_state count) }
{
    vec![in alloc; [0; WORDS]; count]
}

impl<P: Protocol> Shared<P> {
    /// The numbers of the domain.
    pub fn config(&self) -> &Config
        ensures { result.now ≡ config_of self.now }
    {
        &self.config
    }

    /// Makes the seat of this number, of which the first one has made all before.
    fn make_seat(&self, first: &mut Pass<P>, number: u32) -> Pass<P>
        requires of { IsOf self.now first.old }
        requires maker { view first.old ≡ maker_view (config_of self.now) (start_of self.now) number }
        requires range { (0 < number) × (number < (config_of self.now).seats) }
        ensures of { IsOf self.now first.new × IsOf self.now result }
        ensures maker { view first.new ≡ maker_view (config_of self.now) (start_of self.now) (number + 1) }
        ensures made { view result ≡ new_view (config_of self.now) (start_of self.now) number 0 }
    {
        let seat = split_as::<P, Brand>(self, &mut first.seat);
        Pass {
            number,
            time: 0,
            first: 0,
            seat,
            domain: self.config,
            rules: PhantomData,
        }
    }

    /// Makes all seats but the first, and puts that one before them.
    fn make_all(&self, alloc: Global, mut first: Pass<P>) -> Result<Vec<Pass<P>>, AllocError>
        requires of { IsOf self.now first }
        requires first { view first ≡ maker_view (config_of self.now) (start_of self.now) 1 }
        ensures count { IfOk result (λ passes. vec_len passes ≡ (config_of self.now).seats) }
        ensures each { IfOk result (λ passes. AreNew self.now passes.items) }
    {
        let mut others = Vec::new(alloc);
        for number in 1..self.config.seats {
            others.push(self.make_seat(&mut first, number))?;
        }
        others.insert(0, first)?;
        Ok(others)
    }

    /// A domain whose words show this opening state, and one pass for each seat.
    fn made(
        alloc: Global,
        config: &Config,
        words: Vec<u64>,
        start: Snapshot<Vec<Words>>,
    ) -> Result<(Shared<P>, Vec<Pass<P>>), AllocError>
        requires checked { Checked config.now }
        requires sized { length start.value.items ≡ config.now.objects }
        requires lawful { P.start start.value.items }
        requires shows { ShowsOpening config.now start.value.items words.items }
        ensures about { IfOk result (λ r. (config_of r.0 ≡ config.now) × (start_of r.0 ≡ start.value.items)) }
        ensures count { IfOk result (λ r. vec_len r.1 ≡ config.now.seats) }
        ensures each { IfOk result (λ r. AreNew r.0 r.1.items) }
    {
        let (shared, first) = Shared::open(alloc, config, words, start)?;
        let passes = shared.make_all(alloc, first)?;
        Ok((shared, passes))
    }

    /// Opens a domain of these numbers with this opening state, of which each object has its words,
    /// and gives one pass for each seat, in order of number. No seat has made or seen an entry, and
    /// all are outside a section. It refuses only for want of memory, and then keeps nothing.
    pub fn new(
        alloc: Global,
        config: &Config,
        start: &[Words],
    ) -> Result<(Shared<P>, Vec<Pass<P>>), AllocError>
        requires checked { Checked config.now }
        requires sized { length start.now ≡ config.now.objects }
        requires lawful { P.start start.now }
        ensures about { IfOk result (λ r. (config_of r.0 ≡ config.now) × (start_of r.0 ≡ start.now)) }
        ensures count { IfOk result (λ r. vec_len r.1 ≡ config.now.seats) }
        ensures each { IfOk result (λ r. AreNew r.0 r.1.items) }
    {
        let state = seen(Vec::from_slice(alloc, start)?);
        let words = opening_words(alloc, config, start)?;
        Shared::made(alloc, config, words, state)
    }

    /// The same, where all words of all objects are 0. It takes no list of them.
    pub fn new_zeros(
        alloc: Global,
        config: &Config,
    ) -> Result<(Shared<P>, Vec<Pass<P>>), AllocError>
        requires checked { Checked config.now }
        requires lawful { P.start (zero_state config.now.objects) }
        ensures about { IfOk result (λ r. (config_of r.0 ≡ config.now) × (start_of r.0 ≡ zero_state config.now.objects)) }
        ensures count { IfOk result (λ r. vec_len r.1 ≡ config.now.seats) }
        ensures each { IfOk result (λ r. AreNew r.0 r.1.items) }
    {
        let state = seen(zeros(alloc, config.objects as usize)?);
        let words = zero_words(alloc, config)?;
        Shared::made(alloc, config, words, state)
    }
}

impl<P: Protocol> Pass<P> {
    /// The number of the seat, below `seats`.
    pub fn seat(&self) -> u32
        ensures { result ≡ (view self.now).number }
    {
        self.number
    }

    /// The printed time of the section, where the seat is in one.
    pub fn time(&self) -> u64
        ensures { IsTimed result (view self.now) }
    {
        self.time
    }
}

/// A name that a seat gives its domain tells the domain's numbers and its table: seats of equal names
/// are of domains with the same numbers, over the same table.
pub fn homes_are_apart()
    ensures { HomesAreApart }
{}
