// Opening a domain of the sets, with its seats.
ghost use Rattle.std.specs.Prelude.{◌≡◌, ◌+◌, ◌<◌, ◌≤◌, map, All, IfOk, IfErr, replicate};
ghost use Rattle.mvrlu.specs.Opened.{IsOpened};
ghost use Rattle.shared_domain.specs.Met.{domain_of};
ghost use Rattle.set_model.specs.Objects.{no_words, most_objects};
ghost use Rattle.set_seats.specs.Opening.{AreOpened, HasObjects, MayShare, Refuses, Shares, config_of, seat_in};

use crate::seat::SetSeat;
use crate::single::Remembered;
use mv_layout::{Config, ConfigFault};
use mvrlu::{Domain, Seat, open_zeros};
use set_blocks::BlockRules;
use set_catalog::Hints;
use set_model::MOST_OBJECTS;
use shared_domain::Share;
use std::alloc::{AllocError, Global};

/// The numbers of a domain of the sets that a caller chooses.
#[derive(Clone, Copy)]
pub struct OpenSets {
    /// How many seats, 1 to 64.
    pub seats: u32,
    /// How many objects, 181 to 16,777,216 (`set_model::MOST_OBJECTS`): 180 heads of the sets, and the nodes for their keys.
    pub objects: u32,
    /// How many slots the log of each seat has, 64 to 4,096.
    pub slots: u32,
    /// The printed time of the opening state, 0 to `2^45 - 1`.
    pub opening_time: u64,
}

/// Why a domain of the sets can't be opened. Nothing is left of it.
#[derive(Clone, Copy)]
pub enum SetsFault {
    /// There are fewer than 181 objects, or more than 16,777,216.
    Objects,
    /// Another number is out of its range: the first fault that `Config::check` finds.
    Config(ConfigFault),
    /// There is no memory for it.
    Memory,
}

const FEWEST_OBJECTS: u32 = 181;

// As many objects as a block of 8 commands locks or holds at most.
const WRITE_MAX: u32 = 40;

// How many vacant objects a seat remembers.
const HINTS: u32 = 64;

/// Opens a domain of the thirty sets, all empty, with its seats, in order of number.
///
/// It answers the first number that is out of its range, or want of memory; then nothing is left behind.
pub fn open_set_seats(alloc: Global, sets: OpenSets) -> Result<Vec<SetSeat>, SetsFault>
    ensures opened { IfOk result (λ seats. AreOpened sets seats.items) }
    ensures refused { IfErr result (λ fault. Refuses sets fault) }
{
    if sets.objects < FEWEST_OBJECTS || sets.objects > MOST_OBJECTS {
        return Err(SetsFault::Objects);
    }
    let config = numbers(sets);
    if let Err(fault) = config.check() {
        return Err(SetsFault::Config(fault));
    }
    match open_checked(alloc, sets, config) {
        Ok(seats) => Ok(seats),
        Err(AllocError) => Err(SetsFault::Memory),
    }
}

// The numbers of the domain.
fn numbers(sets: OpenSets) -> Config
    ensures { result ≡ config_of sets }
{
    let high = sets.slots.saturating_sub(WRITE_MAX);
    Config {
        seats: sets.seats,
        objects: sets.objects,
        slots: sets.slots,
        write_max: WRITE_MAX,
        low: (high / 2).max(1),
        high,
        base: sets.opening_time,
    }
}

fn open_checked(alloc: Global, sets: OpenSets, config: Config) -> Result<Vec<SetSeat>, AllocError>
    requires objects { HasObjects sets }
    requires numbers { config ≡ config_of sets }
    ensures { IfOk result (λ seats. AreOpened sets seats.items) }
{
    let (whole, seats) = open_sets(alloc, config)?;
    match Share::new(alloc, whole, seats.len()) {
        Ok(first) => share_all(alloc, &first, seats),
        Err(AllocError) => {
            let_all_go(seats);
            Err(AllocError)
        }
    }
}

// Opens a domain of these numbers, all words 0.
fn open_sets(
    alloc: Global,
    config: Config,
) -> Result<(Domain<BlockRules>, Vec<Seat<BlockRules>>), AllocError>
    requires objects { (180 < config.objects) × (config.objects ≤ most_objects) }
    ensures { IfOk result (λ r. IsOpened config (replicate config.objects no_words) r.0 r.1.items) }
{
    match open_zeros(alloc, config) {
        Ok(opened) => Ok(opened),
        Err(_) => Err(AllocError),
    }
}

// Gives each of these seats of the domain a share of it, in their order.
fn share_all(
    alloc: Global,
    first: &Share<BlockRules>,
    mut seats: Vec<Seat<BlockRules>>,
) -> Result<Vec<SetSeat>, AllocError>
    requires may { All (MayShare (domain_of first.now)) seats.items }
    ensures seats { IfOk result (λ shared. map seat_in shared.items ≡ seats.items) }
    ensures shared { IfOk result (λ shared. All (Shares (domain_of first.now)) shared.items) }
{
    let Ok(mut shared) = Vec::with_capacity(alloc, seats.len()) else {
        let_all_go(seats);
        return Err(AllocError);
    };
    let mut number: u32 = 0;
    while !seats.is_empty() {
        match share(alloc, first, number, seats.remove(0)) {
            Ok(seat) => shared.push_reserved(seat),
            Err(AllocError) => {
                let_all_go(seats);
                return Err(AllocError);
            }
        }
        number = number.saturating_add(1);
    }
    seats.destroy_empty();
    Ok(shared)
}

// Gives a seat of the domain, of this number, a share of it.
fn share(
    alloc: Global,
    first: &Share<BlockRules>,
    number: u32,
    seat: Seat<BlockRules>,
) -> Result<SetSeat, AllocError>
    requires may { MayShare (domain_of first.now) seat }
    ensures seat { IfOk result (λ shared. shared.seat ≡ seat) }
    ensures shared { IfOk result (Shares (domain_of first.now)) }
{
    match share_and_room(alloc, first, number) {
        Ok((share, remembered)) => Ok(SetSeat {
            share,
            seat,
            remembered,
        }),
        Err(AllocError) => {
            seat.let_go();
            Err(AllocError)
        }
    }
}

// One more share of the domain, and room for what the seat of this number remembers.
fn share_and_room(
    alloc: Global,
    first: &Share<BlockRules>,
    number: u32,
) -> Result<(Share<BlockRules>, Box<Remembered>), AllocError>
    ensures share { IfOk result (λ r. domain_of r.0 ≡ domain_of first.now) }
    ensures time { IfOk result (λ r. r.1.value.memo.known.time ≡ 0) }
    ensures few { IfOk result (λ r. r.1.value.memo.known.few ≡ most_objects + 1) }
{
    let hints = Hints::new(alloc, HINTS)?.of_seat(number);
    let remembered = Box::new(alloc, Remembered::of(hints))?;
    let share = first.try_clone()?;
    Ok((share, remembered))
}

// Ends these seats alone.
fn let_all_go(mut seats: Vec<Seat<BlockRules>>) {
    while let Some(seat) = seats.pop() {
        seat.let_go();
    }
    seats.destroy_empty();
}
