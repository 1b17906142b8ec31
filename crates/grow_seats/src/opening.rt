// Opening a domain of a growing set, with its seats.
ghost use Rattle.std.specs.Prelude.{◌≡◌, ◌+◌, ◌<◌, ◌≤◌, map, All, IfOk, IfErr, replicate};
ghost use Rattle.mvrlu.specs.Opened.{IsOpened};
ghost use Rattle.shared_domain.specs.Met.{domain_of};
ghost use Rattle.set_model.specs.Objects.{no_words, most_objects};
ghost use Rattle.grow_seats.specs.Opening.{AreOpened, HasObjects, MayShare, Refuses, Shares, config_of};

use crate::seat::GrowSeat;
use grow_hash::GrowRules;
use mv_layout::{Config, ConfigFault};
use mvrlu::{Domain, Seat, open_zeros};
use set_model::MOST_OBJECTS;
use shared_domain::Share;
use std::alloc::{AllocError, Global};

/// The levels of the set: it grows up to 2^20 buckets.
pub const TABLE_LEVELS: u32 = 20;

/// The numbers of a domain of a growing set that a caller chooses.
#[derive(Clone, Copy)]
pub struct OpenGrown {
    /// How many seats, 1 to 64.
    pub seats: u32,
    /// How many objects, 1,048,578 to 16,777,216 (`set_model::MOST_OBJECTS`): the table, the heads of 1,048,576 buckets, and
    /// a node for each key.
    pub objects: u32,
    /// How many slots the log of each seat has, 65 to 4,096.
    pub slots: u32,
    /// The printed time of the opening state, 0 to `2^45 - 1`.
    pub opening_time: u64,
}

/// Why a domain of a growing set can't be opened. Nothing is left of it.
#[derive(Clone, Copy)]
pub enum GrownFault {
    /// There are fewer than 1,048,578 objects, or more than 16,777,216.
    Objects,
    /// Another number is out of its range: the first fault that `Config::check` finds.
    Config(ConfigFault),
    /// There is no memory for it.
    Memory,
}

const FEWEST_OBJECTS: u32 = 1_048_578;

// As many objects as the split of a bucket locks at most.
const WRITE_MAX: u32 = 64;

/// Opens a domain of a growing set, empty and of 16 buckets, with its seats, in order of number.
///
/// It answers the first number that is out of its range, or want of memory; then nothing is left behind.
pub fn open_grow_seats(alloc: Global, grown: OpenGrown) -> Result<Vec<GrowSeat>, GrownFault>
    ensures opened { IfOk result (λ seats. AreOpened grown seats.items) }
    ensures refused { IfErr result (λ fault. Refuses grown fault) }
{
    if grown.objects < FEWEST_OBJECTS || grown.objects > MOST_OBJECTS {
        return Err(GrownFault::Objects);
    }
    let config = numbers(grown);
    if let Err(fault) = config.check() {
        return Err(GrownFault::Config(fault));
    }
    match open_checked(alloc, grown, config) {
        Ok(seats) => Ok(seats),
        Err(AllocError) => Err(GrownFault::Memory),
    }
}

// The numbers of the domain.
fn numbers(grown: OpenGrown) -> Config
    ensures { result ≡ config_of grown }
{
    let high = grown.slots.saturating_sub(WRITE_MAX);
    Config {
        seats: grown.seats,
        objects: grown.objects,
        slots: grown.slots,
        write_max: WRITE_MAX,
        low: (high / 2).max(1),
        high,
        base: grown.opening_time,
    }
}

fn open_checked(
    alloc: Global,
    grown: OpenGrown,
    config: Config,
) -> Result<Vec<GrowSeat>, AllocError>
    requires objects { HasObjects grown }
    requires numbers { config ≡ config_of grown }
    ensures { IfOk result (λ seats. AreOpened grown seats.items) }
{
    let (whole, seats) = open_grown(alloc, config)?;
    match Share::new(alloc, whole, seats.len()) {
        Ok(first) => share_all(alloc, &first, seats),
        Err(AllocError) => {
            let_all_go(seats);
            Err(AllocError)
        }
    }
}

// A domain of the set, with its seats.
type Opened = (
    Domain<GrowRules<TABLE_LEVELS>>,
    Vec<Seat<GrowRules<TABLE_LEVELS>>>,
);

// Opens a domain of these numbers, all words 0.
fn open_grown(alloc: Global, config: Config) -> Result<Opened, AllocError>
    requires some { 1048577 < config.objects }
    requires few { config.objects ≤ most_objects }
    ensures { IfOk result (λ r. IsOpened config (replicate config.objects no_words) r.0 r.1.items) }
{
    match open_zeros(alloc, config) {
        Ok(opened) => Ok(opened),
        Err(_) => Err(AllocError),
    }
}

// Gives each of these seats of the domain a share of it, in their order.
fn share_all(
    alloc: Global,
    first: &Share<GrowRules<TABLE_LEVELS>>,
    mut seats: Vec<Seat<GrowRules<TABLE_LEVELS>>>,
) -> Result<Vec<GrowSeat>, AllocError>
    requires may { All (MayShare (domain_of first.now)) seats.items }
    ensures seats { IfOk result (λ shared. map (λ s. s.seat) shared.items ≡ seats.items) }
    ensures shared { IfOk result (λ shared. All (Shares (domain_of first.now)) shared.items) }
{
    let Ok(mut shared) = Vec::with_capacity(alloc, seats.len()) else {
        let_all_go(seats);
        return Err(AllocError);
    };
    while !seats.is_empty() {
        match share(first, seats.remove(0)) {
            Ok(seat) => shared.push_reserved(seat),
            Err(AllocError) => {
                let_all_go(seats);
                return Err(AllocError);
            }
        }
    }
    seats.destroy_empty();
    Ok(shared)
}

// Gives a seat of the domain a share of it.
fn share(
    first: &Share<GrowRules<TABLE_LEVELS>>,
    seat: Seat<GrowRules<TABLE_LEVELS>>,
) -> Result<GrowSeat, AllocError>
    requires may { MayShare (domain_of first.now) seat }
    ensures seat { IfOk result (λ shared. shared.seat ≡ seat) }
    ensures shared { IfOk result (Shares (domain_of first.now)) }
{
    match first.try_clone() {
        Ok(share) => Ok(GrowSeat { share, seat }),
        Err(AllocError) => {
            seat.let_go();
            Err(AllocError)
        }
    }
}

// Ends these seats alone.
fn let_all_go(mut seats: Vec<Seat<GrowRules<TABLE_LEVELS>>>) {
    while let Some(seat) = seats.pop() {
        seat.let_go();
    }
    seats.destroy_empty();
}
