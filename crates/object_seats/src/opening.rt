// Opening a domain of objects, with its seats.
ghost use Rattle.std.specs.Prelude.{◌≡◌, map, All, IfOk, IfErr, replicate};
ghost use Rattle.mv_layout.specs.Limits.{Checked};
ghost use Rattle.shared_domain.specs.Met.{domain_of};
ghost use Rattle.mvrlu.specs.Meant.{IsSeatOf};
ghost use Rattle.mvrlu.specs.Opened.{IsOpened, Refuses};
ghost use Rattle.object_seats.specs.declared.position.Position.TheVariants.{Outside};
ghost use Rattle.object_seats.specs.Opening.{AreOpened, Shares, no_words, position_of};

use crate::position::Position;
use crate::seat::ObjectSeat;
use mv_history::AnyRules;
use mv_layout::Config;
use mvrlu::{Domain, OpenFault, Seat, open_zeros};
use shared_domain::Share;
use std::alloc::{AllocError, Global};

/// Opens a domain of these numbers, all words 0, with its seats outside, in order of number.
///
/// It answers the first number that is out of its range, or want of memory; then nothing is left behind.
pub fn open_seats(alloc: Global, config: Config) -> Result<Vec<ObjectSeat>, OpenFault>
    ensures opened { IfOk result (λ seats. AreOpened config seats.items) }
    ensures refused { IfErr result (λ fault. Refuses config fault) }
{
    if let Err(fault) = config.check() {
        return Err(OpenFault::Config(fault));
    }
    match open_checked(alloc, config) {
        Ok(seats) => Ok(seats),
        Err(AllocError) => Err(OpenFault::Memory),
    }
}

fn open_checked(alloc: Global, config: Config) -> Result<Vec<ObjectSeat>, AllocError>
    ensures { IfOk result (λ seats. AreOpened config seats.items) }
{
    let (whole, seats) = open_objects(alloc, config)?;
    match Share::new(alloc, whole, seats.len()) {
        Ok(first) => share_all(alloc, &first, seats),
        Err(AllocError) => {
            let_all_go(seats);
            Err(AllocError)
        }
    }
}

// Opens a domain of these numbers, all words 0.
fn open_objects(
    alloc: Global,
    config: Config,
) -> Result<(Domain<AnyRules>, Vec<Seat<AnyRules>>), AllocError>
    ensures { IfOk result (λ r. IsOpened config (replicate config.objects no_words) r.0 r.1.items) }
{
    match open_zeros(alloc, config) {
        Ok(opened) => Ok(opened),
        Err(_) => Err(AllocError),
    }
}

// Gives each of these seats of the domain a share of it, in their order.
fn share_all(
    alloc: Global,
    first: &Share<AnyRules>,
    mut seats: Vec<Seat<AnyRules>>,
) -> Result<Vec<ObjectSeat>, AllocError>
    requires of { All (λ seat. IsSeatOf (domain_of first.now) seat) seats.items }
    ensures outside { IfOk result (λ shared. map position_of shared.items ≡ map Outside seats.items) }
    ensures shared { IfOk result (λ shared. All (Shares (domain_of first.now)) shared.items) }
{
    let Ok(mut shared) = Vec::with_capacity(alloc, seats.len()) else {
        let_all_go(seats);
        return Err(AllocError);
    };
    while !seats.is_empty() {
        match share(first, seats.remove(0)) {
            Ok(seat) => shared.push_reserved(seat),
            Err(AllocError) => {
                let_all_go(seats);
                return Err(AllocError);
            }
        }
    }
    seats.destroy_empty();
    Ok(shared)
}

// Gives a seat of the domain a share of it.
fn share(first: &Share<AnyRules>, seat: Seat<AnyRules>) -> Result<ObjectSeat, AllocError>
    requires of { IsSeatOf (domain_of first.now) seat }
    ensures { IfOk result (λ shared. (shared.position ≡ Outside seat) × Shares (domain_of first.now) shared) }
{
    match first.try_clone() {
        Ok(share) => {
            let position = Position::Outside(seat);
            Ok(ObjectSeat { share, position })
        }
        Err(AllocError) => {
            seat.let_go();
            Err(AllocError)
        }
    }
}

// Ends these seats alone.
fn let_all_go(mut seats: Vec<Seat<AnyRules>>) {
    while let Some(seat) = seats.pop() {
        seat.let_go();
    }
    seats.destroy_empty();
}
