// Opening handles, of whatever kind: all of them or none.
ghost use Rattle.std.specs.Prelude.{◌≡◌, length, map, true, false, All, IfOk, IfErr};
ghost use Rattle.crossbeam_utils.specs.Padded.{padded_value};
ghost use Rattle.mvrlu_c.specs.Held.{boxed};

use crate::handle::CHandle;
use crate::loose::Loose;
use core::mem::replace_with;
use crossbeam_utils::CachePadded;
use std::alloc::{AllocError, Global};

/// How many seats a domain has at most.
pub(crate) const MOST_SEATS: usize = 64;

// Whether the handle is open. It stays as it is.
fn is_open<H: CHandle>(alloc: Global, handle: &mut H) -> bool
    ensures { (result ≡ H.is_open handle.old) × (handle.new ≡ handle.old) }
{
    replace_with(
        handle,
        (),
        |handle: H, _none: ()|
            ensures { (result.1 ≡ H.is_open handle) × (result.0 ≡ handle) }
        {
            let (full, block) = handle.take_apart(alloc);
            (H::of(full, block), full)
        },
    )
}

/// Whether one of the handles is open. They stay as they are.
pub(crate) fn any_is_open<H: CHandle>(alloc: Global, handles: &mut [H]) -> bool
    ensures none { result ≡ false → All (λ h. H.is_open h ≡ false) handles.old }
    ensures some { result ≡ true → ¬ All (λ h. H.is_open h ≡ false) handles.old }
    ensures as_before { handles.new ≡ handles.old }
{
    match handles.split_first_mut() {
        None => false,
        Some((first, others)) => is_open(alloc, first) || any_is_open(alloc, others),
    }
}

// The seats, each in a block of its own with cache lines of its own, in their order.
fn in_blocks<S: Drop>(
    alloc: Global,
    mut seats: Vec<S>,
) -> Result<Vec<Box<CachePadded<S>>>, AllocError>
    ensures { IfOk result (λ blocks. map boxed blocks.items ≡ seats.items) }
{
    let mut blocks = Vec::with_capacity(alloc, seats.len())?;
    while !seats.is_empty() {
        blocks.push_reserved(Box::new(alloc, CachePadded::new(seats.remove(0)))?);
    }
    Ok(blocks)
}

// Gives each handle a block, in their order. There are as many.
fn hand_out<H: CHandle>(handles: &mut [H], mut blocks: Vec<Box<CachePadded<H::Seat>>>)
    requires many { length handles.old ≡ length blocks.items }
    ensures open { All (λ h. H.is_open h ≡ true) handles.new }
    ensures seats { map (λ h. padded_value (H.state h)) handles.new ≡ map boxed blocks.items }
{
    if let Some((first, others)) = handles.split_first_mut() {
        if blocks.is_empty() {
            return;
        }
        *first = H::of(true, Loose::of(blocks.remove(0)));
        hand_out(others, blocks);
    }
}

/// Gives each handle a seat, in their order. There are as many.
pub(crate) fn give_seats<H: CHandle>(
    alloc: Global,
    handles: &mut [H],
    seats: Vec<H::Seat>,
) -> Result<(), AllocError>
    requires many { length handles.old ≡ length seats.items }
    ensures given { IfOk result (λ _. All (λ h. H.is_open h ≡ true) handles.new × (map (λ h. padded_value (H.state h)) handles.new ≡ seats.items)) }
    ensures as_before { IfErr result (λ _. handles.new ≡ handles.old) }
{
    let blocks = in_blocks(alloc, seats)?;
    hand_out(handles, blocks);
    Ok(())
}
