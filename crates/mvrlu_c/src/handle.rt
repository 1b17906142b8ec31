// What C holds of a seat, of whatever kind.
ghost use Rattle.std.specs.Prelude.{◌≡◌, true, false, None, MatchOption};
ghost use Rattle.crossbeam_utils.specs.Padded.{padded_value};

use crate::loose::Loose;
use core::mem::replace_with;
use crossbeam_utils::CachePadded;
use std::alloc::Global;

/// A seat in memory that C owns. Zeroed memory is a closed one.
pub(crate) trait CHandle: Sized + Drop {
    ghost use Rattle.std.specs.Prelude.{Bool};
    ghost use Rattle.crossbeam_utils.specs.declared.cache_padded.CachePadded.{CachePadded as Padded};
    ghost use denote.RawPtr.{Ptr};

    /// The seat behind an open one.
    type Seat: Drop;

    // Whether it is open.
    ghost is_open: { Self → Bool };

    // What an open one holds.
    ghost state: { Self → Padded Self.Seat };

    // One by its fields.
    ghost made: { Bool → Ptr → Padded Self.Seat → Self };

    // Whether it is open, and then the box behind it.
    fn take_apart(self, alloc: Global) -> (bool, Loose<CachePadded<Self::Seat>, Global>)
        ensures { (self ≡ made result.0 result.1.at result.1.value) × (result.0 ≡ is_open self) × (result.1.is_full ≡ is_open self)
            × (result.1.value ≡ state self) };

    // One that is open where there is a box.
    fn of(full: bool, block: Loose<CachePadded<Self::Seat>, Global>) -> Self
        requires { block.is_full ≡ full }
        ensures { (result ≡ made full block.at block.value) × (is_open result ≡ full) × (state result ≡ block.value) };
}

/// Makes a call on the seat of an open handle, in its place. None where the handle is closed; then nothing
/// is done.
#[inline(always)]
pub(crate) fn on_open<H: CHandle, X: Drop, R, F: FnOnce(H::Seat, X) -> (H::Seat, R) + Drop>(
    alloc: Global,
    handle: &mut H,
    argument: X,
    call: F,
) -> Option<R>
    requires callable { F.IsAlwaysCallable call }
    ensures closed { H.is_open handle.old ≡ false → (result ≡ None) × (handle.new ≡ handle.old) }
    ensures open { H.is_open handle.old ≡ true → (H.is_open handle.new ≡ true)
        × MatchOption result ⊥ (λ r. F.post call (padded_value (H.state handle.old)) argument (padded_value (H.state handle.new), r)) }
{
    replace_with(
        handle,
        (argument, call),
        |handle: H, given: (X, F)|
            requires callable { F.IsAlwaysCallable given.1 }
            ensures closed { H.is_open handle ≡ false → (result.1 ≡ None) × (result.0 ≡ handle) }
            ensures open { H.is_open handle ≡ true → (H.is_open result.0 ≡ true)
                × MatchOption result.1 ⊥ (λ r. F.post given.1 (padded_value (H.state handle)) given.0 (padded_value (H.state result.0), r)) }
        {
            let (full, block) = handle.take_apart(alloc);
            if !full {
                return (H::of(full, block), None);
            }
            let (argument, call) = given;
            let mut block = block.into_box();
            let answer = replace_with(&mut **block, argument, call);
            (H::of(true, Loose::of(block)), Some(answer))
        },
    )
}

/// Closes an open handle, by a call that spends its seat. None where the handle is closed; then nothing is done.
pub(crate) fn close_by<H: CHandle, R, F: FnOnce(H::Seat) -> R + Drop>(
    alloc: Global,
    handle: &mut H,
    close: F,
) -> Option<R>
    requires callable { F.IsAlwaysCallable close }
    ensures closed { H.is_open handle.old ≡ false → (result ≡ None) × (handle.new ≡ handle.old) }
    ensures open { H.is_open handle.old ≡ true → (H.is_open handle.new ≡ false)
        × MatchOption result ⊥ (λ r. F.post close (padded_value (H.state handle.old)) r) }
{
    replace_with(
        handle,
        close,
        |handle: H, close: F|
            requires callable { F.IsAlwaysCallable close }
            ensures closed { H.is_open handle ≡ false → (result.1 ≡ None) × (result.0 ≡ handle) }
            ensures open { H.is_open handle ≡ true → (H.is_open result.0 ≡ false)
                × MatchOption result.1 ⊥ (λ r. F.post close (padded_value (H.state handle)) r) }
        {
            let (full, block) = handle.take_apart(alloc);
            if !full {
                return (H::of(full, block), None);
            }
            let block = block.into_box();
            let handle = H::of(false, Loose::none(alloc, &*block));
            (handle, Some(close(Box::into_inner(block).into_inner())))
        },
    )
}
