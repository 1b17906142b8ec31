// A box as its pointer, or none.
ghost use Rattle.std.specs.Prelude.{◌≡◌, Bool, true, false};
ghost use Rattle.mvrlu_c.specs.Held.{held_if};

use std::alloc::Allocator;
use std::marker::Model;
use std::ptr::null_mut;

/// A box as its pointer, which still owns the block and the value in it; or none.
pub(crate) struct Loose<T, A: Allocator> {
    pub(crate) at: *mut T,
    pub(crate) alloc: A,
    pub(crate) ghost is_full: { Bool },
    pub(crate) ghost value: { T },
}

impl<T, A: Allocator> Model for Loose<T, A> {
    ghost also_owns = { λ l. held_if (A.dealloc_token l.alloc) T.row l.is_full l.at l.value };
}

impl<T: Drop, A: Allocator> Loose<T, A> {
    // The pointer of a box.
    pub(crate) fn of(value: Box<T, A>) -> Loose<T, A>
        ensures { (result.is_full ≡ true) × (result.value ≡ value.value) }
    {
        let (at, alloc) = Box::into_raw_with_allocator(value);
        Loose { at, alloc }
    }

    // None. A value like those of a box gives the proof one to name.
    pub(crate) fn none(alloc: A, _like: &T) -> Loose<T, A>
        ensures { result.is_full ≡ false }
    {
        Loose {
            at: null_mut(),
            alloc,
        }
    }

    // The box again.
    pub(crate) fn into_box(self) -> Box<T, A>
        requires { self.is_full ≡ true }
        ensures { result.value ≡ self.value }
    {
        let Loose { at, alloc } = self;
        unsafe { Box::from_raw(alloc, at) }
    }
}
