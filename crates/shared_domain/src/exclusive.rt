// A value that is reached only by whoever owns it.
ghost use Rattle.std.specs.Prelude.{◌≡◌};
ghost use base.Fml.{ftrue};

use std::marker::{Move, Owns};

/// A value that a `&` doesn't reach, so it may be shared wherever it may be sent: `std::sync::Exclusive` of
/// Rust. In a clause it is its value.
pub(crate) struct Exclusive<T> {
    value: T,
}

impl<T> Owns for Exclusive<T> {
    ghost Value = { T };

    ghost coded = { T.code };

    ghost shr_at = { λ _ _ _. ftrue };
}

impl<T> Move for Exclusive<T> {
    ghost own_val = { λ x. Fields.own_val (record { value = x }) };
}

impl<T> Exclusive<T> {
    /// Holds the value.
    pub(crate) fn new(value: T) -> Exclusive<T>
        ensures { result ≡ value }
    {
        Exclusive { value }
    }

    /// The value again.
    pub(crate) fn into_inner(self) -> T
        ensures { result ≡ self }
    {
        let Self { value } = self;
        value
    }
}

impl<T: Drop> Drop for Exclusive<T> {
    fn drop(self) {
        drop(self.into_inner());
    }
}

unsafe impl<T: Send> Send for Exclusive<T> {}

// A `&` to it holds nothing.
unsafe impl<T> Sync for Exclusive<T> {}
