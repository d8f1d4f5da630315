//! A value that only contracts see.
ghost use Rattle.std.specs.Prelude.{◌≡◌};
ghost use Rattle.std.specs.Borrow.{ftrue};

use std::marker::{Model, PhantomData};

/// How the value of a ghost cell is read off a value of the code.
pub trait Says<X, T> {
    ghost says: { X → T };
}

/// A value that only contracts see, of the kind that they see in a `T`. It takes no memory, and nothing can ask
/// for it. No width of a number bounds it.
pub struct Ghost<T> {
    of: PhantomData<T>,
    ghost value: { T },
}

impl<T> Model for Ghost<T> {
    ghost also_owns = { λ _. ftrue };
}

impl<T> Drop for Ghost<T> {
    fn drop(self) {
        let Self { of: _ } = self;
    }
}

// It owns nothing.
unsafe impl<T> Send for Ghost<T> {}

unsafe impl<T> Sync for Ghost<T> {}

impl<T> Ghost<T> {
    /// What `M` says of `x`.
    pub fn of<X, M: Says<X, T>>(x: &X) -> Ghost<T>
        ensures { result.value ≡ M.says x.now }
    {
        let _ = x;
        Ghost { of: PhantomData }
    }
}
