//! The list.

ghost use Rattle.std.specs.Prelude.{◌≡◌, List, [], ◌∷◌};
ghost use Rattle.std.specs.Borrow.{ftrue};

use std::marker::{Model, PhantomData};

/// A value of this type tells of a `T`: it is listed as that.
pub trait Tells<T> {
    ghost tells: { Self → T };
}

/// What was told, newest first: a clause reads it as `items`.
///
/// It has no bytes, and its calls do nothing at run time.
#[derive(Drop)]
pub struct GhostList<T> {
    of: PhantomData<T>,
    pub ghost items: { List T },
}

impl<T> Model for GhostList<T> {
    ghost also_owns = { λ _. ftrue };
}

// It owns nothing, and what it shares is nothing.
unsafe impl<T: Send> Send for GhostList<T> {}

unsafe impl<T: Send> Sync for GhostList<T> {}

impl<T> GhostList<T> {
    /// Nothing was told.
    pub fn new() -> GhostList<T>
        ensures { result.items ≡ [] }
    {
        GhostList { of: PhantomData }
    }

    /// One value more was told of: the one that is at hand now.
    pub fn with<X: Tells<T>>(&self, newest: &X) -> GhostList<T>
        ensures { result.items ≡ X.tells newest.now ∷ self.now.items }
    {
        GhostList { of: PhantomData }
    }
}
