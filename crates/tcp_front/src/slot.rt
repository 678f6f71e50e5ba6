//! The place of one seat.

ghost use Rattle.std.specs.Prelude.{◌≡◌, ◌∷◌, []};

use ghost_list::{GhostList, Tells};
use std::marker::Model;
use std::sync::{Mutex, Wait};

/// A seat that is put under its lock.
#[derive(Drop)]
struct Seated<'a, S> {
    seat: &'a S,
}

impl<'a, S> Tells<S> for Seated<'a, S> {
    ghost tells = { λ seated. seated.seat.now };
}

/// The place of one seat, which threads share by reference: contracts see the seat that it was made with.
///
/// The seat stands there, or somebody has it. There is no second one of it, so nobody else has it then.
#[derive(Drop)]
pub(crate) struct Slot<S> {
    seat: Mutex<Option<S>>,
    made_with: GhostList<S>,
}

impl<S> Model for Slot<S> {
    ghost use Rattle.std.specs.Prelude.{List, length, ◌≡◌};

    ghost Value = { List S };

    ghost view = { λ slot. slot.made_with.items };

    ghost invariant = { λ slot. length slot.made_with.items ≡ 1 };
}

impl<S: Drop> Slot<S> {
    /// A place at which this seat stands.
    pub(crate) fn new(seat: S) -> Slot<S>
        ensures { result ≡ seat ∷ [] }
    {
        let made_with = GhostList::new().with(&Seated { seat: &seat });
        Slot {
            seat: Mutex::new(Some(seat)),
            made_with,
        }
    }

    /// Takes the seat, if it stands there.
    pub(crate) fn take<R: Wait>(&self, rt: &R) -> Option<S> {
        self.seat.lock(rt).take()
    }

    /// Puts a seat there.
    pub(crate) fn put<R: Wait>(&self, rt: &R, seat: S) {
        *self.seat.lock(rt) = Some(seat);
    }
}
