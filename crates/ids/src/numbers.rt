ghost use Rattle.std.specs.Prelude.{◌≡◌, ◌-◌};
ghost use Rattle.ids.specs.declared.limits.TheConstants.{BELOW_HORIZON};

use crate::limits::BELOW_HORIZON;
use std::fmt;
use std::marker::Model;

/// A block's height: how many blocks lie below it on its branch. Genesis has height 0.
#[derive(Clone, Copy, Debug, PartialEq, Eq, PartialOrd, Ord, Hash)]
pub struct Height(pub u64);

impl Model for Height {
    ghost use Rattle.std.specs.Prelude.{ℕ};

    ghost Value = { ℕ };

    ghost view = { λ height. height.0 };

    ghost inverse = { λ n. record { 0 = n } };
}

impl Height {
    /// The lowest height that a tree with this horizon keeps. Genesis stays beside it.
    pub fn lowest_kept(self) -> Height
        ensures { result ≡ self - BELOW_HORIZON }
    {
        Height(self.0.saturating_sub(BELOW_HORIZON))
    }
}

impl fmt::Display for Height {
    fn fmt<W: fmt::Write>(&self, f: &mut fmt::Formatter<W>) -> fmt::Result {
        self.0.fmt(f)
    }
}

/// A view: view v is led by replica v mod n. Each replica begins in view 0.
#[derive(Clone, Copy, Debug, PartialEq, Eq, PartialOrd, Ord, Hash)]
pub struct View(pub u64);

impl Model for View {
    ghost use Rattle.std.specs.Prelude.{ℕ};

    ghost Value = { ℕ };

    ghost view = { λ view. view.0 };

    ghost inverse = { λ n. record { 0 = n } };
}

impl fmt::Display for View {
    fn fmt<W: fmt::Write>(&self, f: &mut fmt::Formatter<W>) -> fmt::Result {
        self.0.fmt(f)
    }
}

/// The place of a command in the one history, counted from 1.
#[derive(Clone, Copy, Debug, PartialEq, Eq, PartialOrd, Ord, Hash)]
pub struct Place(pub u64);

impl Model for Place {
    ghost use Rattle.std.specs.Prelude.{ℕ};

    ghost Value = { ℕ };

    ghost view = { λ place. place.0 };

    ghost inverse = { λ n. record { 0 = n } };
}

impl fmt::Display for Place {
    fn fmt<W: fmt::Write>(&self, f: &mut fmt::Formatter<W>) -> fmt::Result {
        self.0.fmt(f)
    }
}

/// The number that a client gives a request: 1, 2, and so on.
#[derive(Clone, Copy, Debug, PartialEq, Eq, PartialOrd, Ord, Hash)]
pub struct Seq(pub u64);

impl Model for Seq {
    ghost use Rattle.std.specs.Prelude.{ℕ};

    ghost Value = { ℕ };

    ghost view = { λ seq. seq.0 };

    ghost inverse = { λ n. record { 0 = n } };
}

impl fmt::Display for Seq {
    fn fmt<W: fmt::Write>(&self, f: &mut fmt::Formatter<W>) -> fmt::Result {
        self.0.fmt(f)
    }
}
