//! The rule of the words, and what each step on one tells.

use atomic_table::{Play, Split, TableRule};
use std::marker::Model;

/// What an eye knows, as the definitions have it. No value of it is made.
pub struct Sight;

impl Model for Sight {
    ghost use Rattle.std.specs.Prelude.{[]};
    ghost use Rattle.definitions.specs.Marks as definitions;

    ghost Value = { definitions.Sight };

    ghost view = { λ _. record { first = 0; end = 0; put = 0; seen = [] } };
}

/// The rule of the marks.
pub(crate) struct Marking;

impl<S> TableRule<S, Sight, usize> for Marking {
    ghost use Rattle.definitions.specs.Marks.{Marked};
    ghost use Rattle.marks.specs.Eyes.{opener};

    ghost holds = { λ count s. Marked count s.words s.views };

    ghost first = { opener };
}

/// Anyone loads a word.
pub(crate) struct Look;

impl<S> Play<S, Sight> for Look {
    ghost use Rattle.definitions.specs.Marks.{Loads};

    ghost then = { λ s me n me'. Loads s.word me.0 n me'.0 };
}

/// The owner puts a word up to some number.
pub(crate) struct Put;

impl<S> Play<S, Sight> for Put {
    ghost use Rattle.definitions.specs.Marks.{Raises};

    ghost then = { λ s me n me'. Raises s.word me.0 s.first me'.0 };
}

/// One word's owner, cut from the owner of several.
pub(crate) struct FirstWord;

impl Split<Sight> for FirstWord {
    ghost use Rattle.marks.specs.Eyes.{without_first, only_first};

    ghost left = { without_first };

    ghost right = { only_first };
}

/// One more that owns none, and has seen as much.
pub(crate) struct Onlooker;

impl Split<Sight> for Onlooker {
    ghost use Rattle.marks.specs.Eyes.{onlooker};

    ghost left = { λ v. v };

    ghost right = { onlooker };
}
