//! What a check has found.

ghost use Rattle.std.specs.Prelude.{◌≡◌, IsTrue};
ghost use Rattle.definitions.specs.Checks.{identity_of, counted_voters, is_clear_core};
ghost use Rattle.certificates.specs.Outcomes.{CheckedView};
ghost use Rattle.certificates.specs.Shown.{Shown, Fits, passes, tag_verifies, certificate_in, core_in, AreClaims};

use crate::claims::Claims;
use crate::row::ReplicaRow;
use authenticators::VerifyingKeyring;
use ids::{Config, ReplicaId};
use std::marker::Model;

/// A view that can be checked.
pub trait Authenticated {
    // what it shows
    ghost shows: { Self → Shown };

    /// What it claims to the keyring's replica.
    fn claims(&self, keyring: &VerifyingKeyring) -> Claims<'_>
        requires fits { Fits keyring.now.sizes (shows self.now) }
        ensures { AreClaims keyring.now (shows self.now) result };
}

/// A view with a certificate in it.
pub trait Certified: Authenticated {}

/// A view with a block in it.
pub trait CarriesBlock: Certified {}

/// A view whose own tag for the keyring's own replica verifies. Its certificate, if it has one, was
/// not looked at.
#[derive(Drop)]
pub struct Tagged<'a, V: Authenticated> {
    keyring: &'a VerifyingKeyring,
    view: V,
    clear: bool,
}

impl<'a, V: Authenticated> Model for Tagged<'a, V> {
    ghost use Rattle.std.specs.Prelude.{◌≡◌, IsTrue};
    ghost use Rattle.definitions.specs.Checks.{identity_of, is_clear_core};
    ghost use Rattle.certificates.specs.Outcomes.{CheckedView};
    ghost use Rattle.certificates.specs.Shown.{Fits, tag_verifies, core_in};

    ghost Value = { CheckedView V };

    ghost view = { λ c. record { keys = c.keyring.now; view = c.view } };

    ghost invariant = { λ c. Fits c.keyring.now.sizes (V.shows c.view)
        × IsTrue (tag_verifies (identity_of c.keyring.now) (V.shows c.view))
        × (c.clear ≡ is_clear_core (identity_of c.keyring.now) (core_in (V.shows c.view))) };
}

impl<'a, V: Authenticated> Tagged<'a, V> {
    /// What was found of a view whose own tag verifies.
    pub(crate) fn new(keyring: &'a VerifyingKeyring, view: V, clear: bool) -> Tagged<'a, V>
        requires fits { Fits keyring.now.sizes (V.shows view) }
        requires tagged { IsTrue (tag_verifies (identity_of keyring.now) (V.shows view)) }
        requires clear { clear ≡ is_clear_core (identity_of keyring.now) (core_in (V.shows view)) }
        ensures { result ≡ record { keys = keyring.entry.now; view = view } }
    {
        Tagged {
            keyring,
            view,
            clear,
        }
    }

    /// The keyring under which its own tag was checked.
    pub fn keyring(&self) -> &'a VerifyingKeyring
        ensures { result.now ≡ self.now.keys }
    {
        self.keyring
    }

    /// The sizes that it was checked for.
    pub fn config(&self) -> Config
        ensures { result ≡ self.now.keys.sizes }
    {
        self.keyring.config()
    }

    /// The view, which is one at these sizes, and whose own tag verifies.
    pub fn view(&self) -> &V
        ensures view { result.now ≡ self.now.view }
        ensures fits { Fits self.now.keys.sizes (V.shows self.now.view) }
        ensures tagged { IsTrue (tag_verifies (identity_of self.now.keys) (V.shows self.now.view)) }
    {
        &self.view
    }
}

impl<'a, V: CarriesBlock> Tagged<'a, V> {
    /// Whether the tag of each command in its block verifies.
    pub fn is_clear(&self) -> bool
        ensures { result ≡ is_clear_core (identity_of self.now.keys) (core_in (V.shows self.now.view)) }
    {
        self.clear
    }
}

/// A view that passed the check under a keyring: the tags for the keyring's own replica verify.
#[derive(Drop)]
pub struct Checked<'a, V: Authenticated> {
    tagged: Tagged<'a, V>,
    voters: ReplicaRow,
}

impl<'a, V: Authenticated> Model for Checked<'a, V> {
    ghost use Rattle.std.specs.Prelude.{◌≡◌, IsTrue};
    ghost use Rattle.definitions.specs.Checks.{identity_of, counted_voters};
    ghost use Rattle.certificates.specs.Outcomes.{CheckedView};
    ghost use Rattle.certificates.specs.Shown.{passes, certificate_in};

    ghost Value = { CheckedView V };

    ghost view = { λ c. c.tagged };

    ghost invariant = { λ c. IsTrue (passes (identity_of c.tagged.keys) (V.shows c.tagged.view))
        × (c.voters ≡ counted_voters (identity_of c.tagged.keys) (certificate_in (V.shows c.tagged.view))) };
}

impl<'a, V: Authenticated> Checked<'a, V> {
    /// What was found of a view that passes.
    pub(crate) fn new(tagged: Tagged<'a, V>, voters: ReplicaRow) -> Checked<'a, V>
        requires passed { IsTrue (passes (identity_of tagged.keys) (V.shows tagged.view)) }
        requires voters { voters
            ≡ counted_voters (identity_of tagged.keys) (certificate_in (V.shows tagged.view)) }
        ensures { result ≡ tagged.entry }
    {
        Checked { tagged, voters }
    }

    /// The keyring under which it was checked.
    pub fn keyring(&self) -> &'a VerifyingKeyring
        ensures { result.now ≡ self.now.keys }
    {
        self.tagged.keyring()
    }

    /// The sizes that it was checked for.
    pub fn config(&self) -> Config
        ensures { result ≡ self.now.keys.sizes }
    {
        self.tagged.config()
    }

    /// The view, which is one at these sizes and passes.
    pub fn view(&self) -> &V
        ensures view { result.now ≡ self.now.view }
        ensures fits { Fits self.now.keys.sizes (V.shows self.now.view) }
        ensures passed { IsTrue (passes (identity_of self.now.keys) (V.shows self.now.view)) }
    {
        self.tagged.view()
    }
}

impl<'a, V: Certified> Checked<'a, V> {
    /// The voters of its certificate whose tags verify.
    pub fn counted(&self) -> &[ReplicaId]
        ensures { result.now
            ≡ counted_voters (identity_of self.now.keys) (certificate_in (V.shows self.now.view)) }
    {
        self.voters.as_slice()
    }
}

impl<'a, V: CarriesBlock> Checked<'a, V> {
    /// Whether the tag of each command in its block verifies.
    pub fn is_clear(&self) -> bool
        ensures { result ≡ is_clear_core (identity_of self.now.keys) (core_in (V.shows self.now.view)) }
    {
        self.tagged.is_clear()
    }
}
