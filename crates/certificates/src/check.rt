//! The two checks that all views pass through.

ghost use Rattle.std.specs.Prelude.{◌≡◌, IfSome, IsTrue};
ghost use Rattle.definitions.specs.FrameLimits.{IsCore};
ghost use Rattle.definitions.specs.Checks.{identity_of};
ghost use Rattle.frames_view.specs.Views.{core_of};
ghost use Rattle.certificates.specs.Shown.{Fits, passes, tag_verifies, is_tagged, is_clear_in};
ghost use Rattle.certificates.specs.Outcomes.{IsGivenIf};
ghost use Rattle.definitions.specs.Keyrings.{is_peer};

use crate::certificate::good_voters;
use crate::checked::{Authenticated, Checked, Tagged};
use crate::claims::OwnTag;
use crate::commands::is_clear;
use crate::row::ReplicaRow;
use authenticators::VerifyingKeyring;
use frames_view::CoreView;
use ids::Fault;

/// Whether the tag verifies, where there is one.
pub(crate) fn verifies(keyring: &VerifyingKeyring, own: &Option<OwnTag<'_>>) -> bool
    requires { IfSome own.now (λ t. IsTrue (is_peer keyring.now t.sender)) }
    ensures { result ≡ is_tagged keyring.now own.now }
{
    match own {
        Some(own) => keyring.verify(own.kind, own.sender, own.content, own.tag),
        None => true,
    }
}

/// Whether the tag of each command verifies, where there is a block.
fn clear_in(keyring: &VerifyingKeyring, core: &Option<CoreView<'_>>) -> bool
    requires { IfSome core.now (λ k. IsCore keyring.now.sizes (core_of k)) }
    ensures { result ≡ is_clear_in keyring.now core.now }
{
    match core {
        Some(core) => is_clear(keyring, core),
        None => true,
    }
}

/// The view, if its own tag for the keyring's replica verifies, whatever its certificate; else
/// `BadTag`.
///
/// It looks at no vote, so it is no proof that the certificate is good for anyone.
pub fn check_tag<'a, V: Authenticated + Copy>(
    keyring: &'a VerifyingKeyring,
    view: &V,
) -> Result<Tagged<'a, V>, Fault>
    requires fits { Fits keyring.now.sizes (V.shows view.now) }
    ensures { IsGivenIf (tag_verifies (identity_of keyring.now) (V.shows view.now)) keyring.now view.now
        result }
{
    let claims = view.claims(keyring);
    if !verifies(keyring, &claims.own) {
        return Err(Fault::BadTag);
    }
    Ok(Tagged::new(keyring, *view, clear_in(keyring, &claims.core)))
}

/// The view, if what it claims to the keyring's replica is right; else `BadTag`.
pub(crate) fn check<'a, V: Authenticated + Copy>(
    keyring: &'a VerifyingKeyring,
    view: &V,
) -> Result<Checked<'a, V>, Fault>
    requires fits { Fits keyring.now.sizes (V.shows view.now) }
    ensures { IsGivenIf (passes (identity_of keyring.now) (V.shows view.now)) keyring.now view.now result }
{
    let claims = view.claims(keyring);
    if !verifies(keyring, &claims.own) {
        return Err(Fault::BadTag);
    }
    let voters = match &claims.certificate {
        Some(certificate) => good_voters(keyring, certificate)?,
        None => ReplicaRow::new(),
    };
    let clear = clear_in(keyring, &claims.core);
    Ok(Checked::new(Tagged::new(keyring, *view, clear), voters))
}
