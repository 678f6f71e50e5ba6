//! What the check of a frame says.
//!
//! That is the number of its refusal: 10 where the bytes are no frame, 30 for a reply, 11 for a bad
//! tag or certificate; or `ok`. Behind `ok` stand, in brackets, the voters of its certificate whose
//! tags verify, where it has one, and `clear` or `unclear`, where it has a block. Then, of each
//! frame that has a certificate, what the check of this alone says: `alone`, and the number of its
//! refusal or the voters in brackets, and in brackets those of the votes that are passed on.

ghost use Rattle.definitions.specs.FrameLimits.{IsCertificate};
ghost use Rattle.frames_view.specs.Views.{certificate_of};

use authenticators::VerifyingKeyring;
use certificates::{
    Authenticated, CarriesBlock, Certified, Checked, check_block, check_cert, check_fetch,
    check_new_view, check_proposal, check_request, check_vote,
};
use frames_view::{CertificateView, Frame, read};
use ids::{Config, Fault, ReplicaId};
use simulated_keys::replica_keyring_of;
use std::alloc::Global;

/// The voters, in brackets.
fn tell_voters(voters: &[ReplicaId], text: &mut String) -> Result<(), Fault> {
    text.push_str(" [")?;
    for voter in voters {
        write!(text, " {}", voter.0)?;
    }
    text.push_str(" ]")?;
    Ok(())
}

/// Tells `ok` or the number of the refusal, and gives what passed.
fn passed<V: Drop>(checked: Result<V, Fault>, text: &mut String) -> Result<Option<V>, Fault> {
    match &checked {
        Ok(_) => text.push_str("ok")?,
        Err(fault) => write!(text, "{}", fault.number())?,
    }
    Ok(checked.ok())
}

/// A frame without a certificate.
fn tell_plain<V: Authenticated + Drop>(
    checked: Result<Checked<V>, Fault>,
    text: &mut String,
) -> Result<(), Fault> {
    passed(checked, text)?;
    Ok(())
}

/// A frame with a certificate, or a certificate alone.
fn tell_certified<V: Certified + Drop>(
    checked: Result<Checked<V>, Fault>,
    text: &mut String,
) -> Result<(), Fault> {
    match passed(checked, text)? {
        Some(checked) => tell_voters(checked.counted(), text),
        None => Ok(()),
    }
}

/// A frame with a block.
fn tell_block<V: CarriesBlock + Drop>(
    checked: Result<Checked<V>, Fault>,
    text: &mut String,
) -> Result<(), Fault> {
    let Some(checked) = passed(checked, text)? else {
        return Ok(());
    };
    tell_voters(checked.counted(), text)?;
    let clear = if checked.is_clear() {
        " clear"
    } else {
        " unclear"
    };
    text.push_str(clear)?;
    Ok(())
}

/// A certificate alone.
fn tell_alone(
    ring: &VerifyingKeyring,
    certificate: &CertificateView,
    text: &mut String,
) -> Result<(), Fault>
    requires { IsCertificate ring.now.sizes (certificate_of certificate.now) }
{
    text.push_str(" alone ")?;
    let Some(checked) = passed(check_cert(ring, &ring.config(), certificate), text)? else {
        return Ok(());
    };
    tell_voters(checked.counted(), text)?;
    text.push_str(" [")?;
    for vote in checked.cut() {
        write!(text, " {}", vote.voter().0)?;
    }
    text.push_str(" ]")?;
    Ok(())
}

/// What the check of bytes says, under the keys of a replica.
pub(crate) fn tell(ring: &VerifyingKeyring, bytes: &[u8], text: &mut String) -> Result<(), Fault> {
    let config = ring.config();
    let frame = match read(&config, bytes) {
        Ok(frame) => frame,
        Err(refusal) => {
            let fault: Fault = refusal.into();
            write!(text, "{}", fault.number())?;
            return Ok(());
        }
    };
    match frame {
        Frame::Request(view) => tell_plain(check_request(ring, &config, &view), text),
        Frame::Proposal(view) => {
            tell_block(check_proposal(ring, &config, &view), text)?;
            tell_alone(ring, &view.certificate(), text)
        }
        Frame::Vote(view) => tell_plain(check_vote(ring, &config, &view), text),
        Frame::NewView(view) => {
            tell_certified(check_new_view(ring, &config, &view), text)?;
            tell_alone(ring, &view.certificate(), text)
        }
        Frame::Reply(_) => {
            write!(text, "{}", Fault::NotMine.number())?;
            Ok(())
        }
        Frame::Fetch(view) => tell_plain(check_fetch(ring, &config, &view), text),
        Frame::Block(view) => {
            tell_block(check_block(ring, &config, &view), text)?;
            tell_alone(ring, &view.certificate(), text)
        }
    }
}

/// What the check of bytes by a replica says.
pub(crate) fn check(
    alloc: Global,
    config: Config,
    receiver: ReplicaId,
    bytes: &[u8],
) -> Result<String, Fault> {
    let ring = replica_keyring_of(alloc, config, receiver)?;
    let mut text = String::new(alloc);
    tell(ring.verifying(), bytes, &mut text)?;
    Ok(text)
}
