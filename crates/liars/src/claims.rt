//! False claims: announcements that name blocks which nobody has.

ghost use Rattle.std.specs.Prelude.{◌≡◌, ◌^◌, ◌∷◌, [], map, replicate, IfOk, IfSome, OnErr};
ghost use Rattle.definitions.specs.Frames.{certificate_bytes};
ghost use Rattle.frames_view.specs.Views.{new_view_of};
ghost use Rattle.signed_frames.specs.Outs.{sent_of};
ghost use Rattle.liars.specs.Claims.{IsAnnounced, IsClaimsStep, claim, claimed, with_claim};

use crate::answers::bare_certificate;
use crate::climb::{digest_of, empty_core};
use crate::plain::one;
use authenticators::ReplicaKeyring;
use frames_view::{Frame, read};
use ids::{Config, Digest, Fault, Height, Kind, View};
use signed_frames::{Sending, To, new_view_frame};
use std::alloc::{AllocError, Global};
use std::marker::Model;

/// A certificate without votes, for a block that nobody has.
fn claimed(alloc: Global, number: u64) -> Result<Vec<u8>, Fault>
    ensures made { IfOk result (λ bytes. bytes.items ≡ certificate_bytes (claimed number)) }
    ensures memory { OnErr result (result ≡ Err Fault.Memory) }
{
    let core = empty_core(alloc, &Digest([0; 32]), Height(number), Height(number))?;
    bare_certificate(alloc, &digest_of(&core))
}

/// The announcement of a view that names such a block.
fn claim(alloc: Global, keyring: &ReplicaKeyring, view: View, number: u64) -> Result<Sending, Fault>
    ensures made { IfOk result (λ sending. sent_of sending ≡ claim keyring.now view number) }
    ensures memory { OnErr result (result ≡ Err Fault.Memory) }
{
    let certificate = claimed(alloc, number)?;
    let frame = new_view_frame(alloc, keyring, view, &certificate)?;
    let (to, kind) = (To::All, Kind::NewView);
    Ok(Sending { to, kind, frame })
}

/// The view that a frame announces, if it announces one.
fn announced(config: Config, frame: &[u8]) -> Option<View>
    ensures { IsAnnounced config frame.now result }
{
    match read(&config, frame) {
        Ok(Frame::NewView(view)) => Some(view.view()),
        _ => None,
    }
}

/// A frame that is no announcement, and a claim.
fn with_claim(
    alloc: Global,
    sending: Sending,
    is_announcement: bool,
    claim: Sending,
) -> Result<Vec<Sending>, AllocError>
    ensures { IfOk result (λ out. map sent_of out.items
        ≡ with_claim (sent_of sending) is_announcement (sent_of claim)) }
{
    if is_announcement {
        return one(alloc, claim);
    }
    let mut out = one(alloc, sending)?;
    out.push(claim)?;
    Ok(out)
}

/// The view that was announced last, and how many claims went out.
#[derive(Clone, Copy)]
pub(crate) struct Claims {
    view: View,
    count: u64,
}

impl Model for Claims {
    ghost use Rattle.liars.specs.Claims as claims;

    ghost Value = { claims.Claims };

    ghost view = { λ c. (c.view, c.count) };

    ghost inverse = { λ c. record { view = c.0; count = c.1 } };
}

impl Claims {
    /// None went out.
    pub(crate) fn new() -> Claims
        ensures { result ≡ (0, 0) }
    {
        Claims {
            view: View(0),
            count: 0,
        }
    }

    /// What is sent in place of a frame.
    pub(crate) fn tell(
        &mut self,
        alloc: Global,
        keyring: &ReplicaKeyring,
        sending: Sending,
    ) -> Result<Vec<Sending>, Fault>
        ensures told { IfOk result (λ out. IsClaimsStep keyring.now self.old (sent_of sending) self.new
            (map sent_of out.items)) }
        ensures memory { OnErr result (result ≡ Err Fault.Memory) }
        ensures unchanged { OnErr result (self.new ≡ self.old) }
    {
        let announced = announced(keyring.config(), &sending.frame);
        let view = announced.unwrap_or(self.view);
        let claim = claim(alloc, keyring, view, self.count)?;
        let out = with_claim(alloc, sending, announced.is_some(), claim)?;
        self.view = view;
        self.count = self.count.saturating_add(1);
        Ok(out)
    }
}
