//! Proposals that justify a low block, by certificates that were sent before.

ghost use Rattle.std.specs.Prelude.{◌≡◌, [], map, option_map, IfOk, OnErr, OnOk, Some, None};
ghost use Rattle.frames_view.specs.Views.{certificate_of, core_of};
ghost use Rattle.signed_frames.specs.Outs.{sent_of};
ghost use Rattle.liars.specs.Kept.{kept_of, lent_of, plan_of};
ghost use Rattle.liars.specs.Low.{certificate_at, keeping, low_certificate, low_core, low_height, low_instead};
ghost use Rattle.liars.specs.Low.{low_plan_for, low_step, low_told, IsLowPlan, IsLowStep};
ghost use Rattle.liars.specs.Told.{told_by};

use crate::climb::{digest_of, empty_core};
use crate::lies::Lies;
use crate::plain::one;
use authenticators::ReplicaKeyring;
use frames_view::{Frame, ProposalView, read};
use ids::{Digest, Fault, Height, Kind};
use signed_frames::{Sending, To, proposal_frame, vote_frame};
use std::alloc::{AllocError, Global};
use std::collections::VecDeque;
use std::marker::Model;

/// How many certificates a low justifier keeps.
const MOST_KEPT: usize = 1024;

/// At each height that this divides it proposes a block that justifies a low one.
const LOW_EACH: u64 = 512;

/// How many heights lower that one is, at least.
const LOW_LEAST: u64 = 64;

/// Over so many heights the low ones are swept.
const LOW_SPREAD: u64 = 450;

/// By so many heights from one to the next.
const LOW_STEP: u64 = 37;

/// A certificate that was sent, for a block of this height.
#[derive(Drop)]
struct KeptCertificate {
    height: Height,
    bytes: Vec<u8>,
}

/// The certificates that a low justifier sent last, oldest first.
#[derive(Drop)]
pub(crate) struct Certificates {
    kept: VecDeque<KeptCertificate>,
}

impl Model for Certificates {
    ghost use Rattle.std.specs.Prelude.{List, ◌≤◌, length, map};
    ghost use Rattle.liars.specs.Low as low;
    ghost use Rattle.liars.specs.Kept.{kept_of};
    ghost use Rattle.liars.specs.declared.low.TheConstants.{MOST_KEPT};

    ghost Value = { List low.Kept };

    ghost view = { λ c. map kept_of c.kept.items };

    ghost invariant = { λ c. length c.kept.items ≤ MOST_KEPT };
}

/// The oldest of these certificates for a block of this height.
fn find(kept: &VecDeque<KeptCertificate>, height: Height) -> Option<&[u8]>
    ensures { option_map lent_of result ≡ certificate_at height (map kept_of kept.now.items) }
{
    for one in kept {
        if one.height == height {
            return Some(&one.bytes);
        }
    }
    None
}

/// How low the block is that is justified in place of a block's own.
fn low_height(height: Height) -> Height
    ensures { result ≡ low_height height }
{
    let below = LOW_LEAST + height.0 / LOW_EACH * LOW_STEP % LOW_SPREAD;
    Height(height.0.saturating_sub(below))
}

impl Certificates {
    /// None was sent.
    pub(crate) fn new(alloc: Global) -> Certificates
        ensures { result ≡ [] }
    {
        Certificates {
            kept: VecDeque::new(alloc),
        }
    }

    /// One more was sent. The oldest goes where they are too many.
    fn keep(&mut self, certificate: KeptCertificate) -> Result<(), AllocError>
        ensures kept { OnOk result (self.new ≡ keeping self.old (kept_of certificate)) }
        ensures unchanged { OnErr result (self.new ≡ self.old) }
    {
        self.kept.push_back(certificate)?;
        if self.kept.len() > MOST_KEPT {
            let _oldest = self.kept.pop_front();
        }
        Ok(())
    }

    /// The certificate that goes out with a block of this height in place of its own, and the height of its block.
    fn low(&self, height: Height) -> Option<(Height, &[u8])>
        ensures { option_map (λ low. (low.0, low.1.now)) result ≡ low_certificate self.now height }
    {
        if height.0 % LOW_EACH != 0 {
            return None;
        }
        let low = low_height(height);
        find(&self.kept, low).map(|bytes| (low, bytes))
    }

    /// Does with a frame what was planned, if something was.
    fn follow(
        &mut self,
        alloc: Global,
        plan: Option<Plan>,
        sending: Sending,
    ) -> Result<Lies, AllocError>
        ensures kept { IfOk result
            (λ _. self.new ≡ (low_step self.old (sent_of sending) (option_map plan_of plan)).0) }
        ensures told { IfOk result
            (λ lies. told_by lies ≡ (low_step self.old (sent_of sending) (option_map plan_of plan)).1) }
        ensures unchanged { OnErr result (self.new ≡ self.old) }
    {
        let Some(
            Plan {
                certificate,
                instead,
            },
        ) = plan
        else {
            return Lies::as_it_is(alloc, sending);
        };
        let lies = match instead {
            Some(lies) => lies,
            None => Lies::as_it_is(alloc, sending)?,
        };
        self.keep(certificate)?;
        Ok(lies)
    }
}

/// In place of a proposal one of an empty block that justifies a block of this height, by its certificate.
fn low_told(
    alloc: Global,
    keyring: &ReplicaKeyring,
    view: &ProposalView<'_>,
    low: Height,
    certificate: &[u8],
) -> Result<Lies, Fault>
    ensures made { IfOk result (λ lies. told_by lies
        ≡ low_told keyring.now view.now.view (low_core (core_of view.now.core) low) certificate.now) }
    ensures memory { OnErr result (result ≡ Err Fault.Memory) }
{
    let core = view.core();
    let core = empty_core(alloc, &Digest(*core.parent()), core.height(), low)?;
    let frame = proposal_frame(alloc, keyring, view.view(), &core, certificate)?;
    let vote = vote_frame(alloc, keyring, &digest_of(&core))?;
    let mut own = Vec::with_capacity(alloc, 2)?;
    own.push_reserved(Vec::from_slice(alloc, &frame)?);
    own.push_reserved(vote);
    let (to, kind) = (To::All, Kind::Proposal);
    let out = one(alloc, Sending { to, kind, frame })?;
    Ok(Lies { out, own })
}

/// The same, where it is time for it and such a certificate is kept.
fn low_instead(
    alloc: Global,
    keyring: &ReplicaKeyring,
    kept: &Certificates,
    view: &ProposalView<'_>,
) -> Result<Option<Lies>, Fault>
    ensures made { IfOk result (λ lies. option_map told_by lies
        ≡ low_instead keyring.now view.now.view (core_of view.now.core) kept.now) }
    ensures memory { OnErr result (result ≡ Err Fault.Memory) }
{
    let Some((low, certificate)) = kept.low(view.core().height()) else {
        return Ok(None);
    };
    let lies = low_told(alloc, keyring, view, low, certificate)?;
    Ok(Some(lies))
}

/// What a low justifier keeps of a proposal, and what it sends in its place, if it does.
#[derive(Drop)]
struct Plan {
    certificate: KeptCertificate,
    instead: Option<Lies>,
}

/// What it does with a proposal.
fn plan_for(
    alloc: Global,
    keyring: &ReplicaKeyring,
    kept: &Certificates,
    view: &ProposalView<'_>,
) -> Result<Plan, Fault>
    ensures planned { IfOk result (λ plan. plan_of plan ≡ low_plan_for keyring.now kept.now view.now.view
        (core_of view.now.core) (certificate_of view.now.certificate)) }
    ensures memory { OnErr result (result ≡ Err Fault.Memory) }
{
    let height = view.core().justify_height();
    let mut bytes = Vec::new(alloc);
    view.certificate().write(&mut bytes)?;
    let instead = low_instead(alloc, keyring, kept, view)?;
    let certificate = KeptCertificate { height, bytes };
    Ok(Plan {
        certificate,
        instead,
    })
}

/// What it does with a frame, if that is a proposal.
fn read_plan(
    alloc: Global,
    keyring: &ReplicaKeyring,
    kept: &Certificates,
    frame: &[u8],
) -> Result<Option<Plan>, Fault>
    ensures planned { IfOk result
        (λ plan. IsLowPlan keyring.now kept.now frame.now (option_map plan_of plan)) }
    ensures memory { OnErr result (result ≡ Err Fault.Memory) }
{
    match read(&keyring.config(), frame) {
        Ok(Frame::Proposal(view)) => {
            let plan = plan_for(alloc, keyring, kept, &view)?;
            Ok(Some(plan))
        }
        _ => Ok(None),
    }
}

/// What a low justifier sends. It keeps the certificate of each proposal.
pub(crate) fn with_low_block(
    alloc: Global,
    keyring: &ReplicaKeyring,
    kept: &mut Certificates,
    sending: Sending,
) -> Result<Lies, Fault>
    ensures lies { IfOk result
        (λ lies. IsLowStep keyring.now kept.old (sent_of sending) kept.new (told_by lies)) }
    ensures memory { OnErr result (result ≡ Err Fault.Memory) }
    ensures unchanged { OnErr result (kept.new ≡ kept.old) }
{
    let plan = read_plan(alloc, keyring, kept, &sending.frame)?;
    Ok(kept.follow(alloc, plan, sending)?)
}
