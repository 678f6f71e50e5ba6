//! A block that comes.

ghost use Rattle.std.specs.Prelude.{◌≡◌, [], Some, None, IsTrue};
ghost use Rattle.definitions.specs.Admission.{check, is_passed};
ghost use Rattle.definitions.specs.Checks.{identity_of};
ghost use Rattle.definitions.specs.FrameLimits.{IsFrame};
ghost use Rattle.frames_view.specs.Views.{proposal_of, block_of, certificate_of};
ghost use Rattle.replica.specs.Offers.{is_for, justified_of};
ghost use Rattle.replica.specs.Inputs.{proposal_offered, block_offered, tagged_proposal, tagged_block};
ghost use Rattle.replica_rules.specs.Votes.{candidate_of};

use certificates::{Checked, Copies, Tagged};
use frames_view::{BlockView, CertificateView, CoreView, ProposalView};
use ids::{Digest, ReplicaId, View};
use replica_rules::{BlockRef, Candidate};
use std::marker::Model;

/// A block with its certificate and what a check found of them, and the view that it was proposed
/// for, if it was.
#[derive(Drop)]
pub(crate) struct Offer<'a, 'b> {
    pub(crate) core: CoreView<'a>,
    pub(crate) certificate: CertificateView<'a>,
    pub(crate) counted: &'b [ReplicaId],
    pub(crate) clear: bool,
    /// The replicas that sent it, where it is to be taken for their number.
    pub(crate) senders: &'b [ReplicaId],
    pub(crate) view: Option<View>,
}

impl<'a, 'b> Model for Offer<'a, 'b> {
    ghost use Rattle.frames_view.specs.Views.{core_of, certificate_of};
    ghost use Rattle.replica.specs.Offers.{Offered};

    ghost Value = { Offered };

    ghost view = { λ o. record {
      core = core_of o.core;
      certificate = certificate_of o.certificate;
      found = record { counted = o.counted.now; clear = o.clear };
      senders = o.senders.now;
      view = o.view;
    } };
}

impl<'a, 'b> Offer<'a, 'b> {
    /// The block of a proposal.
    pub(crate) fn of_proposal(checked: &'b Checked<'a, ProposalView<'a>>) -> Offer<'a, 'b>
        ensures offered { result ≡ proposal_offered checked.entry.now }
        ensures frame { IsFrame checked.entry.now.keys.sizes (proposal_of checked.entry.now.view) }
        ensures passed { IsTrue
            (is_passed (check (identity_of checked.entry.now.keys) (proposal_of checked.entry.now.view))) }
    {
        let proposal = checked.view();
        Offer {
            core: proposal.core(),
            certificate: proposal.certificate(),
            counted: checked.counted(),
            clear: checked.is_clear(),
            senders: &[],
            view: Some(proposal.view()),
        }
    }

    /// A block that was asked for.
    pub(crate) fn of_block(block: &'b Checked<'a, BlockView<'a>>) -> Offer<'a, 'b>
        ensures offered { result ≡ block_offered block.entry.now }
        ensures frame { IsFrame block.entry.now.keys.sizes (block_of block.entry.now.view) }
        ensures passed { IsTrue
            (is_passed (check (identity_of block.entry.now.keys) (block_of block.entry.now.view))) }
    {
        let view = block.view();
        Offer {
            core: view.core(),
            certificate: view.certificate(),
            counted: block.counted(),
            clear: block.is_clear(),
            senders: &[],
            view: None,
        }
    }

    /// The block of a proposal whose certificate needn't be good for this replica.
    pub(crate) fn of_offered_proposal(tagged: &'b Tagged<'a, ProposalView<'a>>) -> Offer<'a, 'b>
        ensures offered { result ≡ tagged_proposal tagged.entry.now }
        ensures frame { IsFrame tagged.entry.now.keys.sizes (proposal_of tagged.entry.now.view) }
    {
        let proposal = tagged.view();
        Offer {
            core: proposal.core(),
            certificate: proposal.certificate(),
            counted: &[],
            clear: tagged.is_clear(),
            senders: &[],
            view: Some(proposal.view()),
        }
    }

    /// A block that was asked for, whose certificate needn't be good for this replica.
    pub(crate) fn of_offered_block(tagged: &'b Tagged<'a, BlockView<'a>>) -> Offer<'a, 'b>
        ensures offered { result ≡ tagged_block [] tagged.entry.now }
        ensures frame { IsFrame tagged.entry.now.keys.sizes (block_of tagged.entry.now.view) }
    {
        let block = tagged.view();
        Offer {
            core: block.core(),
            certificate: block.certificate(),
            counted: &[],
            clear: tagged.is_clear(),
            senders: &[],
            view: None,
        }
    }

    /// A block that several replicas sent.
    pub(crate) fn of_copies(copies: &'b Copies<'a>) -> Offer<'a, 'b>
        ensures offered { result ≡ tagged_block copies.entry.now.senders copies.entry.now.first }
        ensures frame { IsFrame copies.entry.now.first.keys.sizes (block_of copies.entry.now.first.view) }
    {
        Offer {
            senders: copies.senders(),
            ..Offer::of_offered_block(copies.first())
        }
    }

    /// The same block with another certificate, of which these votes were counted.
    pub(crate) fn with<'c>(
        &'c self,
        certificate: CertificateView<'c>,
        counted: &'c [ReplicaId],
    ) -> Offer<'c, 'c>
        ensures { result ≡ record self.entry.now {
          certificate = certificate_of certificate.entry;
          found = record { counted = counted.entry.now; clear = self.entry.now.found.clear };
        } }
    {
        Offer {
            core: self.core,
            certificate,
            counted,
            clear: self.clear,
            senders: self.senders,
            view: self.view,
        }
    }

    /// Whether it was proposed for this view.
    pub(crate) fn is_for(&self, view: View) -> bool
        ensures { result ≡ is_for view self.now.view }
    {
        match self.view {
            Some(own) => own == view,
            None => false,
        }
    }

    /// The block that it justifies, as its certificate names it.
    pub(crate) fn justified(&self) -> BlockRef
        ensures { result ≡ justified_of self.now }
    {
        BlockRef {
            digest: Digest(*self.certificate.digest()),
            height: self.core.justify_height(),
        }
    }

    /// What the rules are asked about.
    pub(crate) fn candidate(&self) -> Candidate
        ensures { result ≡ candidate_of self.now.core self.now.found.clear }
    {
        Candidate {
            parent: Digest(*self.core.parent()),
            height: self.core.height(),
            justify_height: self.core.justify_height(),
            clear: self.clear,
        }
    }
}
