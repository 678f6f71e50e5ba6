//! The frames that replicas take: what each claims, and its check.
#![tactic(auto, using(crate::proofs::Passing::is_passed_when), unfolding(definitions::specs::Admission::check, definitions::specs::Checks::is_clear_core, definitions::specs::Checks::counted_voters))]

ghost use Rattle.std.specs.Prelude.{◌≡◌};
ghost use Rattle.definitions.specs.Frames.{request};
ghost use Rattle.definitions.specs.FrameLimits.{IsFrame, IsCommand};
ghost use Rattle.definitions.specs.Checks.{identity_of};
ghost use Rattle.definitions.specs.Admission.{check, is_passed};
ghost use Rattle.frames_view.specs.Views.{proposal_of, vote_frame_of, new_view_of, fetch_of, block_of};
ghost use Rattle.frames_view.specs.Views.{command_of};
ghost use Rattle.certificates.specs.Shown.{frame};
ghost use Rattle.certificates.specs.Outcomes.{IsGivenIf};

use crate::check::check;
use crate::checked::{Authenticated, CarriesBlock, Certified, Checked};
use crate::claims::{Claims, OwnTag};
use authenticators::VerifyingKeyring;
use frames_view::{BlockView, CommandView, FetchView, NewViewView, ProposalView, VoteFrameView};
use ids::{Config, Fault, Kind, PartyId};

impl<'a> Authenticated for ProposalView<'a> {
    ghost shows = { λ f. frame (proposal_of f) };

    fn claims(&self, keyring: &VerifyingKeyring) -> Claims<'_> {
        let own = OwnTag {
            kind: Kind::Proposal,
            sender: keyring.config().leader(self.view()).into(),
            content: self.content(),
            tag: self.tag(keyring.replica()),
        };
        Claims {
            own: Some(own),
            certificate: Some(self.certificate()),
            core: Some(self.core()),
        }
    }
}

impl<'a> Certified for ProposalView<'a> {}

impl<'a> CarriesBlock for ProposalView<'a> {}

/// The proposal, if it passes the check of the keyring's replica.
pub fn check_proposal<'a>(
    keyring: &'a VerifyingKeyring,
    config: &Config,
    view: &ProposalView<'a>,
) -> Result<Checked<'a, ProposalView<'a>>, Fault>
    requires sizes { config.now ≡ keyring.now.sizes }
    requires fits { IsFrame config.now (proposal_of view.now) }
    ensures { IsGivenIf (is_passed (check (identity_of keyring.now) (proposal_of view.now))) keyring.now
        view.now result }
{
    check(keyring, view)
}

impl<'a> Authenticated for VoteFrameView<'a> {
    ghost shows = { λ f. frame (vote_frame_of f) };

    fn claims(&self, keyring: &VerifyingKeyring) -> Claims<'_> {
        let own = OwnTag {
            kind: Kind::Vote,
            sender: self.vote().voter().into(),
            content: self.digest(),
            tag: self.vote().tag(keyring.replica()),
        };
        Claims {
            own: Some(own),
            certificate: None,
            core: None,
        }
    }
}

/// The vote, if it passes the check of the keyring's replica. Its tags speak of the digest alone,
/// as they do in a certificate.
pub fn check_vote<'a>(
    keyring: &'a VerifyingKeyring,
    config: &Config,
    view: &VoteFrameView<'a>,
) -> Result<Checked<'a, VoteFrameView<'a>>, Fault>
    requires sizes { config.now ≡ keyring.now.sizes }
    requires frame { IsFrame config.now (vote_frame_of view.now) }
    ensures { IsGivenIf (is_passed (check (identity_of keyring.now) (vote_frame_of view.now))) keyring.now
        view.now result }
{
    check(keyring, view)
}

impl<'a> Authenticated for NewViewView<'a> {
    ghost shows = { λ f. frame (new_view_of f) };

    fn claims(&self, keyring: &VerifyingKeyring) -> Claims<'_> {
        let own = OwnTag {
            kind: Kind::NewView,
            sender: self.sender().into(),
            content: self.content(),
            tag: self.tag(keyring.replica()),
        };
        Claims {
            own: Some(own),
            certificate: Some(self.certificate()),
            core: None,
        }
    }
}

impl<'a> Certified for NewViewView<'a> {}

/// The announcement, if it passes the check of the keyring's replica.
pub fn check_new_view<'a>(
    keyring: &'a VerifyingKeyring,
    config: &Config,
    view: &NewViewView<'a>,
) -> Result<Checked<'a, NewViewView<'a>>, Fault>
    requires sizes { config.now ≡ keyring.now.sizes }
    requires fits { IsFrame config.now (new_view_of view.now) }
    ensures { IsGivenIf (is_passed (check (identity_of keyring.now) (new_view_of view.now))) keyring.now
        view.now result }
{
    check(keyring, view)
}

impl<'a> Authenticated for FetchView<'a> {
    ghost shows = { λ f. frame (fetch_of f) };

    fn claims(&self, _keyring: &VerifyingKeyring) -> Claims<'_> {
        let own = OwnTag {
            kind: Kind::Fetch,
            sender: PartyId::from(self.sender()),
            content: self.content(),
            tag: self.tag(),
        };
        Claims {
            own: Some(own),
            certificate: None,
            core: None,
        }
    }
}

/// The question, if it passes the check of the keyring's replica.
pub fn check_fetch<'a>(
    keyring: &'a VerifyingKeyring,
    config: &Config,
    view: &FetchView<'a>,
) -> Result<Checked<'a, FetchView<'a>>, Fault>
    requires sizes { config.now ≡ keyring.now.sizes }
    requires fits { IsFrame config.now (fetch_of view.now) }
    ensures { IsGivenIf (is_passed (check (identity_of keyring.now) (fetch_of view.now))) keyring.now
        view.now result }
{
    check(keyring, view)
}

impl<'a> Authenticated for BlockView<'a> {
    ghost shows = { λ f. frame (block_of f) };

    fn claims(&self, _keyring: &VerifyingKeyring) -> Claims<'_> {
        let own = OwnTag {
            kind: Kind::Block,
            sender: self.sender().into(),
            content: self.content(),
            tag: self.tag(),
        };
        Claims {
            own: Some(own),
            certificate: Some(self.certificate()),
            core: Some(self.core()),
        }
    }
}

impl<'a> Certified for BlockView<'a> {}

impl<'a> CarriesBlock for BlockView<'a> {}

/// The block, if it passes the check of the keyring's replica.
pub fn check_block<'a>(
    keyring: &'a VerifyingKeyring,
    config: &Config,
    view: &BlockView<'a>,
) -> Result<Checked<'a, BlockView<'a>>, Fault>
    requires sizes { config.now ≡ keyring.now.sizes }
    requires fits { IsFrame config.now (block_of view.now) }
    ensures { IsGivenIf (is_passed (check (identity_of keyring.now) (block_of view.now))) keyring.now
        view.now result }
{
    check(keyring, view)
}

impl<'a> Authenticated for CommandView<'a> {
    ghost shows = { λ f. frame (request (command_of f)) };

    fn claims(&self, keyring: &VerifyingKeyring) -> Claims<'_> {
        let own = OwnTag {
            kind: Kind::Request,
            sender: self.client().into(),
            content: self.content(),
            tag: self.tag(keyring.replica()),
        };
        Claims {
            own: Some(own),
            certificate: None,
            core: None,
        }
    }
}

/// The command of a request, if it passes the check of the keyring's replica.
pub fn check_request<'a>(
    keyring: &'a VerifyingKeyring,
    config: &Config,
    view: &CommandView<'a>,
) -> Result<Checked<'a, CommandView<'a>>, Fault>
    requires sizes { config.now ≡ keyring.now.sizes }
    requires command { IsCommand config.now (command_of view.now) }
    ensures { IsGivenIf (is_passed (check (identity_of keyring.now) (request (command_of view.now))))
        keyring.now view.now result }
{
    check(keyring, view)
}
