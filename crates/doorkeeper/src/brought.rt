//! Which block an input brings, and on whose account.

ghost use Rattle.std.specs.Prelude.{◌≡◌, ◌<◌, IfSome};
ghost use Rattle.ids.specs.declared.limits.TheConstants.{MOST_REPLICAS};
ghost use Rattle.admission.specs.Inputs.{input_of, relayed_block};
ghost use Rattle.definitions.specs.FrameLimits.{IsFrame};
ghost use Rattle.frames_view.specs.Fields.{frame_core, frame_replica, frame_view};
ghost use Rattle.frames_view.specs.Views.{block_of, proposal_of};
ghost use Rattle.ids.specs.Sizes.{leader};

use admission::Input;
use certificates::Copies;
use frames_view::{BlockView, ProposalView};
use ghost_list::Tells;
use ids::{Config, Height, MOST_OF_HEIGHT, ReplicaId};
use tuning::MOST_OF_SENDER;

/// A block that comes to a replica, by its height, and on whose account.
#[derive(Clone, Copy, Debug, PartialEq, Eq)]
pub struct Brought {
    pub height: Height,
    pub payer: ReplicaId,
}

impl Tells<Brought> for Brought {
    ghost tells = { λ b. b };
}

ghost use Rattle.doorkeeper.specs.Doors.{account, brings, most_of_each};

/// The block that an input brings, if it brings one. A proposal comes in on the account of its view's leader. Another
/// block comes in on that of the replica whose frame made this one ask for it, so that who answers pays nothing; where
/// nobody asked, on its sender's, or that of the first of several.
pub fn brings(config: &Config, asked_by: Option<ReplicaId>, input: &Input<'_>) -> Option<Brought>
    ensures brings { result ≡ brings config.now asked_by (input_of input.now) }
    ensures payer { IfSome result (λ b. b.payer < MOST_REPLICAS) }
{
    // For the proof: there are few replicas.
    let _replicas = config.n();
    match input {
        Input::Proposal(checked) => Some(proposed(config, checked.view())),
        Input::Block(checked) => Some(charged(
            config,
            asked_by,
            sent(&checked.config(), checked.view()),
        )),
        Input::OfferedProposal(tagged) => Some(proposed(&tagged.config(), tagged.view())),
        Input::OfferedBlock(tagged) => Some(charged(
            config,
            asked_by,
            sent(&tagged.config(), tagged.view()),
        )),
        Input::Relayed(copies) => copied(config, asked_by, copies),
        _ => None,
    }
}

/// A block that its sender's account would bear, on the account on which it was asked for, if that is known.
fn charged(config: &Config, asked_by: Option<ReplicaId>, block: Brought) -> Brought
    ensures charged { result ≡ record block { payer = account config.now asked_by block.payer } }
    ensures payer { block.payer < MOST_REPLICAS → result.payer < MOST_REPLICAS }
{
    match asked_by {
        Some(payer) if payer.0 < config.n() => Brought {
            height: block.height,
            payer,
        },
        _ => block,
    }
}

/// The block of a proposal.
fn proposed(config: &Config, proposal: &ProposalView<'_>) -> Brought
    ensures brought { result ≡ record {
      height = (frame_core (proposal_of proposal.now)).height;
      payer = leader config.now (frame_view (proposal_of proposal.now));
    } }
    ensures payer { result.payer < MOST_REPLICAS }
{
    // For the proof: there are few replicas.
    let _replicas = config.n();
    Brought {
        height: proposal.core().height(),
        payer: config.leader(proposal.view()),
    }
}

/// The block of a Block frame, on its sender's account.
fn sent(config: &Config, block: &BlockView<'_>) -> Brought
    requires { IsFrame config.now (block_of block.now) }
    ensures brought { result ≡ record {
      height = (frame_core (block_of block.now)).height;
      payer = frame_replica (block_of block.now);
    } }
    ensures payer { result.payer < MOST_REPLICAS }
{
    // For the proof: there are few replicas.
    let _replicas = config.n();
    Brought {
        height: block.core().height(),
        payer: block.sender(),
    }
}

/// The block of copies, where its account is a replica's.
fn copied(config: &Config, asked_by: Option<ReplicaId>, copies: &Copies<'_>) -> Option<Brought>
    ensures brought { result ≡ brings config.now asked_by (relayed_block copies.now) }
    ensures payer { IfSome result (λ b. b.payer < MOST_REPLICAS) }
{
    // For the proof: there are few replicas.
    let n = config.n();
    let (sender, _others) = copies.senders().split_first()?;
    let block = Brought {
        height: copies.first().view().core().height(),
        payer: *sender,
    };
    let block = charged(config, asked_by, block);
    if block.payer.0 < n { Some(block) } else { None }
}

/// How many blocks of one height are let in on each of so many accounts: `MOST_OF_SENDER`, or fewer where all
/// together could bring as many as a tree takes.
pub(crate) fn most_of_each(replicas: u8) -> usize
    requires { 0 < replicas }
    ensures { result ≡ most_of_each replicas }
{
    MOST_OF_SENDER.min((MOST_OF_HEIGHT - 1) / usize::from(replicas))
}
