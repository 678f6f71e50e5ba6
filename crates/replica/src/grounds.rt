//! Blocks that are taken though their certificates aren't good for this replica.

ghost use Rattle.std.specs.Prelude.{◌≡◌, [], Some, None, if◌then◌else◌, nat_lt};
ghost use Rattle.std.specs.List.{list_all};
ghost use Rattle.ids.specs.Sizes.{replicas};
ghost use Rattle.definitions.specs.Checks.{identity_of, counted_voters};
ghost use Rattle.definitions.specs.Grounds.{are_distinct, are_replicas};
ghost use Rattle.replica.specs.Grounds.{is_own, IsOwnIf, IsOffer, IsRelay};
ghost use Rattle.replica.specs.Kept.{AreCertified};

use crate::blocks::decide_block;
use crate::change::Change;
use crate::offer::Offer;
use crate::state::State;
use authenticators::ReplicaKeyring;
use block_tree::Place;
use certificates::{ReplicaRow, counted_voters};
use frames_view::CertificateBuf;
use ids::{Config, Digest, Fault, ReplicaId};

/// Whether no replica is named twice.
#[tactic(auto, unfolding(definitions::specs::Grounds::are_distinct))]
fn are_distinct(named: &[ReplicaId]) -> bool
    ensures { result ≡ are_distinct named.now }
{
    let mut rest = named;
    while let Some((first, others)) = rest.split_first() {
        if others.contains(first) {
            return false;
        }
        rest = others;
    }
    true
}

/// Whether each of these is a replica.
fn are_known(config: &Config, named: &[ReplicaId]) -> bool
    ensures { result ≡ list_all (λ v. nat_lt v (replicas config.now)) named.now }
{
    let n = config.n();
    named.iter().all(|replica| replica.0 < n)
}

/// Whether these are distinct replicas, and at least so many.
#[tactic(auto, unfolding(definitions::specs::Grounds::are_replicas))]
pub(crate) fn are_replicas(config: &Config, least: usize, named: &[ReplicaId]) -> bool
    ensures { result ≡ are_replicas config.now least named.now }
{
    are_distinct(named) && (are_known(config, named) && least <= named.len())
}

/// The voters of the highest certificate whose tags verify, where it is for the block of this digest and they are a
/// quorum.
pub(crate) fn own_voters(
    state: &State,
    keyring: &ReplicaKeyring,
    block: &Digest,
) -> Option<ReplicaRow>
    requires certified { AreCertified keyring.now.sizes state.now.variables }
    ensures { result ≡ (if is_own keyring.now state.now.variables block.now
        then Some (counted_voters (identity_of keyring.now) state.now.variables.high.certificate)
        else None) }
{
    if state.high.block.digest != *block {
        return None;
    }
    let config = keyring.config();
    let voters = counted_voters(keyring.verifying(), &state.high.certificate.view());
    if are_replicas(&config, usize::from(config.quorum()), voters.as_slice()) {
        Some(voters)
    } else {
        None
    }
}

/// A new block whose certificate isn't good for this replica and that no block of the tree backs: it is taken with the
/// own highest certificate, where that is for what it justifies. Else `BadTag`.
fn take_own(state: &State, keyring: &ReplicaKeyring, offer: &Offer) -> Result<Change, Fault>
    requires certified { AreCertified keyring.now.sizes state.now.variables }
    ensures { IsOwnIf keyring.now state.now offer.now result
        (is_own keyring.now state.now.variables offer.now.certificate.digest) }
{
    match own_voters(state, keyring, &offer.justified().digest) {
        Some(voters) => {
            let certificate = state.high.certificate.view();
            decide_block(state, keyring, &offer.with(certificate, voters.as_slice()))
        }
        None => Err(Fault::BadTag),
    }
}

/// A certificate of the block of a digest, without votes.
pub(crate) fn without_votes(
    state: &State,
    keyring: &ReplicaKeyring,
    block: Digest,
) -> CertificateBuf
    ensures { result ≡ record { digest = block; votes = [] } }
{
    CertificateBuf::without_votes(state.alloc, keyring.config(), block)
}

/// What a block comes to whose certificate isn't good for this replica.
pub(crate) fn decide_offer(
    state: &State,
    keyring: &ReplicaKeyring,
    offer: &Offer,
) -> Result<Change, Fault>
    requires certified { AreCertified keyring.now.sizes state.now.variables }
    ensures { IsOffer keyring.now state.now offer.now result }
{
    let block = offer.justified().digest;
    let certificate = without_votes(state, keyring, block);
    let bare = offer.with(certificate.view(), &[]);
    match state
        .tree
        .placing(&bare.core.digest(), &bare.core, &bare.certificate)?
    {
        Place::Stands => decide_block(state, keyring, &bare),
        Place::Grows => {
            if state.tree.is_justified(&block) {
                decide_block(state, keyring, &bare)
            } else {
                take_own(state, keyring, &bare)
            }
        }
    }
}

/// What copies of one block from several replicas come to.
pub(crate) fn decide_relay(
    state: &State,
    keyring: &ReplicaKeyring,
    offer: &Offer,
) -> Result<Change, Fault>
    ensures { IsRelay keyring.now state.now offer.now result }
{
    let certificate = without_votes(state, keyring, offer.justified().digest);
    let bare = offer.with(certificate.view(), &[]);
    match state
        .tree
        .placing(&bare.core.digest(), &bare.core, &bare.certificate)?
    {
        Place::Stands => decide_block(state, keyring, &bare),
        Place::Grows => {
            let config = keyring.config();
            let least = usize::from(config.faults()) + 1;
            if are_replicas(&config, least, bare.senders) {
                decide_block(state, keyring, &bare)
            } else {
                Err(Fault::BadTag)
            }
        }
    }
}
