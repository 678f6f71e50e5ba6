ghost use Rattle.std.specs.Prelude.{◌≡◌, ◌<◌, ◌+◌, ◌*◌, ◌++◌, ◌↔◌, [], length, IsTrue, IsOk, IfOk, IfSome, OnErr};
ghost use Rattle.definitions.specs.Writing.{IsAppended};
ghost use Rattle.ids.specs.Sizes.{IsRoom};
ghost use Rattle.definitions.specs.Tags.{hmac, tag_text};
ghost use Rattle.definitions.specs.Keyrings.{keys_due, is_peer, place_of, keyring_of, tag_for, verify};
ghost use Rattle.definitions.specs.Keyrings.{vector_for};

use crate::known_tags::KnownTags;
use crate::shared_key::SharedKey;
use ids::{Config, Fault, Kind, PartyId};
use std::alloc::{AllocError, Global};
use std::marker::Model;
use std::sync::Arc;

/// The keys of one party. It makes tags for its peers and verifies theirs.
///
/// Two replicas are peers, one replica with itself included, and so are a replica and a client; two
/// clients are not.
#[derive(Drop)]
pub struct Keyring {
    config: Config,
    party: PartyId,
    keys: Vec<SharedKey>,
    /// What was found right a short while ago, so that it isn't hashed again.
    known: Option<Arc<KnownTags>>,
}

impl Model for Keyring {
    ghost use Rattle.std.specs.Prelude.{◌≡◌, length};
    ghost use Rattle.definitions.specs.Keyrings.{Keys, keys_due};

    ghost Value = { Keys };

    ghost view = { λ k. record { sizes = k.config; party = k.party; keys = k.keys.items } };

    ghost invariant = { λ k. length k.keys.items ≡ keys_due k.config k.party };
}

impl Keyring {
    /// The keyring of a party, of its key with each replica in order, and then, where it is a
    /// replica, with each client.
    pub fn new(config: Config, party: PartyId, keys: Vec<SharedKey>) -> Keyring
        requires { length keys.items ≡ keys_due config party }
        ensures { result ≡ record { sizes = config; party = party; keys = keys.items } }
    {
        Keyring {
            config,
            party,
            keys,
            known: None,
        }
    }

    /// The same keys, with room to remember tags: one that was found to be right, was foreseen, or was made by the party
    /// for itself isn't hashed again until another of the same peer takes its place. It changes what calls cost, and not what
    /// they answer.
    pub fn remembering(self, alloc: Global) -> Result<Keyring, AllocError>
        ensures { IfOk result (λ k. k ≡ self) }
    {
        let rows = self.keys.len() + usize::from(self.config.n());
        let known = Arc::new(alloc, KnownTags::new(alloc, rows)?)?;
        Ok(Keyring {
            known: Some(known),
            ..self
        })
    }

    /// A second keyring of the same keys, for a party whose keys are wanted in two places. What one remembers the
    /// other knows.
    pub fn duplicate(&self, alloc: Global) -> Result<Keyring, AllocError>
        ensures { IfOk result (λ k. k ≡ self.now) }
    {
        Ok(Keyring {
            config: self.config,
            party: self.party,
            keys: copied(alloc, self.keys.as_slice())?,
            known: match &self.known {
                Some(known) => Some(Arc::try_clone(known)?),
                None => None,
            },
        })
    }

    /// The same keys, in a deployment whose caches have room for so many keys: 1 to `MOST_KEYS`, else
    /// `BadKeys`.
    pub fn with_most_keys(self, most_keys: usize) -> Result<Keyring, Fault>
        ensures made { IfOk result (λ k. k
            ≡ record self { sizes = record self.sizes { most_keys = most_keys } }) }
        ensures refused { OnErr result (result ≡ Err Fault.BadKeys) }
        ensures only { IsOk result ↔ IsRoom most_keys }
    {
        let config = self.config.with_most_keys(most_keys)?;
        Ok(Keyring { config, ..self })
    }

    /// The party whose keys these are.
    pub fn party(&self) -> PartyId
        ensures { result ≡ self.now.party }
    {
        self.party
    }

    /// The sizes that it was made with.
    pub fn config(&self) -> Config
        ensures { result ≡ self.now.sizes }
    {
        self.config
    }

    /// The tag of a content for a receiver. Its label is the kind of frame that it stands in.
    #[tactic(auto, unfolding(definitions::specs::Keyrings::tag_for))]
    pub fn tag(&self, label: Kind, to: PartyId, content: &[u8]) -> [u8; 32]
        requires { IsTrue (is_peer self.now to) }
        ensures { result ≡ tag_for (keyring_of self.now) label to content.now }
    {
        let head = head(label, self.party, to);
        let tag = self.key(to).hmac_of_parts(&head, content);
        self.remember_own(label, to, &head, content, &tag);
        tag
    }

    /// Whether this is the tag of a content from a sender. All 32 bytes are compared, wherever
    /// they differ.
    #[tactic(auto, unfolding(definitions::specs::Keyrings::verify))]
    pub fn verify(&self, label: Kind, from: PartyId, content: &[u8], tag: &[u8; 32]) -> bool
        requires { IsTrue (is_peer self.now from) }
        ensures { result ≡ verify (keyring_of self.now) label from content.now tag.now }
    {
        let head = head(label, from, self.party);
        if let Some(right) = self.known(label, from, &head, content) {
            return are_equal(tag, &right);
        }
        let right = self.key(from).hmac_of_parts(&head, content);
        let is_right = are_equal(tag, &right);
        if is_right {
            self.remember(label, from, &head, content, &right);
        }
        is_right
    }

    /// Whether it remembers tags.
    pub(crate) fn remembers(&self) -> bool {
        self.known.is_some()
    }

    /// Where a tag of a peer is remembered: votes stand by themselves, since other frames of their voters come between.
    fn row(&self, label: Kind, peer: PartyId) -> usize
        requires { IsTrue (is_peer self.now peer) }
    {
        match label {
            Kind::Vote => self.keys.len() + usize::from(peer.0),
            _ => self.place(peer),
        }
    }

    /// The HMAC of what stands under a tag, under the key that is shared with a peer, where it is known.
    pub(crate) fn known(
        &self,
        label: Kind,
        peer: PartyId,
        head: &[u8; 5],
        content: &[u8],
    ) -> Option<[u8; 32]>
        requires { IsTrue (is_peer self.now peer) }
        ensures { IfSome result
            (λ tag. tag ≡ hmac ((keyring_of self.now).key peer) (head.now ++ content.now)) }
    {
        let known = self.known.as_ref()?;
        known.find(self.row(label, peer), self.key(peer).bytes(), head, content)
    }

    /// Remembers the HMAC of what stands under a tag.
    pub(crate) fn remember(
        &self,
        label: Kind,
        peer: PartyId,
        head: &[u8; 5],
        content: &[u8],
        tag: &[u8; 32],
    )
        requires peer { IsTrue (is_peer self.now peer) }
        requires right { tag.now ≡ hmac ((keyring_of self.now).key peer) (head.now ++ content.now) }
    {
        if let Some(known) = &self.known {
            known.put(
                self.row(label, peer),
                self.key(peer).bytes(),
                head,
                content,
                tag,
            );
        }
    }

    /// Remembers a tag that the party made for itself, and no other.
    pub(crate) fn remember_own(
        &self,
        label: Kind,
        to: PartyId,
        head: &[u8; 5],
        content: &[u8],
        tag: &[u8; 32],
    )
        requires peer { IsTrue (is_peer self.now to) }
        requires right { tag.now ≡ hmac ((keyring_of self.now).key to) (head.now ++ content.now) }
    {
        if to == self.party {
            self.remember(label, to, head, content, tag);
        }
    }

    /// The key that is shared with a peer.
    pub(crate) fn key(&self, peer: PartyId) -> &SharedKey
        requires { IsTrue (is_peer self.now peer) }
        ensures { result.now ≡ (keyring_of self.now).key peer }
    {
        &self.keys[self.place(peer)]
    }

    /// Where the key with a peer stands.
    fn place(&self, peer: PartyId) -> usize
        requires { IsTrue (is_peer self.now peer) }
        ensures place { result ≡ place_of self.now.sizes peer }
        ensures within { result < length self.now.keys }
    {
        match peer.client() {
            None => usize::from(peer.0),
            Some(client) => usize::from(self.config.n()) + usize::from(client),
        }
    }
}

/// The same keys again.
fn copied(alloc: Global, keys: &[SharedKey]) -> Result<Vec<SharedKey>, AllocError>
    ensures { IfOk result (λ copy. copy.items ≡ keys.now) }
{
    let mut copy = Vec::with_capacity(alloc, keys.len())?;
    for key in keys {
        copy.push_reserved(key.copied());
    }
    Ok(copy)
}

/// What stands before the content under a tag: the label, the sender and the receiver.
pub(crate) fn head(label: Kind, sender: PartyId, receiver: PartyId) -> [u8; 5]
    ensures { result ≡ tag_text label sender receiver [] }
{
    let [s0, s1] = sender.0.to_be_bytes();
    let [r0, r1] = receiver.0.to_be_bytes();
    [label.number(), s0, s1, r0, r1]
}

/// Whether all bytes are equal. Each pair is looked at, wherever they differ; the loop itself compares nothing.
fn are_equal(a: &[u8; 32], b: &[u8; 32]) -> bool
    ensures { IsTrue result ↔ (a.now ≡ b.now) }
{
    let mut differing: u8 = 0;
    for i in 0..32 {
        differing |= a[i] ^ b[i];
    }
    differing == 0
}
