//! Vectors: the tags of one content for all replicas, hashed in lanes.
//!
//! Lane j of group g is replica 4 g + j. Where the last group has more lanes, they repeat the last replica.

ghost use Rattle.std.specs.Prelude.{◌≡◌, ◌<◌, ◌≤◌, ◌+◌, ◌*◌, ◌/◌, ◌%◌, ◌++◌, ℕ, length, IsTrue};
ghost use Rattle.definitions.specs.Bytes.{Bytes};
ghost use Rattle.definitions.specs.Writing.{IsAppended};
ghost use Rattle.ids.specs.Sizes.{replicas};
ghost use Rattle.sha2.specs.Sha256.{digest_bytes};
ghost use Rattle.lanes.specs.Lanes.{group_lane, state_lane};
ghost use Rattle.lanes.specs.Texts.{after_text};
ghost use Rattle.definitions.specs.Tags.{hmac};
ghost use Rattle.definitions.specs.Keyrings.{is_peer, keyring_of, tag_for, vector_for};
ghost use Rattle.authenticators.specs.Keyed.{after_key, begun_for};
ghost use Rattle.authenticators.specs.declared.vectors.TheConstants.{HEAD, LANES, MOST_GROUPS};

use crate::keyring::{Keyring, head};
use ids::{Fault, Kind, PartyId};
use lanes::{Group, after_digests, after_first, after_rests, digest_of, in_lanes};
use std::simd::prelude::*;

/// How many tags a group is.
const LANES: usize = 4;

/// Groups for the most replicas.
const MOST_GROUPS: usize = 8;

/// The bytes before the content under a tag.
pub(crate) const HEAD: usize = 5;

impl Keyring {
    /// Appends a vector: one tag for each replica, in order. `Memory` comes only where the spare room was too
    /// small, and `out` is as before then.
    #[tactic(auto, unfolding(definitions::specs::Keyrings::tags_for))]
    pub fn vector(&self, label: Kind, content: &[u8], out: &mut Vec<u8>) -> Result<(), Fault>
        ensures { IsAppended out.old out.new
            (vector_for self.now.sizes (keyring_of self.now) label content.now) result }
    {
        let n = self.config().n();
        out.reserve(32 * usize::from(n))?;
        let mut groups = [[u32x4::splat(0); 8]; MOST_GROUPS];
        self.make_macs(label, content, &mut groups);
        for u in 0..n {
            let place = usize::from(u);
            let tag = digest_of(&groups[place / LANES], place % LANES);
            let to = PartyId(u16::from(u));
            self.remember_own(label, to, &head(label, self.party(), to), content, &tag);
            out.extend_from_slice(&tag).unwrap();
        }
        Ok(())
    }

    /// The hash values that the tags of a vector are, in the first groups.
    #[tactic(auto, unfolding(definitions::specs::Keyrings::tag_for))]
    fn make_macs(&self, label: Kind, content: &[u8], groups: &mut [Group; MOST_GROUPS])
        ensures { (u : ℕ) → u < replicas self.now.sizes
            → digest_bytes (group_lane groups.new (u / LANES) (u % LANES)) 8
            ≡ tag_for (keyring_of self.now) label u content.now }
    {
        let used = usize::from(self.config().n()).div_ceil(LANES);
        let groups = &mut groups[..used];
        self.begin(label, content, groups);
        after_rests(groups, HEAD, content);
        self.finish(groups);
    }

    /// The inner hash values after the first block of each text.
    fn begin(&self, label: Kind, content: &[u8], groups: &mut [Group])
        requires { length groups.old ≤ MOST_GROUPS }
        ensures length { length groups.new ≡ length groups.old }
        ensures lanes { let ring = keyring_of self.now in (g j : ℕ) → g < length groups.old → j < LANES
            → LANES * g + j < replicas self.now.sizes
            → group_lane groups.new g j ≡ begun_for ring label (LANES * g + j) content.now }
    {
        for g in 0..groups.len() {
            groups[g] = self.begun(label, content, g);
        }
    }

    /// Those of one group.
    fn begun(&self, label: Kind, content: &[u8], g: usize) -> Group
        requires { g < MOST_GROUPS }
        ensures { let ring = keyring_of self.now in (j : ℕ) → j < LANES
            → LANES * g + j < replicas self.now.sizes
            → state_lane result j ≡ begun_for ring label (LANES * g + j) content.now }
    {
        let a = self.replica(LANES * g);
        let b = self.replica(LANES * g + 1);
        let c = self.replica(LANES * g + 2);
        let d = self.replica(LANES * g + 3);
        let states = in_lanes(
            &self.key(a).states().inner,
            &self.key(b).states().inner,
            &self.key(c).states().inner,
            &self.key(d).states().inner,
        );
        let me = self.party();
        after_first(
            &states,
            &head(label, me, a),
            &head(label, me, b),
            &head(label, me, c),
            &head(label, me, d),
            content,
        )
    }

    /// The outer hash values, in place of the inner ones.
    fn finish(&self, groups: &mut [Group])
        requires { length groups.old ≤ MOST_GROUPS }
        ensures length { length groups.new ≡ length groups.old }
        ensures macs { let ring = keyring_of self.now in (g j : ℕ) (text : Bytes)
            → g < length groups.old → j < LANES
            → LANES * g + j < replicas self.now.sizes
            → group_lane groups.old g j ≡ after_text (after_key 0x36 (ring.key (LANES * g + j))) text
            → digest_bytes (group_lane groups.new g j) 8 ≡ hmac (ring.key (LANES * g + j)) text }
    {
        for g in 0..groups.len() {
            groups[g] = self.finished(&groups[g], g);
        }
    }

    /// Those of one group.
    fn finished(&self, inner: &Group, g: usize) -> Group
        requires { g < MOST_GROUPS }
        ensures { let ring = keyring_of self.now in (j : ℕ) (text : Bytes) → j < LANES
            → LANES * g + j < replicas self.now.sizes
            → state_lane inner.now j ≡ after_text (after_key 0x36 (ring.key (LANES * g + j))) text
            → digest_bytes (state_lane result j) 8 ≡ hmac (ring.key (LANES * g + j)) text }
    {
        let outer = in_lanes(
            &self.key(self.replica(LANES * g)).states().outer,
            &self.key(self.replica(LANES * g + 1)).states().outer,
            &self.key(self.replica(LANES * g + 2)).states().outer,
            &self.key(self.replica(LANES * g + 3)).states().outer,
        );
        after_digests(&outer, inner)
    }

    /// The replica of this number; behind the last one, the last one again.
    fn replica(&self, u: usize) -> PartyId
        ensures peer { IsTrue (is_peer self.now result) }
        ensures within { u < replicas self.now.sizes → result ≡ u }
    {
        let last = self.config().n() - 1;
        PartyId(u.min(usize::from(last)) as u16)
    }
}
