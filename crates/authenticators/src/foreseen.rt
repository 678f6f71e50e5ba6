//! Tags that are going to be verified: those of one content from four senders, hashed in lanes.

ghost use Rattle.std.specs.Prelude.{◌≡◌, ◌<◌, IsTrue};
ghost use Rattle.std.specs.List.{All};
ghost use Rattle.sha2.specs.Sha256.{digest_bytes};
ghost use Rattle.lanes.specs.Lanes.{state_lane};
ghost use Rattle.definitions.specs.Keyrings.{is_peer, keyring_of};
ghost use Rattle.authenticators.specs.Keyed.{right_from};

use crate::keyring::{Keyring, head};
use crate::vectors::HEAD;
use ids::{Kind, PartyId};
use lanes::{Group, after_digests, after_first, after_rests, digest_of, in_lanes};

impl Keyring {
    /// The hash values that the right tags of a content from four senders are.
    fn macs_from(
        &self,
        label: Kind,
        a: PartyId,
        b: PartyId,
        c: PartyId,
        d: PartyId,
        content: &[u8],
    ) -> Group
        requires a { IsTrue (is_peer self.now a) }
        requires b { IsTrue (is_peer self.now b) }
        requires c { IsTrue (is_peer self.now c) }
        requires d { IsTrue (is_peer self.now d) }
        ensures a { digest_bytes (state_lane result 0) 8 ≡ right_from (keyring_of self.now) label a content.now }
        ensures b { digest_bytes (state_lane result 1) 8 ≡ right_from (keyring_of self.now) label b content.now }
        ensures c { digest_bytes (state_lane result 2) 8 ≡ right_from (keyring_of self.now) label c content.now }
        ensures d { digest_bytes (state_lane result 3) 8 ≡ right_from (keyring_of self.now) label d content.now }
    {
        let me = self.party();
        let of_a = self.key(a).states();
        let of_b = self.key(b).states();
        let of_c = self.key(c).states();
        let of_d = self.key(d).states();
        let inner = in_lanes(&of_a.inner, &of_b.inner, &of_c.inner, &of_d.inner);
        let first = after_first(
            &inner,
            &head(label, a, me),
            &head(label, b, me),
            &head(label, c, me),
            &head(label, d, me),
            content,
        );
        let mut groups = [first];
        after_rests(&mut groups, HEAD, content);
        let outer = in_lanes(&of_a.outer, &of_b.outer, &of_c.outer, &of_d.outer);
        after_digests(&outer, &groups[0])
    }

    /// Whether the right tag of a content from a sender is remembered.
    fn knows(&self, label: Kind, from: PartyId, content: &[u8]) -> bool
        requires { IsTrue (is_peer self.now from) }
    {
        let head = head(label, from, self.party());
        self.known(label, from, &head, content).is_some()
    }

    /// Remembers the tag that a lane is.
    fn remember_lane(&self, label: Kind, from: PartyId, content: &[u8], group: &Group, lane: usize)
        requires peer { IsTrue (is_peer self.now from) }
        requires lane { lane < 4 }
        requires right { digest_bytes (state_lane group.now lane) 8
            ≡ right_from (keyring_of self.now) label from content.now }
    {
        let head = head(label, from, self.party());
        self.remember(label, from, &head, content, &digest_of(group, lane));
    }

    /// Says that tags of a content from four senders are going to be verified: unless about half of the right ones are
    /// remembered, all are hashed together, and remembered. It changes what `verify` costs, and not what it answers.
    pub(crate) fn foresee(&self, label: Kind, from: &[PartyId; 4], content: &[u8])
        requires { All (λ sender. IsTrue (is_peer self.now sender)) from.now }
    {
        let [a, b, c, d] = *from;
        if !self.remembers()
            || self.knows(label, a, content) && self.knows(label, b, content)
            || self.knows(label, c, content) && self.knows(label, d, content)
        {
            return;
        }
        let group = self.macs_from(label, a, b, c, d, content);
        self.remember_lane(label, a, content, &group, 0);
        self.remember_lane(label, b, content, &group, 1);
        self.remember_lane(label, c, content, &group, 2);
        self.remember_lane(label, d, content, &group, 3);
    }
}
