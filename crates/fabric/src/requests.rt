//! The requests that a replica keeps.

use bytes::Bytes;
use ids::{ClientId, Config, ReplicaId, Seq};
use std::alloc::Global;
use std::collections::BTreeMap;
use suspicion::{ReplicaSet, Suspects, are_enough};

/// A client's request, as it came.
#[derive(Drop)]
struct Request {
    seq: Seq,
    bytes: Bytes,
    /// The other replicas that have it with the same bytes.
    vouchers: ReplicaSet,
}

impl Request {
    /// Whether it came with these bytes.
    fn came_as(&self, bytes: &Bytes) -> bool {
        self.bytes.as_slice() == bytes.as_slice()
    }
}

/// What is to be done with a client's request.
#[derive(Clone, Copy, Debug, PartialEq, Eq)]
pub(crate) enum Entry {
    /// It is let in.
    LetIn,
    /// It isn't, and others are asked for it.
    AskedFor,
    /// It is only kept.
    Kept,
}

/// The requests that a leader takes again which begins anew.
#[derive(Drop)]
pub(crate) struct Again {
    /// Those that are let in.
    pub(crate) let_in: Vec<Bytes>,
    /// Those that others are asked for.
    pub(crate) asked_for: Vec<Bytes>,
}

/// Where the question of a replica for a client's request stands.
fn place_of(client: ClientId, from: ReplicaId) -> u16 {
    u16::from(client.0) << 8 | u16::from(from.0)
}

/// The last request of each client, with who vouches for it; of each replica the last question for a request that isn't
/// here, for each client; and whose requests are let in.
#[derive(Drop)]
pub(crate) struct Requests {
    config: Config,
    kept: BTreeMap<ClientId, Request>,
    questions: BTreeMap<u16, Bytes>,
    pub(crate) suspects: Suspects,
}

impl Requests {
    /// None.
    pub(crate) fn new(alloc: Global, config: Config) -> Requests {
        Requests {
            config,
            kept: BTreeMap::new(alloc),
            questions: BTreeMap::new(alloc),
            suspects: Suspects::new(),
        }
    }

    /// Whether a client's last request came with these bytes.
    pub(crate) fn has(&self, client: ClientId, bytes: &Bytes) -> bool {
        match self.kept.get(&client) {
            Some(request) => request.came_as(bytes),
            None => false,
        }
    }

    /// Whether enough others vouch for a client's last request.
    fn is_vouched(&self, client: ClientId) -> bool {
        match self.kept.get(&client) {
            Some(request) => are_enough(&request.vouchers, self.config),
            None => false,
        }
    }

    /// Keeps the last request of a client. Where memory is refused it isn't kept: its client sends it again.
    pub(crate) fn keep(&mut self, client: ClientId, seq: Seq, bytes: &Bytes) {
        if self.has(client, bytes) {
            return;
        }
        if let Ok(bytes) = bytes.clone() {
            let vouchers = ReplicaSet::none();
            let request = Request {
                seq,
                bytes,
                vouchers,
            };
            let _refused = self.kept.insert(client, request);
        }
    }

    /// Keeps a replica's question for a client's request, which may come yet. How many are kept.
    pub(crate) fn wait_for(&mut self, client: ClientId, from: ReplicaId, bytes: Bytes) -> usize {
        let _refused = self.questions.insert(place_of(client, from), bytes);
        self.questions.len()
    }

    /// Whether a replica asked for a client's request of these bytes, and has no answer. It has one now. How many questions
    /// are kept still.
    pub(crate) fn answer(
        &mut self,
        client: ClientId,
        from: ReplicaId,
        bytes: &Bytes,
    ) -> (bool, usize) {
        let place = place_of(client, from);
        let is_asked = match self.questions.get(&place) {
            Some(asked) => asked.as_slice() == bytes.as_slice(),
            None => false,
        };
        if is_asked {
            let _question = self.questions.remove(&place);
        }
        (is_asked, self.questions.len())
    }

    /// What is to be done at a moment with a client's request of these bytes, by a replica that leads or doesn't.
    pub(crate) fn entry(&self, client: ClientId, bytes: &Bytes, leads: bool, now: u64) -> Entry {
        if self.suspects.is_let_in(client, leads, now) {
            return Entry::LetIn;
        }
        if !leads {
            return Entry::Kept;
        }
        if !self.has(client, bytes) || !self.is_vouched(client) {
            return Entry::AskedFor;
        }
        if self.suspects.is_let_in_vouched(client, now) {
            Entry::LetIn
        } else {
            Entry::Kept
        }
    }

    /// A replica vouches for a client's request of these bytes. Whether it is to be let in now: it is the last that came,
    /// and enough vouch for it for the first time.
    pub(crate) fn vouch(
        &mut self,
        client: ClientId,
        from: ReplicaId,
        bytes: &Bytes,
        now: u64,
    ) -> bool {
        let Some(request) = self.kept.get_mut(&client) else {
            return false;
        };
        if !request.came_as(bytes) || are_enough(&request.vouchers, self.config) {
            return false;
        }
        request.vouchers.add(from);
        if !are_enough(&request.vouchers, self.config) {
            return false;
        }
        self.suspects.vouch(client);
        self.suspects.is_let_in_vouched(client, now)
    }

    /// Whose trial is the next one, of those with requests for which enough others vouch.
    fn next_client(&self, now: u64) -> Option<ClientId> {
        let suspects = &self.suspects;
        let mut next: Option<ClientId> = None;
        for (client, request) in &self.kept {
            if !are_enough(&request.vouchers, self.config) {
                continue;
            }
            let is_sooner = match next {
                Some(other) => suspects.place(*client) < suspects.place(other),
                None => true,
            };
            if is_sooner && suspects.is_due(*client, now) {
                next = Some(*client);
            }
        }
        next
    }

    /// The request of the next trial, which begins now, if one may.
    pub(crate) fn next_trial(&mut self, now: u64) -> Option<Bytes> {
        if !self.suspects.may_try(now) {
            return None;
        }
        let client = self.next_client(now)?;
        let request = self.kept.get(&client)?;
        let bytes = request.bytes.clone().ok()?;
        self.suspects.try_client(client, request.seq, now);
        Some(bytes)
    }

    /// What was kept, as far as it is let in, or asked for, by a replica that leads or doesn't.
    pub(crate) fn again(&self, alloc: Global, leads: bool, now: u64) -> Again {
        let (mut let_in, mut asked_for) = (Vec::new(alloc), Vec::new(alloc));
        for (client, request) in &self.kept {
            let Ok(bytes) = request.bytes.clone() else {
                continue;
            };
            let _refused = match self.entry(*client, &request.bytes, leads, now) {
                Entry::LetIn => let_in.push(bytes),
                Entry::AskedFor => asked_for.push(bytes),
                Entry::Kept => Ok(()),
            };
        }
        Again { let_in, asked_for }
    }

    /// Nobody is suspected any more. Who isn't cleared by then, as not enough others vouched for its last request, is doubted.
    pub(crate) fn end(&mut self, now: u64) {
        for (client, request) in &self.kept {
            if !are_enough(&request.vouchers, self.config) && self.suspects.is_suspected(*client) {
                self.suspects.doubt(*client, now);
            }
        }
        self.suspects.end();
    }
}
