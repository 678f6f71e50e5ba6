//! The pool of pending requests.

ghost use Rattle.ids.specs.declared.limits.TheConstants.{MOST_PENDING};
ghost use Rattle.std.specs.Prelude.{◌≡◌, ◌==◌, ◌≤◌, ◌↔◌, ◌⊎◌, [], not, false, length, map, filter, IfOk};
ghost use Rattle.std.specs.Prelude.{OnOk, OnErr};
ghost use Rattle.std.specs.List.{list_any};
ghost use Rattle.definitions.specs.Chronicles.{Step.noted, Note.got_request};
ghost use Rattle.definitions.specs.States.{is_same_request, with_request};
ghost use Rattle.std.specs.Prelude.{reverse};
ghost use Rattle.definitions.specs.Histories.{entry_of};
ghost use Rattle.frames_view.specs.Views.{command_of, commands_left};
ghost use Rattle.mempool.specs.Pool.{is_of, is_overtaken, is_up_to, left_after, stands_among, planned_for};
ghost use Rattle.mempool.specs.Pool.{first_beside};

use crate::pending::Pending;
use crate::request_id::RequestId;
use frames_view::{CommandView, Commands};
use ids::{ClientId, Fault, MOST_COMMANDS, MOST_PENDING, Seq};
use indexmap::IndexMap;
use std::alloc::{AllocError, Global};
use std::marker::Model;

/// The pending requests of a replica, in order of arrival. Each has a client and a number of its own.
#[derive(Debug, Drop)]
pub struct Mempool {
    alloc: Global,
    requests: IndexMap<RequestId, Pending>,
}

impl Model for Mempool {
    ghost use Rattle.std.specs.Prelude.{◌≡◌, List};
    ghost use Rattle.definitions.specs.Frames.{Command};
    ghost use Rattle.indexmap.specs.IndexMap.{values};
    ghost use Rattle.mempool.specs.Pool.{keyed};

    ghost Value = { List Command };

    ghost view = { λ pool. values pool.requests };

    ghost invariant = { λ pool. pool.requests.entries ≡ keyed (values pool.requests) };
}

impl Mempool {
    /// A pool where nothing is pending. It takes no memory yet.
    pub fn new(alloc: Global) -> Mempool
        ensures { result ≡ [] }
    {
        Mempool {
            alloc,
            requests: IndexMap::new(alloc),
        }
    }

    /// How many requests are pending.
    pub fn len(&self) -> usize
        ensures { result ≡ length self.now }
    {
        self.requests.len()
    }

    /// Whether none is pending.
    pub fn is_empty(&self) -> bool
        ensures { result ≡ (length self.now == 0) }
    {
        self.requests.is_empty()
    }

    /// Whether the request of this client and number is pending.
    pub fn contains(&self, client: ClientId, seq: Seq) -> bool
        ensures { result ≡ list_any (is_of client seq) self.now }
    {
        self.requests.contains_key(&RequestId { client, seq })
    }

    /// What `insert` needs to add a request, with its bytes; nothing where its client and number are pending.
    ///
    /// `PoolFull` comes where 4,096 others are pending, and `Memory` where its bytes find no room.
    pub fn plan(&self, request: &CommandView<'_>) -> Result<Option<Pending>, Fault>
        ensures planned { IfOk result (λ planned. planned ≡ planned_for (command_of request.now) self.now) }
        ensures full { (result ≡ Err Fault.PoolFull)
            ↔ ((list_any (is_same_request (command_of request.now)) self.now ≡ false)
            × (MOST_PENDING ≤ length self.now)) }
        ensures refused { OnErr result ((result ≡ Err Fault.PoolFull) ⊎ (result ≡ Err Fault.Memory)) }
    {
        if self.contains(request.client(), request.seq()) {
            return Ok(None);
        }
        if self.requests.len() >= MOST_PENDING {
            return Err(Fault::PoolFull);
        }
        Ok(Some(Pending::new(self.alloc, request)?))
    }

    /// Adds a request last; one whose client and number are pending changes nothing. Where memory is
    /// refused, the pool is as before.
    pub fn insert(&mut self, request: Pending) -> Result<(), AllocError>
        ensures added { OnOk result (self.new ≡ with_request (noted (got_request request)) self.old) }
        ensures unchanged { OnErr result (self.new ≡ self.old) }
    {
        let (client, seq) = (request.client(), request.seq());
        if self.contains(client, seq) {
            return Ok(());
        }
        self.requests.insert(RequestId { client, seq }, request)?;
        Ok(())
    }

    /// Lets all requests of a client go whose numbers are at most this one. It takes no memory.
    pub fn drop_executed(&mut self, client: ClientId, seq: Seq)
        ensures { self.new ≡ filter (λ r. not (is_up_to client seq r)) self.old }
    {
        self.requests.retain(
            |_id: &RequestId, request: &mut Pending| -> bool
                ensures { (result ≡ not (is_up_to client seq request.old)) × (request.new ≡ request.old) }
            { !request.is_up_to(client, seq) },
        );
    }

    /// Lets all requests go that these executed commands answer or overtake, as `drop_executed` called for
    /// each of them in order. It passes over the requests once, and takes no memory.
    pub fn drop_all_executed(&mut self, executed: Commands<'_>)
        ensures { self.new ≡ left_after (reverse (map entry_of (commands_left executed.entry))) self.old }
    {
        self.requests.retain(
            |_id: &RequestId, request: &mut Pending| -> bool
                ensures { (result ≡ not (is_overtaken (commands_left executed.entry) request.old))
                    × (request.new ≡ request.old) }
            { !request.is_overtaken(executed) },
        );
    }

    /// Lets all requests go. It takes no memory.
    pub fn forget_all(&mut self)
        ensures { self.new ≡ [] }
    {
        self.requests = IndexMap::new(self.alloc);
    }

    /// The first 16 requests whose client and number are not among those of `on`, in order of
    /// arrival. `on` is of the commands that stand on a branch, in any order.
    pub fn pick(&self, on: &[RequestId]) -> Result<Vec<&Pending>, AllocError>
        ensures { IfOk result (λ v. map (λ r. r.now) v.items ≡ first_beside on.now self.now) }
    {
        self.requests
            .values()
            .filter(|request| !request.stands_among(on))
            .take(MOST_COMMANDS)
            .collect(self.alloc)
    }
}
