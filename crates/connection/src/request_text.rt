ghost use Rattle.std.specs.Prelude.{◌≡◌, false, true, OnErr, Err};
ghost use Rattle.ids.specs.declared.fault.Fault.TheVariants.{Memory};
ghost use Rattle.definitions.specs.Canonical.{is_canonical};
ghost use Rattle.definitions.specs.Requests.{canonical, IsRequest};
ghost use Rattle.mc_lines.specs.Meaning.{asked_of};

use ids::Fault;
use mc_lines::{CanonicalText, MOST_CANONICAL, Request, write_request};
use std::alloc::Global;
use std::marker::Model;

/// A request's canonical text, in memory that is taken once.
#[derive(Drop)]
pub(crate) struct RequestText {
    bytes: Vec<u8>,
}

impl Model for RequestText {
    ghost use Rattle.std.specs.Prelude.{ℕ, List, ◌≤◌, vec_capacity};

    ghost Value = { List ℕ };

    ghost view = { λ p. p.bytes.items };

    ghost use Rattle.mc_lines.specs.declared.canonical.TheConstants.{MOST_CANONICAL};

    ghost invariant = { λ p. MOST_CANONICAL ≤ vec_capacity p.bytes };
}

impl RequestText {
    /// An empty one.
    pub(crate) fn new(alloc: Global) -> Result<RequestText, Fault>
        ensures { OnErr result (result ≡ Err Memory) }
    {
        let bytes = Vec::with_capacity(alloc, MOST_CANONICAL)?;
        Ok(RequestText { bytes })
    }

    /// Makes it that of this request.
    pub(crate) fn fill(&mut self, request: &Request<'_>)
        requires { IsRequest (asked_of request.now) false }
        ensures { self.new ≡ canonical (asked_of request.now) }
    {
        self.bytes.clear();
        write_request(request, &mut self.bytes).unwrap();
    }

    /// The text that it was made.
    pub(crate) fn text(&self) -> CanonicalText<'_>
        requires { is_canonical self.now ≡ true }
        ensures { result ≡ self.now }
    {
        CanonicalText::of_written(self.bytes.as_slice())
    }
}
