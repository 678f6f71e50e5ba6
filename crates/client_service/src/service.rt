ghost use Rattle.std.specs.Prelude.{◌≡◌, ◌-◌, ◌<◌, min, None, true, if◌then◌else◌};
ghost use Rattle.std.specs.Result.{result_ok};
ghost use Rattle.client_service.specs.Links.{Passes, Hears, came, sent};
ghost use Rattle.client_service.specs.Calls.{Listens, Asks, AsksAgain, IsAsked, LooksAndAsks};
ghost use Rattle.tuning.specs.declared.clients.TheConstants.{LATE_TRIES};

use crate::link::Link;
use client_accept::{Receipt, Session};
use connection::Service;
use frames_view::{Frame, read};
use ids::Fault;
use mc_lines::CanonicalText;
use std::alloc::Global;
use tuning::{LATE_TRIES, MOST_TRIES};

/// How many tries are left after one more, and as the link was found then.
fn tries_left(left: u32, is_open: bool) -> u32
    requires { 0 < left }
    ensures { result ≡ (if is_open then left - 1 else min (left - 1) LATE_TRIES) }
{
    if is_open {
        left - 1
    } else {
        (left - 1).min(LATE_TRIES)
    }
}

/// Answers requests by what f + 1 replicas tell, as one client.
#[derive(Drop)]
pub struct ClientService<L> {
    alloc: Global,
    session: Session,
    link: L,
}

impl<L: Link> ClientService<L> {
    /// The service of this session over a link of its client.
    pub fn new(alloc: Global, session: Session, link: L) -> ClientService<L>
        ensures session { result.session ≡ session }
        ensures link { result.link ≡ link }
    {
        ClientService {
            alloc,
            session,
            link,
        }
    }

    /// Whether a request is outstanding: it was given up, and may still be executed. Then each
    /// further call refuses, and no connection can be served until `ask_again` gets its receipt.
    pub fn is_waiting(&self) -> bool
        ensures { result ≡ self.now.session.session.waiting }
    {
        self.session.outstanding().is_some()
    }

    /// Sends the outstanding request to all replicas.
    fn send(&mut self)
        requires { self.old.session.session.waiting ≡ true }
        ensures { Passes L.carries (self.old.session, self.old.link) (sent self.old.session.frame) None
            (self.new.session, self.new.link) }
    {
        if let Some(frame) = self.session.outstanding() {
            self.link.send(frame);
        }
    }

    /// Takes bytes that came for this client. The receipt, where they are the reply that gives it;
    /// others count, or are passed over. A reply that comes late, to a request that was answered, is passed over
    /// before its tag is looked at.
    fn hear(&mut self, bytes: &[u8]) -> Option<Receipt>
        ensures heard { Hears self.old.session (came bytes.now) result self.new.session }
        ensures link { self.new.link ≡ self.old.link }
    {
        let config = self.session.config();
        let Ok(frame) = read(&config, bytes) else {
            return None;
        };
        let Frame::Reply(reply) = frame else {
            return None;
        };
        if !self.session.awaits(reply.seq()) {
            return None;
        }
        match self.session.on_reply(&reply) {
            Ok(receipt) => receipt,
            Err(_) => None,
        }
    }

    /// Takes what comes until there is a receipt, or nothing came in time.
    fn listen(&mut self) -> Option<Receipt>
        ensures { Listens L.carries (self.old.session, self.old.link) result
            (self.new.session, self.new.link) }
    {
        let mut frame = Vec::new(self.alloc);
        for _heard in 0..u64::MAX {
            frame.clear();
            if !self.link.receive(&mut frame) {
                return None;
            }
            if let Some(receipt) = self.hear(frame.as_slice()) {
                return Some(receipt);
            }
        }
        None
    }

    /// Sends the outstanding request to all replicas until there is a receipt. `Busy` where there
    /// is none after all tries, or after two more when the link was found closed.
    fn ask(&mut self) -> Result<Receipt, Fault>
        requires { self.old.session.session.waiting ≡ true }
        ensures { Asks L.carries (self.old.session, self.old.link) (result_ok result)
            (self.new.session, self.new.link) }
    {
        let mut left = MOST_TRIES;
        while left > 0 {
            self.send();
            if let Some(receipt) = self.listen() {
                return Ok(receipt);
            }
            left = tries_left(left, self.link.is_open());
        }
        Err(Fault::Busy)
    }

    /// Asks once more for the receipt of a request that was given up. Once it is there, the next connection can be served.
    pub fn ask_again(&mut self) -> Option<Receipt>
        requires { self.old.session.session.waiting ≡ true }
        ensures { AsksAgain L.carries (self.old.session, self.old.link) result
            (self.new.session, self.new.link) }
    {
        self.send();
        self.listen()
    }

    /// Submits the request that has this text, and asks for its receipt.
    fn submit_text(&mut self, text: &CanonicalText<'_>) -> Result<Receipt, Fault>
        ensures { IsAsked L.carries (self.old.session, self.old.link) text.now (result_ok result)
            (self.new.session, self.new.link) }
    {
        match self.session.submit_text(text) {
            Ok(()) => self.ask(),
            Err(fault) => Err(fault),
        }
    }

    /// Asks for the receipt of the request that has this text. `Stopped` where the link is closed:
    /// nothing is submitted then.
    fn answer(&mut self, payload: &CanonicalText<'_>) -> Result<Receipt, Fault>
        ensures { LooksAndAsks L.carries (self.old.session, self.old.link) payload.now (result_ok result)
            (self.new.session, self.new.link) }
    {
        if !self.link.is_open() {
            return Err(Fault::Stopped);
        }
        self.submit_text(payload)
    }
}

impl<L: Link> Service for ClientService<L> {
    ghost use Rattle.client_service.specs.Calls.{IsCall};

    ghost answers = { λ old payload answer new.
        IsCall L.carries (old.session, old.link) payload answer (new.session, new.link) };

    /// Puts the text of the request's receipt into `text`. It refuses where a request is
    /// outstanding, where memory is refused, and, with `Busy`, where there is no receipt after all
    /// tries. Where the link is closed it refuses at once, with `Stopped`, and
    /// nothing is outstanding that wasn't before.
    fn call(&mut self, payload: &CanonicalText<'_>, text: &mut Vec<u8>) -> Result<(), Fault> {
        let receipt = self.answer(payload)?;
        text.extend_from_slice(&receipt.text)?;
        Ok(())
    }
}
