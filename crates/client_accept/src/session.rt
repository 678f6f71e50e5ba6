//! The session of a client.

ghost use Rattle.std.specs.Prelude.{◌≡◌, ◌<◌, ◌==◌, ◌&&◌, ◌∷◌, [], if◌then◌else◌, true, false, Some, None};
ghost use Rattle.std.specs.Prelude.{option_map};
ghost use Rattle.std.specs.Prelude.{is_none, IfOk, OnOk, OnErr};
ghost use Rattle.ids.specs.Sizes.{client_party};
ghost use Rattle.definitions.specs.Canonical.{is_canonical};
ghost use Rattle.definitions.specs.Requests.{IsRequest, canonical};
ghost use Rattle.definitions.specs.Frames.{spelling};
ghost use Rattle.definitions.specs.FrameLimits.{IsFrame};
ghost use Rattle.definitions.specs.Sessions.{new_session, session_behind, request_frame, submission};
ghost use Rattle.definitions.specs.Sessions.{on_reply};
ghost use Rattle.definitions.specs.Keyrings.{client_at};
ghost use Rattle.definitions.specs.Checks.{identity_of};
ghost use Rattle.definitions.specs.Admission.{own_tag_verifies};
ghost use Rattle.frames_view.specs.Views.{reply_of};
ghost use Rattle.frames_view.specs.Fields.{frame_replica, frame_place, frame_text};
ghost use Rattle.mc_lines.specs.Meaning.{asked_of};
ghost use Rattle.signed_frames.specs.Clients.{client_of};
ghost use Rattle.client_accept.specs.Sessions.{memory_of, IsSubmitted, IsSubmittedInto, frame_after, heard_of};
ghost use Rattle.client_accept.specs.Sessions.{next_seq};
ghost use Rattle.client_accept.specs.Sessions.{admission, receipt_at};

use crate::receipt::Receipt;
use crate::tally::Tally;
use authenticators::Keyring;
use frame_writers::Payload;
use frames_view::ReplyView;
use ids::{ClientId, Config, Fault, Kind, PartyId, Seq};
use mc_lines::{CanonicalText, Request, write_request};
use signed_frames::request_frame;
use std::alloc::Global;
use std::marker::Model;

/// The session of a client: its keys, the number of its last request, and what replicas told of it.
#[derive(Drop)]
pub struct Session {
    alloc: Global,
    config: Config,
    client: ClientId,
    keyring: Keyring,
    /// The number of the last request, or the one that the client goes on behind.
    used: u64,
    /// Whether it is outstanding.
    waiting: bool,
    tally: Tally,
    /// The bytes of the last request's frame.
    frame: Vec<u8>,
}

impl Model for Session {
    ghost use Rattle.std.specs.Prelude.{◌≡◌, ◌<◌};
    ghost use Rattle.ids.specs.Sizes.{client_party};
    ghost use Rattle.client_accept.specs.Sessions.{Held};

    ghost Value = { Held };

    ghost view = { λ s. record {
      keys = s.keyring;
      session = record { used = s.used; waiting = s.waiting; tally = s.tally };
      frame = s.frame.items;
    } };

    ghost invariant = { λ s. (s.config ≡ s.keyring.sizes) × (client_party s.client ≡ s.keyring.party)
        × (s.client < s.config.clients) };
}

impl Session {
    /// The session of a client that has sent nothing. It takes no memory yet.
    pub fn new(alloc: Global, config: Config, client: ClientId, keyring: Keyring) -> Session
        requires sizes { config ≡ keyring.sizes }
        requires number { client_party client ≡ keyring.party }
        requires client { client < config.clients }
        ensures { result ≡ record { keys = keyring; session = new_session; frame = [] } }
    {
        Session::resume(alloc, config, client, keyring, Seq(0))
    }

    /// The session of a client that goes on behind a number, say after a restart: its next request has the
    /// number above. It takes no memory yet.
    ///
    /// The client may have given numbers up to this one, and none above. A replica that executed a request of
    /// a number answers another one of it with the old reply.
    pub fn resume(
        alloc: Global,
        config: Config,
        client: ClientId,
        keyring: Keyring,
        behind: Seq,
    ) -> Session
        requires sizes { config ≡ keyring.sizes }
        requires number { client_party client ≡ keyring.party }
        requires client { client < config.clients }
        ensures { result ≡ record { keys = keyring; session = session_behind behind; frame = [] } }
    {
        Session {
            alloc,
            config,
            client,
            keyring,
            used: behind.0,
            waiting: false,
            tally: Tally::new(alloc),
            frame: Vec::new(alloc),
        }
    }

    /// Whose session it is.
    pub fn client(&self) -> ClientId
        ensures { result ≡ client_at self.now.keys.party }
    {
        self.client
    }

    /// The sizes that it was made with.
    pub fn config(&self) -> Config
        ensures { result ≡ self.now.keys.sizes }
    {
        self.config
    }

    /// The bytes of the outstanding request's frame, where one is outstanding.
    ///
    /// Frames may be lost: a caller sends these bytes again to all replicas, say each second, until
    /// there is a receipt.
    pub fn outstanding(&self) -> Option<&[u8]>
        ensures { option_map (λ bytes. bytes.now) result
            ≡ (if self.now.session.waiting then Some self.now.frame else None) }
    {
        if self.waiting {
            Some(self.frame.as_slice())
        } else {
            None
        }
    }

    /// The number of the next request.
    fn next_seq(&self) -> Result<Seq, Fault>
        ensures { result ≡ next_seq self.now.session }
    {
        if self.waiting {
            Err(Fault::Busy)
        } else if self.used == u64::MAX {
            Err(Fault::Spent)
        } else {
            Ok(Seq(self.used + 1))
        }
    }

    /// The bytes of the frame of a request of this number.
    fn frame_of(&self, seq: Seq, request: &Request<'_>) -> Result<Vec<u8>, Fault>
        requires { IsRequest (asked_of request.now) false }
        ensures made { IfOk result (λ frame. frame.items
            ≡ spelling (request_frame (client_of self.now.keys) seq (canonical (asked_of request.now)))) }
        ensures memory { OnErr result (result ≡ Err Fault.Memory) }
    {
        let mut text = Vec::new(self.alloc);
        write_request(request, &mut text)?;
        let payload = Payload::new(text.as_slice()).unwrap();
        request_frame(self.alloc, &self.keyring, seq, &payload)
    }

    /// A request of this number is outstanding from now on.
    fn begin(&mut self, seq: Seq, frame: Vec<u8>)
        ensures { self.new
            ≡ record self.old
            { session = record { used = seq; waiting = true; tally = [] }; frame = frame.items } }
    {
        self.used = seq.0;
        self.waiting = true;
        self.tally = Tally::new(self.alloc);
        self.frame = frame;
    }

    /// Makes a request of this number the outstanding one. All memory is taken first.
    fn send(&mut self, seq: Seq, request: &Request<'_>) -> Result<Vec<u8>, Fault>
        requires { IsRequest (asked_of request.now) false }
        ensures made { IfOk result (λ frame. frame.items
            ≡ spelling (request_frame (client_of self.old.keys) seq (canonical (asked_of request.now)))) }
        ensures begun { IfOk result (λ frame. self.new
            ≡ record self.old
            { session = record { used = seq; waiting = true; tally = [] }; frame = frame.items }) }
        ensures unchanged { OnErr result (self.new ≡ self.old) }
        ensures memory { OnErr result (result ≡ Err Fault.Memory) }
    {
        let frame = self.frame_of(seq, request)?;
        let sent = Vec::from_slice(self.alloc, frame.as_slice())?;
        self.begin(seq, frame);
        Ok(sent)
    }

    /// Numbers a request, and gives the bytes of its frame, which goes to all replicas.
    ///
    /// `Busy` comes where a request is outstanding, then `Spent` where the number 2^64 - 1 was
    /// given, then `Memory`. At a refusal the session is as before.
    pub fn submit(&mut self, request: &Request<'_>) -> Result<Vec<u8>, Fault>
        requires { IsRequest (asked_of request.now) false }
        ensures state { self.new ≡ record self.old {
          session = (submission (client_of self.old.keys) (memory_of result)
              (canonical (asked_of request.now)) self.old.session).0;
          frame = frame_after self.old.frame result;
        } }
        ensures answer { IsSubmitted (submission (client_of self.old.keys) (memory_of result)
            (canonical (asked_of request.now)) self.old.session).1 result }
    {
        match self.next_seq() {
            Ok(seq) => self.send(seq, request),
            Err(fault) => Err(fault),
        }
    }

    /// The bytes of the frame of the request of this number that has this text.
    fn frame_of_text(&self, seq: Seq, text: &CanonicalText<'_>) -> Result<Vec<u8>, Fault>
        ensures canonical { is_canonical text.now ≡ true }
        ensures made { IfOk result (λ frame. frame.items
            ≡ spelling (request_frame (client_of self.now.keys) seq text.now)) }
        ensures memory { OnErr result (result ≡ Err Fault.Memory) }
    {
        let payload = Payload::new(text.as_slice()).unwrap();
        request_frame(self.alloc, &self.keyring, seq, &payload)
    }

    /// Makes the request of this number that has this text the outstanding one.
    fn send_text(&mut self, seq: Seq, text: &CanonicalText<'_>) -> Result<(), Fault>
        ensures canonical { is_canonical text.now ≡ true }
        ensures begun { OnOk result (self.new ≡ record self.old {
          session = record { used = seq; waiting = true; tally = [] };
          frame = spelling (request_frame (client_of self.old.keys) seq text.now);
        }) }
        ensures unchanged { OnErr result (self.new ≡ self.old) }
        ensures memory { OnErr result (result ≡ Err Fault.Memory) }
    {
        let frame = self.frame_of_text(seq, text)?;
        self.begin(seq, frame);
        Ok(())
    }

    /// Numbers the request that has this text, and makes it the outstanding one: `outstanding` lends the
    /// bytes of its frame, which goes to all replicas.
    ///
    /// `Busy` comes where a request is outstanding, then `Spent` where the number 2^64 - 1 was
    /// given, then `Memory`. At a refusal the session is as before.
    pub fn submit_text(&mut self, text: &CanonicalText<'_>) -> Result<(), Fault>
        ensures canonical { OnOk result (is_canonical text.now ≡ true) }
        ensures keys { self.new.keys ≡ self.old.keys }
        ensures state { self.new.session
            ≡ (submission (client_of self.old.keys) (memory_of result) text.now self.old.session).0 }
        ensures answer { IsSubmittedInto (submission (client_of self.old.keys) (memory_of result) text.now
            self.old.session).1 self.old.frame result self.new.frame }
    {
        match self.next_seq() {
            Ok(seq) => self.send_text(seq, text),
            Err(fault) => Err(fault),
        }
    }

    /// Whether a request of this number is outstanding. A reply to another one counts for nothing.
    pub fn awaits(&self, seq: Seq) -> bool
        ensures { result ≡ (self.now.session.waiting && (seq == self.now.session.used)) }
    {
        self.waiting && seq == Seq(self.used)
    }

    /// Whether the reply's tag is its replica's for this client.
    fn verifies(&self, reply: &ReplyView<'_>) -> bool
        requires { IsFrame self.now.keys.sizes (reply_of reply.now) }
        ensures { result ≡ own_tag_verifies (identity_of self.now.keys) (reply_of reply.now) }
    {
        let sender = PartyId::from(reply.replica());
        self.keyring
            .verify(Kind::Reply, sender, reply.content(), reply.tag())
    }

    /// Whether the reply is counted.
    fn admit(&self, reply: &ReplyView<'_>) -> Result<(), Fault>
        requires { IsFrame self.now.keys.sizes (reply_of reply.now) }
        ensures { result ≡ admission (client_of self.now.keys) (reply_of reply.now) self.now.session }
    {
        if reply.client() != self.client {
            return Err(Fault::NotMine);
        }
        if !self.verifies(reply) {
            return Err(Fault::BadTag);
        }
        if !self.awaits(reply.seq()) {
            return Err(Fault::WrongSeq);
        }
        if self.tally.is_counted(reply.replica()) {
            return Err(Fault::Doubled);
        }
        Ok(())
    }

    /// The receipt, where this reply is the one that more than f agree with.
    fn receipt_for(&self, reply: &ReplyView<'_>) -> Result<Option<Receipt>, Fault>
        ensures made { IfOk result (λ r. r
            ≡ receipt_at self.now.keys.sizes.faults (frame_place (reply_of reply.now))
            (frame_text (reply_of reply.now)) self.now.session) }
        ensures memory { OnErr result (result ≡ Err Fault.Memory) }
    {
        let (place, text) = (reply.place(), reply.text());
        if self.tally.agreeing(place, text) < usize::from(self.config.faults()) {
            return Ok(None);
        }
        let text = Vec::from_slice(self.alloc, text)?;
        Ok(Some(Receipt {
            seq: Seq(self.used),
            place,
            text,
        }))
    }

    /// Counts a reply. All memory is taken first.
    fn count(&mut self, reply: &ReplyView<'_>) -> Result<Option<Receipt>, Fault>
        ensures receipt { IfOk result (λ r. r
            ≡ receipt_at self.old.keys.sizes.faults (frame_place (reply_of reply.now))
            (frame_text (reply_of reply.now)) self.old.session) }
        ensures counted { IfOk result (λ r. self.new ≡ record self.old {
          session = record {
            used = self.old.session.used;
            waiting = is_none r;
            tally =
                record {
                  replica = frame_replica (reply_of reply.now);
                  place = frame_place (reply_of reply.now);
                  text = frame_text (reply_of reply.now);
                } ∷ self.old.session.tally;
          };
        }) }
        ensures unchanged { OnErr result (self.new ≡ self.old) }
        ensures memory { OnErr result (result ≡ Err Fault.Memory) }
    {
        let receipt = self.receipt_for(reply)?;
        self.tally
            .count(reply.replica(), reply.place(), reply.text())?;
        self.waiting = receipt.is_none();
        Ok(receipt)
    }

    /// Counts a reply to the outstanding request. The one at which more than f replicas told the
    /// same place and text gives the receipt, and nothing is outstanding then.
    ///
    /// The refusals in their order: `NotMine` for another client's, `BadTag` where the tag isn't
    /// its replica's for this client, `WrongSeq` where no request of its number is outstanding,
    /// `Doubled` where its replica was counted, and `Memory`. At a refusal the session is as
    /// before.
    pub fn on_reply(&mut self, reply: &ReplyView<'_>) -> Result<Option<Receipt>, Fault>
        requires { IsFrame self.old.keys.sizes (reply_of reply.now) }
        ensures state { self.new ≡ record self.old {
          session =
              (on_reply (client_of self.old.keys) (memory_of result) (reply_of reply.now) self.old.session).0;
        } }
        ensures answer { heard_of result
            ≡ (on_reply (client_of self.old.keys) (memory_of result) (reply_of reply.now)
            self.old.session).1 }
    {
        match self.admit(reply) {
            Ok(()) => self.count(reply),
            Err(fault) => Err(fault),
        }
    }
}
