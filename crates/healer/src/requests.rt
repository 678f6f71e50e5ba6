//! The request of a client that waits.

ghost use Rattle.std.specs.Prelude.{◌≡◌, OnOk};
ghost use Rattle.definitions.specs.Worlds.{Sent};
ghost use Rattle.frames_view.specs.Views.{frame_of};
ghost use Rattle.recovery.specs.Healing.{ask_again};
ghost use Rattle.world_schedule.specs.Outcomes.{shown_frame, shown_sent};
ghost use Rattle.healer.specs.Asked.{is_asked, IsReadAsSent, find_request, request_of};
ghost use Rattle.healer.specs.Courses.{GoesWhere, Told, ToldWhere, HasClient, AreCorrect};

use crate::healer::{Healer, bring_to_each, deliver_since};
use client_accept::Session;
use frames_view::{Frame, read};
use ids::{ClientId, Config, Fault, Kind, ReplicaId};
use world_schedule::SentFrame;

/// Whether a frame is the outstanding request of a client's session.
fn is_asked(frame: &Frame<'_>, client: ClientId, session: &Session) -> bool
    ensures { result ≡ is_asked client session.now.session (frame_of frame.now) }
{
    match frame {
        Frame::Request(command) => command.client() == client && session.awaits(command.seq()),
        _ => false,
    }
}

/// The same of a frame of the record, as it was sent.
fn is_asked_in(config: &Config, client: ClientId, session: &Session, sent: &SentFrame) -> bool
    ensures { (s : Sent) → shown_frame sent.now ≡ shown_sent s → IsReadAsSent config.now s
        → result ≡ is_asked client session.now.session s.frame }
{
    match read(config, &sent.frame) {
        Ok(frame) => is_asked(&frame, client, session),
        Err(_) => false,
    }
}

/// The number of the frame of the record that is the outstanding request of a client's session.
fn find_request(healer: &Healer<'_>, client: ClientId, session: &Session) -> Option<u64>
    ensures { Told healer.now (λ w. result ≡ find_request client session.now.session w) }
{
    // For the proof: the run is one in a world, so the bytes of each frame are read as that.
    healer.holds();
    let config = healer.config();
    let frames = healer.frames();
    for number in 0..frames.len() {
        if is_asked_in(&config, client, session, &frames[number]) {
            return Some(number as u64);
        }
    }
    None
}

/// The number of the frame of the record that is the outstanding request of a correct client. None where it waits for
/// none.
pub(crate) fn request_of(healer: &Healer<'_>, client: ClientId) -> Option<u64>
    ensures { ToldWhere healer.now (HasClient client) (λ w. result ≡ request_of client w) }
{
    match healer.session(client) {
        Some(session) => find_request(healer, client, session),
        None => None,
    }
}

/// Frame k, a request, comes to all correct replicas, and their replies to the client.
pub(crate) fn ask_again(
    healer: &mut Healer<'_>,
    correct: &[ReplicaId],
    request: u64,
) -> Result<(), Fault>
    ensures origin { healer.new.origin ≡ healer.old.origin }
    ensures came { OnOk result (GoesWhere healer.old (AreCorrect correct.now) (ask_again request) healer.new) }
{
    let before = healer.sent();
    bring_to_each(healer, correct, &[request])?;
    deliver_since(healer, correct, before, Kind::Reply)
}
