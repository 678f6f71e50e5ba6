//! What carries what replicas and clients say.

use crate::parcel::Answer;
use crate::worker::Outgoing;
use bytes::Bytes;
use catching_up::Question;
use ids::{Config, ReplicaId};
use std::sync::Wait;
use std::time::Clock;
use suspicion::ReplicaSet;

/// What carries to other parties what a replica says: links in one process, or wires between processes. What it can't take is
/// lost, as on any network.
pub trait Post: Outgoing {
    /// The sizes of the deployment.
    fn config(&self) -> Config;

    /// Tells a replica that votes of these in a certificate of it weren't right for this one.
    fn doubt<R: Wait>(&self, rt: &R, from: ReplicaId, to: ReplicaId, voters: ReplicaSet);

    /// Asks a replica for what it recorded.
    fn ask<R: Wait>(&self, rt: &R, from: ReplicaId, question: Question);

    /// Answers a replica that asked this one.
    fn answer<R: Wait>(&self, rt: &R, from: ReplicaId, to: ReplicaId, answer: Answer);

    /// How many frames of a replica couldn't be carried so far since it sends more than others take, where that is known.
    fn refused(&self, _from: ReplicaId) -> u64 {
        0
    }
}

/// What carries clients' requests to replicas.
pub trait Requests {
    /// The sizes of the deployment.
    fn config(&self) -> Config;

    /// Whether a request can still be answered.
    fn are_open<R: Wait + Clock>(&self, rt: &R) -> bool;

    /// Whether more requests wait than replicas get on with, so that clients are to hold back.
    fn are_crowded<R: Wait>(&self, rt: &R) -> bool;

    /// Whether a client's frame may go out: its number is marked where numbers are.
    fn may_go<R: Wait>(&self, _rt: &R, _frame: &[u8]) -> bool {
        true
    }

    /// Sends a client's frame to all replicas.
    fn to_all<R: Wait>(&self, rt: &R, frame: Bytes);

    /// Sends a client's frame to one replica.
    fn to_replica<R: Wait>(&self, rt: &R, to: ReplicaId, frame: Bytes);
}
