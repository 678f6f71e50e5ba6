//! What windows show of the last executed blocks of replicas that may have pruned.

ghost use Rattle.std.specs.Prelude.{ℕ, ◌≡◌, ◌↔◌, ◌<◌, length, IsOk, IfOk, OnErr};
ghost use Rattle.definitions.specs.Audit.{HistoriesAgree};
ghost use Rattle.definitions.specs.Digests.{NoCollision};
ghost use Rattle.definitions.specs.WindowAudit.{Leads, WindowsShow, Stands, BlocksConflict};
ghost use Rattle.audit_ground.specs.Law.{KnownTo};
ghost use Rattle.audit.specs.Judged.{member_of, judged, AreEnough};
ghost use Rattle.audit.specs.Shown.{Sees};
ghost use Rattle.audit.specs.Verdicts.{window_verdict_of};

use crate::enough::{are_enough, hold};
use crate::verdict::WindowVerdict;
use ids::Fault;
use replica::Replica;

/// The first of those that executed highest.
fn leader<'a>(replicas: &[&'a Replica]) -> &'a Replica
    requires { 0 < length replicas.now }
    ensures { Leads (judged replicas.now) (member_of result.now) }
{
    let mut leader = replicas[0];
    for replica in replicas {
        if replica.height() > leader.height() {
            leader = *replica;
        }
    }
    leader
}

/// What a window shows at the height of a replica's last executed block.
#[derive(Clone, Copy)]
pub(crate) enum Shown {
    /// That block.
    Same,
    /// Another block.
    Other,
    /// None any more.
    Nothing,
}

/// What the leader's window shows at the height of a replica's last executed block.
fn sight(replica: &Replica, leader: &Replica) -> Shown
    ensures { Sees result (member_of replica.now) (member_of leader.now) }
{
    match leader.executed_block_at(replica.height()) {
        None => Shown::Nothing,
        Some(block) if block == replica.executed_block() => Shown::Same,
        Some(_) => Shown::Other,
    }
}

/// Holds each replica against the leader.
fn compare(replicas: &[&Replica], leader: &Replica) -> WindowVerdict
    requires { Leads (judged replicas.now) (member_of leader.now) }
    ensures { WindowsShow (judged replicas.now) (window_verdict_of result) }
{
    let higher = leader.number();
    let mut unmet = None;
    for replica in replicas {
        let lower = replica.number();
        match sight(replica, leader) {
            Shown::Same => {}
            Shown::Other => return WindowVerdict::Fork { lower, higher },
            Shown::Nothing => unmet = unmet.or(Some(lower)),
        }
    }
    match unmet {
        Some(lower) => WindowVerdict::Unmet { lower, higher },
        None => WindowVerdict::Agree,
    }
}

/// Whether the last executed blocks of replicas, which may have pruned, lie on one branch, by the digests
/// that their windows still show.
///
/// Each is held against the first of those that executed highest. They agree where its window shows each
/// one's last executed block; and then the histories agree, unless two cores that these replicas ever knew
/// have one digest. Where two could be named, it is the first that is handed in.
///
/// It is refused with `TooFew` as `judge` is. It takes no memory, and for each replica a time that grows
/// with the logarithm of the distance of two heights.
pub fn judge_windows(replicas: &[&Replica]) -> Result<WindowVerdict, Fault>
    ensures judged { IsOk result ↔ AreEnough replicas.now }
    ensures refused { OnErr result (result ≡ Err Fault.TooFew) }
    ensures verdict { IfOk result (λ v. WindowsShow (judged replicas.now) (window_verdict_of v)) }
    ensures agree { result ≡ Ok WindowVerdict.Agree → NoCollision (KnownTo (judged replicas.now))
        → HistoriesAgree (judged replicas.now) }
    ensures fork { (a b : ℕ) → result ≡ Ok (WindowVerdict.Fork a b)
        → Stands BlocksConflict (judged replicas.now) a b }
{
    if !are_enough(replicas) {
        return Err(Fault::TooFew);
    }
    hold(replicas);
    Ok(compare(replicas, leader(replicas)))
}
