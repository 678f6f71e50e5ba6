//! What is said of the replicas of a deployment at its end.

ghost use Rattle.std.specs.Prelude.{◌≡◌, ◌<◌, ◌≤◌, ◌-◌, ◌⊎◌, [], length, vec_len, vec_capacity, IfOk, IfSome, IsTrue, None, OnErr, Err};
ghost use Rattle.ids.specs.declared.fault.Fault.TheVariants.{TooFew};
ghost use Rattle.ids.specs.declared.limits.TheConstants.{MOST_REPLICAS};
ghost use Rattle.ids.specs.Sizes.{replicas};
ghost use Rattle.server.specs.Ends.{AreFrom, IsEnd, IsEndAudit, IsAudited, AreFew};
ghost use Rattle.station.specs.Workers.{liar_count};

use crate::judging::{count_whole, judge_shown, judge_whole};
use audit::{Verdict, WindowVerdict};
use ids::{Config, Fault, MOST_REPLICAS};
use replica::Archived;
use station::{Station, Terms};

/// Room for the replicas of all stations, taken before a thread begins.
pub(crate) type Room = Vec<Archived>;

/// What is said of the replicas of a deployment at its end.
#[derive(Clone, Copy, Debug)]
pub enum EndAudit {
    /// What the audit says of all of them: each has all its past.
    Whole(Verdict),
    /// Some have forgotten. What the audit says of the others, which are a quorum or more, and what the windows of
    /// all of them show.
    Part {
        /// How many have all their past.
        judged: usize,
        verdict: Verdict,
        windows: WindowVerdict,
    },
    /// What the windows of all of them show, where too few have all their past for an audit.
    Windows(WindowVerdict),
}

/// What is said of replicas: all of them are judged, none is left out.
///
/// An audit judges those that have all their past, that is, that were never given leave to prune; where some
/// haven't, the windows of all are held against each other, too. It takes no memory. `TooFew` where there are
/// fewer than a quorum, more than `MOST_REPLICAS`, one twice, or replicas of other sizes.
pub fn judge_all(all: &[Archived]) -> Result<EndAudit, Fault>
    ensures verdict { IfOk result (IsEndAudit all.now) }
    ensures few { OnErr result (AreFew all.now ⊎ (MOST_REPLICAS < length all.now)) }
    ensures refused { OnErr result (result ≡ Err TooFew) }
{
    if all.len() > MOST_REPLICAS {
        return Err(Fault::TooFew);
    }
    let windows = judge_shown(all)?;
    let judged = count_whole(all);
    match judge_whole(all) {
        Ok(verdict) if judged == all.len() => Ok(EndAudit::Whole(verdict)),
        Ok(verdict) => Ok(EndAudit::Part {
            judged,
            verdict,
            windows,
        }),
        Err(_) => Ok(EndAudit::Windows(windows)),
    }
}

/// Whether a replica is the one of a number, in a deployment of these sizes.
fn is_of(archived: &Archived, config: Config, number: usize) -> bool
    ensures { IsTrue result → (archived.now.keys.sizes ≡ config) × (archived.now.keys.party ≡ number) }
{
    let replica = archived.replica();
    replica.config() == config && usize::from(replica.number().0) == number
}

/// The replicas of stations at which nobody works any more, in order, without the first so many. Each comes for all its shares.
/// None where one is missing, and where a replica stands at another place than its own, or isn't of a deployment of these sizes.
fn closed_of(stations: Vec<Station<'_>>, config: Config, skipped: usize, room: Room) -> Option<Room>
    requires empty { room.items ≡ [] }
    requires room { vec_len stations ≤ vec_capacity room }
    ensures { IfSome result (λ all. AreFrom config skipped (vec_len stations.entry - skipped) all.items) }
{
    let mut all = room;
    for (number, station) in stations.into_iter().enumerate() {
        if number >= skipped {
            let Ok(closed) = station.close() else {
                return None;
            };
            let replica = closed.replica;
            if !is_of(&replica, config, number) {
                return None;
            }
            all.push_reserved(replica);
        }
    }
    Some(all)
}

/// What is said of the replicas of a deployment's stations at which nobody works any more, without those that were to
/// lie. `TooFew` where they can't be judged, or where an audit can't though none was to forget.
pub(crate) fn judge_by_terms(
    stations: Vec<Station<'_>>,
    config: Config,
    terms: Terms,
    room: Room,
) -> Result<EndAudit, Fault>
    requires all { vec_len stations ≡ replicas config }
    requires empty { room.items ≡ [] }
    requires room { vec_len stations ≤ vec_capacity room }
    ensures verdict { IfOk result (IsEnd config (liar_count terms.liars)) }
    ensures audited { IfOk result (λ audit. terms.window ≡ None → IsAudited audit) }
    ensures few { OnErr result (result ≡ Err TooFew) }
{
    let all = closed_of(stations, config, usize::from(terms.liars()), room).ok_or(Fault::TooFew)?;
    match judge_all(&all)? {
        EndAudit::Windows(_) if terms.window.is_none() => Err(Fault::TooFew),
        audit => Ok(audit),
    }
}
