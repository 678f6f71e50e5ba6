//! The fronts: the greatest beginnings of the judged chronicles in which each counted vote of a judged
//! replica comes before the step that counts it, and each judged sender of a block took it before.

ghost use Rattle.std.specs.Prelude.{◌≡◌, ◌+◌, ◌<◌, ◌^◌, ℕ, true, false, IsTrue, MatchOption, OnSome};
ghost use Rattle.std.specs.List.{list_all};
ghost use Rattle.std.specs.Bool.{OnTrue};
ghost use Rattle.ids.specs.declared.limits.TheConstants.{MOST_REPLICAS};
ghost use Rattle.definitions.specs.Lists.{Among};
ghost use Rattle.definitions.specs.Audit.{chronicle_of, step_after, is_backed, may_move, AreFronts};
ghost use Rattle.audit.specs.Judged.{judged};
ghost use Rattle.audit.specs.Deeds.{stands, named_by, named_for, IsMissing};
ghost use Rattle.audit.specs.Fronts.{cut_of};

use crate::chronicles::{oldest, step_after, was_done};
use crate::deeds::{Deed, Missing, Named};
use crate::members::{chronicle_of, place};
use ids::{Digest, MOST_REPLICAS, ReplicaId};
use replica::{StepView, Whole};

/// How many steps of each replica are made, by its number.
pub(crate) type Row = [usize; MOST_REPLICAS];

/// How many steps of the replica of a number are made.
fn made(fronts: &Row, number: ReplicaId) -> usize
    ensures { result ≡ cut_of fronts.now number }
{
    fronts.get(usize::from(number.0)).copied().unwrap_or(0)
}

/// Whether a replica's deed for the block of a digest is made, or the replica isn't judged.
pub(crate) fn stands(
    replicas: &[&Whole<'_>],
    fronts: &Row,
    deed: Deed,
    block: &Digest,
    number: ReplicaId,
) -> bool
    ensures { result ≡ stands deed (judged replicas.now) (cut_of fronts.now) block.now number }
{
    match chronicle_of(replicas, number) {
        Some(chronicle) => was_done(oldest(chronicle, made(fronts, number)), deed, block),
        None => true,
    }
}

/// The first of those named for a deed whose own isn't made.
fn first_missing(
    replicas: &[&Whole<'_>],
    fronts: &Row,
    deed: Deed,
    named: &Named<'_>,
) -> Option<ReplicaId>
    ensures { MatchOption result
        (list_all (stands deed (judged replicas.now) (cut_of fronts.now) named.now.block)
        named.now.replicas.now ≡ true)
        (λ v. Among v named.now.replicas.now
        × (stands deed (judged replicas.now) (cut_of fronts.now) named.now.block v ≡ false)) }
{
    for number in named.replicas {
        if !stands(replicas, fronts, deed, &named.block, *number) {
            return Some(*number);
        }
    }
    None
}

/// A deed of this kind on which a step relies, and which isn't made.
fn missing_deed(
    replicas: &[&Whole<'_>],
    fronts: &Row,
    deed: Deed,
    step: &StepView<'_>,
) -> Option<Missing>
    ensures { MatchOption result
        (list_all (stands deed (judged replicas.now) (cut_of fronts.now) (named_for deed step.now))
        (named_by deed step.now) ≡ true)
        (IsMissing (judged replicas.now) (cut_of fronts.now) step.now) }
{
    let Some(named) = deed.named_by(step) else {
        return None;
    };
    let replica = first_missing(replicas, fronts, deed, &named)?;
    let block = named.block;
    Some(Missing {
        deed,
        replica,
        block,
    })
}

/// A deed on which a step relies, and which isn't made: a vote, or else a take.
pub(crate) fn missing(replicas: &[&Whole<'_>], fronts: &Row, step: &StepView<'_>) -> Option<Missing>
    ensures { MatchOption result (is_backed (judged replicas.now) (cut_of fronts.now) step.now ≡ true)
        (IsMissing (judged replicas.now) (cut_of fronts.now) step.now) }
{
    match missing_deed(replicas, fronts, Deed::Vote, step) {
        Some(vote) => Some(vote),
        None => missing_deed(replicas, fronts, Deed::Take, step),
    }
}

/// A replica's first step that isn't made.
pub(crate) fn next_step<'a>(
    replicas: &[&'a Whole<'a>],
    fronts: &Row,
    number: ReplicaId,
) -> Option<StepView<'a>>
    ensures step { result
        ≡ step_after (cut_of fronts.now number) (chronicle_of (judged replicas.now) number) }
    ensures few { OnSome result (cut_of fronts.now number + 1 < 2 ^ 64) }
{
    step_after(chronicle_of(replicas, number)?, made(fronts, number))
}

/// Whether a replica's next step may be made: each deed on which it relies is.
fn may_move(replicas: &[&Whole<'_>], fronts: &Row, number: ReplicaId) -> bool
    ensures moves { result ≡ may_move (judged replicas.now) (cut_of fronts.now) number }
    ensures few { OnTrue result (cut_of fronts.now number + 1 < 2 ^ 64) }
{
    match next_step(replicas, fronts, number) {
        Some(step) => missing(replicas, fronts, &step).is_none(),
        None => false,
    }
}

/// The place of a replica whose next step may be made.
fn find_mover(replicas: &[&Whole<'_>], fronts: &Row) -> Option<usize>
    ensures { MatchOption result ((u : ℕ) → may_move (judged replicas.now) (cut_of fronts.now) u ≡ false)
        (λ u. (may_move (judged replicas.now) (cut_of fronts.now) u ≡ true)
        × (u < MOST_REPLICAS) × (cut_of fronts.now u + 1 < 2 ^ 64)) }
{
    for replica in replicas {
        if may_move(replicas, fronts, replica.number()) {
            return Some(place(replica));
        }
    }
    None
}

/// The fronts, by number of replica. One count at a time is moved on while the next step may be made.
pub(crate) fn fronts(replicas: &[&Whole<'_>]) -> Row
    ensures { AreFronts (judged replicas.now) (cut_of result) }
{
    let mut fronts = [0; MOST_REPLICAS];
    while let Some(mover) = find_mover(replicas, &fronts) {
        fronts[mover] += 1;
    }
    fronts
}
