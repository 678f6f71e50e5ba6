//! Replicas, as those who judge them take them. Nothing here takes memory.

ghost use Rattle.std.specs.Prelude.{◌≡◌, ◌<◌, ◌≤◌, List, length, IfOk, OnErr, IfSome, Err};
ghost use Rattle.std.specs.List.{slice_get};
ghost use Rattle.ids.specs.declared.fault.Fault.TheVariants.{TooFew};
ghost use Rattle.ids.specs.declared.limits.TheConstants.{MOST_REPLICAS};
ghost use Rattle.replica.specs.Steps.{Held};
ghost use Rattle.server.specs.Ends.{IsOfAudit, IsOfWindows, AreFew, Shows, whole_of};

use audit::{Verdict, WindowVerdict, judge, judge_windows};
use ids::{Fault, MOST_REPLICAS};
use replica::{Archived, Replica, Whole};
use std::array;

/// How many of these replicas have all their past.
pub(crate) fn count_whole(all: &[Archived]) -> usize
    ensures count { result ≡ length (whole_of all.now) }
    ensures most { result ≤ length all.now }
{
    let mut count = 0;
    for one in all {
        if let Some(_) = one.whole() {
            count += 1;
        }
    }
    count
}

/// Of those replicas that have all their past, the one of this place.
fn whole_at<'a>(all: &'a [Archived], place: usize) -> Option<Whole<'a>>
    ensures { result ≡ slice_get (whole_of all.now) place }
{
    let mut left = place;
    for one in all {
        if let Some(whole) = one.whole() {
            if left == 0 {
                return Some(whole);
            }
            left -= 1;
        }
    }
    None
}

/// Replicas in a row, of which one stands in for those that the row hasn't.
#[derive(Clone, Copy)]
struct Lent<'b, 'a> {
    first: &'b Whole<'a>,
    row: &'b [Option<Whole<'a>>],
}

impl<'b, 'a> Lent<'b, 'a> {
    /// The replica of a place.
    fn at(self, place: usize) -> &'b Whole<'a>
        ensures { IfSome (slice_get self.entry.row.now place) (λ one. IfSome one (λ whole. result.now ≡ whole)) }
    {
        self.row
            .get(place)
            .and_then(|one| one.as_ref())
            .unwrap_or(self.first)
    }

    /// What the audit says of so many of them.
    fn judge(self, count: usize) -> Result<Verdict, Fault>
        ensures verdict { (replicas : List Held) → Shows self.entry.row.now replicas → count ≡ length replicas
            → IfOk result (IsOfAudit replicas) }
        ensures few { (replicas : List Held) → Shows self.entry.row.now replicas → count ≡ length replicas
            → OnErr result (AreFew replicas) }
        ensures refused { OnErr result (result ≡ Err TooFew) }
    {
        let lent: [&'b Whole<'a>; MOST_REPLICAS] = array::from_fn(move |place| self.at(place));
        judge(&lent[..count.min(MOST_REPLICAS)])
    }
}

/// What the audit says of those replicas that have all their past. `TooFew` where it can't judge them.
pub(crate) fn judge_whole(all: &[Archived]) -> Result<Verdict, Fault>
    requires { length all.now ≤ MOST_REPLICAS }
    ensures verdict { IfOk result (IsOfAudit (whole_of all.now)) }
    ensures few { OnErr result (AreFew (whole_of all.now)) }
    ensures refused { OnErr result (result ≡ Err TooFew) }
{
    let Some(first) = whole_at(all, 0) else {
        return Err(Fault::TooFew);
    };
    let row: [Option<Whole<'_>>; MOST_REPLICAS] = array::from_fn(|place| whole_at(all, place));
    let lent = Lent {
        first: &first,
        row: &row,
    };
    lent.judge(count_whole(all))
}

/// The replica of a place, or the first one where there is none.
fn replica_at(all: &[Archived], place: usize) -> &Replica
    requires { 0 < length all.now }
    ensures { IfSome (slice_get all.now place) (λ one. result.now ≡ one) }
{
    let place = if place < all.len() { place } else { 0 };
    all[place].replica()
}

/// What the windows of replicas show. `TooFew` where they can't be judged.
pub(crate) fn judge_shown<'b>(all: &'b [Archived]) -> Result<WindowVerdict, Fault>
    requires { length all.now ≤ MOST_REPLICAS }
    ensures verdict { IfOk result (IsOfWindows all.now) }
    ensures few { OnErr result (AreFew all.now) }
    ensures refused { OnErr result (result ≡ Err TooFew) }
{
    if all.is_empty() {
        return Err(Fault::TooFew);
    }
    let lent: [&'b Replica; MOST_REPLICAS] = array::from_fn(|place| replica_at(all, place));
    judge_windows(&lent[..all.len()])
}
