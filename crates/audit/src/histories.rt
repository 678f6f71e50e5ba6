//! Whether histories agree.

ghost use Rattle.std.specs.Prelude.{◌≡◌, ◌↔◌, reverse, IsTrue};
ghost use Rattle.std.specs.List.{All};
ghost use Rattle.definitions.specs.Audit.{HistoriesAgree};
ghost use Rattle.definitions.specs.Replicas.{held_history};
ghost use Rattle.audit.specs.Judged.{judged, Agree};

use executor::{Entries, Entry};
use replica::Whole;

/// Whether two entries are the same.
fn are_same(a: &Entry<'_>, b: &Entry<'_>) -> bool
    ensures { IsTrue result ↔ a.now ≡ b.now }
{
    a.client() == b.client() && a.seq() == b.seq() && a.payload() == b.payload()
}

/// Whether one of two histories is a beginning of the other.
fn agree(a: &Entries, b: &Entries) -> bool
    ensures { IsTrue result ↔ Agree (reverse a.now) (reverse b.now) }
{
    a.iter().zip(b.iter()).all(|(x, y)| are_same(&x, &y))
}

/// Whether the histories of two replicas agree.
fn agrees_with(one: &Whole<'_>, other: &Whole<'_>) -> bool
    ensures { IsTrue result ↔ Agree (held_history one.now.replica) (held_history other.now.replica) }
{
    agree(one.history(), other.history())
}

/// Whether the history of one agrees with that of each of these.
fn agrees_with_all(one: &Whole<'_>, replicas: &[&Whole<'_>]) -> bool
    ensures { IsTrue result
        ↔ All (λ r. Agree (held_history one.now.replica) (held_history r.now.replica)) replicas.now }
{
    replicas.iter().all(|other| agrees_with(one, other))
}

/// Whether the histories are pairwise beginnings of one another.
pub(crate) fn histories_agree(replicas: &[&Whole<'_>]) -> bool
    ensures { IsTrue result ↔ HistoriesAgree (judged replicas.now) }
{
    replicas.iter().all(|one| agrees_with_all(one, replicas))
}
