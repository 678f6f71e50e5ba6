//! How much is given to one that asks.

ghost use Rattle.std.specs.Prelude.{◌≡◌};
ghost use Rattle.catching_up.specs.Giving.{counted_until};

/// Until when what was given to a peer is counted, behind one more answer at a moment; each counts for as long as it costs.
/// None where no answer is given: what it was given before is counted until longer than so much ahead. All in milliseconds.
pub fn counted_until(ahead: u64, until: u64, now: u64, cost: u64) -> Option<u64>
    ensures { result ≡ counted_until ahead until now cost }
{
    if until.saturating_sub(now) > ahead {
        return None;
    }
    until.max(now).checked_add(cost)
}
