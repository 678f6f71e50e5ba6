//! What the others told.

ghost use Rattle.std.specs.Prelude.{◌≡◌, ◌&&◌, length, nat_lt, if◌then◌else◌};
ghost use Rattle.std.specs.List.{list_all};
ghost use Rattle.catching_up.specs.Told.{IsForemost, is_backed, lies_above};

use ids::Height;

/// Whether more than so many told this height, or a greater one.
fn is_backed(faults: u8, told: &[Height], height: Height) -> bool
    ensures { result ≡ is_backed faults told.now height }
{
    told.iter().filter(|other| other.0 >= height.0).count() > usize::from(faults)
}

/// The greater one of two heights, if more than so many told it or a greater one; else the first.
fn raised(faults: u8, told: &[Height], best: Height, height: Height) -> Height
    ensures { result
        ≡ (if nat_lt best height && is_backed faults told.now height then height else best) }
{
    if height.0 > best.0 && is_backed(faults, told, height) {
        height
    } else {
        best
    }
}

/// The greatest of the heights that replicas told of which more of them than may be faulty told it or a greater one: so one
/// that isn't faulty told as much. 0 where there is none.
pub fn foremost(faults: u8, told: &[Height]) -> Height
    ensures { IsForemost faults told.now (length told.now) result }
{
    let mut foremost = Height(0);
    for height in told {
        foremost = raised(faults, told, foremost, *height);
    }
    foremost
}

/// Whether the lowest heights that the others recorded are all above the one that lies behind this: those that were told, and
/// the greatest height for who recorded nothing.
pub fn is_beyond(height: Height, lowest: &[Height]) -> bool
    ensures { result ≡ list_all (lies_above height) lowest.now }
{
    lowest
        .iter()
        .all(|lowest| lowest.0 > height.0.saturating_add(1))
}
