//! What is looked for in a chronicle.

ghost use Rattle.std.specs.Prelude.{◌≡◌, ◌+◌, ◌<◌, ◌^◌, OnSome};
ghost use Rattle.std.specs.List.{list_any};
ghost use Rattle.definitions.specs.Lists.{beginning};
ghost use Rattle.definitions.specs.Audit.{step_after};
ghost use Rattle.audit.specs.Deeds.{does};

use crate::deeds::Deed;
use ids::Digest;
use replica::{ChronicleView, StepView};

/// Whether one of these steps did a deed for the block of a digest.
pub(crate) fn was_done(chronicle: ChronicleView<'_>, deed: Deed, block: &Digest) -> bool
    ensures { result ≡ list_any (does deed block.now) chronicle.entry }
{
    for step in chronicle {
        if deed.is_done_by(&step, block) {
            return true;
        }
    }
    false
}

/// The oldest so many steps, or all where there are fewer.
pub(crate) fn oldest(chronicle: ChronicleView<'_>, count: usize) -> ChronicleView<'_>
    ensures { result ≡ beginning count chronicle.entry }
{
    let mut rest = chronicle;
    while rest.len() > count {
        rest.next();
    }
    rest
}

/// The step that follows the oldest so many, where there is one.
pub(crate) fn step_after(chronicle: ChronicleView<'_>, count: usize) -> Option<StepView<'_>>
    ensures step { result ≡ step_after count chronicle.entry }
    ensures few { OnSome result (count + 1 < 2 ^ 64) }
{
    if chronicle.len() <= count {
        return None;
    }
    oldest(chronicle, count + 1).next()
}
