//! Blocks that climb too far.

ghost use Rattle.std.specs.Prelude.{◌≡◌, ◌-◌, min, nat_lt};
ghost use Rattle.definitions.specs.Frames as frames;
ghost use Rattle.admission.specs.Inputs.{input_of, relayed_block};
ghost use Rattle.frames_view.specs.Views.{core_of};
ghost use Rattle.doorkeeper.specs.Climbs.{climbs, climbs_too_far, most_climb, next_view};

use admission::Input;
use certificates::Copies;
use frames_view::CoreView;
use ids::View;
use tuning::MOST_CLIMB;

/// By how many heights a block of a view may climb: `MOST_CLIMB`, and as many more for each view before.
fn most_climb(view: View) -> u64
    ensures { result ≡ most_climb view }
{
    view.0.saturating_add(1).saturating_mul(MOST_CLIMB)
}

/// The view behind one.
fn next_view(view: View) -> View
    ensures { result ≡ next_view view }
{
    View(view.0.saturating_add(1))
}

/// Whether an input brings to a replica in this view a block that stands further above the one that it justifies than one
/// of its view may. A proposal of a later view than the next, and a block without one, may climb as one of the next view.
///
/// Without this rule a faulty leader has voted heights rise by thousands without a certificate, and each later leader
/// has to propose as many blocks before one of its own is voted for; and a chain of any length on one certified block
/// fills each replica's tree.
pub fn climbs_too_far(input: &Input<'_>, own: View) -> bool
    ensures { result ≡ climbs_too_far (input_of input.now) own }
{
    let next = next_view(own);
    match input {
        Input::Proposal(checked) => {
            let view = checked.view().view();
            climbs(&checked.view().core(), View(view.0.min(next.0)))
        }
        Input::OfferedProposal(tagged) => {
            let view = tagged.view().view();
            climbs(&tagged.view().core(), View(view.0.min(next.0)))
        }
        Input::Block(checked) => climbs(&checked.view().core(), next),
        Input::OfferedBlock(tagged) => climbs(&tagged.view().core(), next),
        Input::Relayed(copies) => copies_climb(copies, own),
        _ => false,
    }
}

/// Whether the block of copies does.
fn copies_climb(copies: &Copies<'_>, own: View) -> bool
    ensures { result ≡ climbs_too_far (relayed_block copies.now) own }
{
    climbs(&copies.first().view().core(), next_view(own))
}

/// Whether a block climbs further than one of this view may.
fn climbs(core: &CoreView<'_>, view: View) -> bool
    ensures { result ≡ climbs (core_of core.now) view }
{
    let climb = core.height().0.saturating_sub(core.justify_height().0);
    climb > most_climb(view)
}
