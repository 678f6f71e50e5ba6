//! How bytes come to a replica.

ghost use Rattle.std.specs.Prelude.{IsTrue, IfOk};
ghost use Rattle.admission.specs.Admitted.{AdmitsBy};
ghost use Rattle.admission.specs.Inputs.{is_addressed};
ghost use Rattle.world_schedule.specs.Asking.{checks_of};

use admission::{Input, admit, admit_offer};
use authenticators::VerifyingKeyring;
use ids::Fault;

/// As a frame that is brought, or as one that is offered.
#[derive(Clone, Copy)]
pub(crate) enum Way {
    Brought,
    Offered,
}

/// The input that bytes bring that come this way.
pub(crate) fn admit_by<'a>(
    keyring: &'a VerifyingKeyring,
    way: Way,
    bytes: &'a [u8],
) -> Result<Input<'a>, Fault>
    ensures admitted { AdmitsBy (checks_of way) keyring.now bytes.entry result }
    ensures addressed { IfOk result (λ input. IsTrue (is_addressed keyring.now input)) }
{
    match way {
        Way::Brought => admit(keyring, bytes),
        Way::Offered => admit_offer(keyring, bytes),
    }
}
