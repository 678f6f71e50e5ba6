//! Agreement: no two decided blocks conflict (HotStuff, PODC 2019, theorem on safety, in this
//! project's own form). The laws speak of the definitions alone; no code runs here. Each stands as
//! the contract of a function with an empty body.
#![tactic(auto)]

ghost use Rattle.agreement.specs.Law.{OneExtends, NoConflict, CertifiedExtends, NoneJustifiesBelow};
ghost use Rattle.agreement.specs.Law.{SomeDecision};

/// Of two branches that members of a lawful family decided, one extends the other.
pub fn one_extends()
    ensures { OneExtends }
{}

/// No two decided branches conflict.
pub fn no_conflict()
    ensures { NoConflict }
{}

/// A certified branch that is no lower than a decided one extends it.
pub fn certified_extends_decided()
    ensures { CertifiedExtends }
{}

/// Where members vote carefully, a certified branch has no block above a decided one that justifies one below that.
///
/// So who pruned what lies below a decided block can judge all that is certified later.
pub fn none_justifies_below()
    ensures { NoneJustifiesBelow }
{}

/// The premises can be met: a family of four replicas, one of them no member, decides a block.
pub fn some_decision()
    ensures { SomeDecision }
{}
