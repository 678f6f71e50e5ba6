//! What holds of the exchanges of every text.

ghost use Rattle.connection.specs.Serving.{ServesFirstItems};

/// The exchanges that serve a text are of its first items, in order, and of all of them unless the
/// service refused.
pub fn exchanges_serve_the_first_items()
    ensures { ServesFirstItems }
{}
