//! What holds over all beginnings, marks, numbers and crashes of a party. Each law stands as the contract of a function
//! with an empty body.

ghost use Rattle.state_marks.specs.Laws.{GivesEachOnce, SpeaksInOneLife};

/// Whatever begins, is marked, is given and crashes in whichever order, each number is above all that the same client
/// gave before.
pub fn no_number_is_given_twice()
    ensures { GivesEachOnce }
{}

/// A replica that has spoken is refused at each later beginning.
pub fn who_has_spoken_never_begins_again()
    ensures { SpeaksInOneLife }
{}
