//! What the turns and the numbers that were told are for. Each law stands as the contract of a function with an empty body.

ghost use Rattle.catching_up.specs.Laws.{ACorrectOneTold, EachIsAsked, EachIsAwaited, LittleIsGiven};

/// Of as many questions in a row as there are others, each behind an answer that brought nothing new or a turn that was over,
/// each other replica got one. So f liars keep it from a correct one's answer for f turns in a row at most.
pub fn each_is_asked()
    ensures { EachIsAsked }
{}

/// Each answer is awaited for as long as it says: so where answers take longer than a turn, who doubles that long enough gets
/// one.
pub fn each_is_awaited()
    ensures { EachIsAwaited }
{}

/// Who asks without end is given no more than who asks now and then: for each millisecond what costs one, and what one may be
/// ahead.
pub fn little_is_given()
    ensures { LittleIsGiven }
{}

/// Where more told a height than may be faulty, one that isn't faulty told as much.
pub fn a_correct_one_told()
    ensures { ACorrectOneTold }
{}
