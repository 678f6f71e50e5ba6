//! Fresh entries, their places, and the replies of the one sequential cache.

ghost use Rattle.worked_examples.specs.Histories.{FreshPlaces, StoredOnce, AnswersLast, LastNumbers};

/// Of four entries the first and the fourth are fresh.
pub fn repeated_and_skipped_numbers_are_not_fresh()
    ensures answers { FreshPlaces }
    ensures last { LastNumbers }
{}

/// What a repeated entry would have stored isn't stored.
pub fn only_fresh_entries_are_run()
    ensures { StoredOnce }
{}

/// Of each client the last fresh entry alone is answered again.
pub fn only_the_last_number_is_answered_again()
    ensures { AnswersLast }
{}
