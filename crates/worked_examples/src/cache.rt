//! The sequential cache (memcached, protocol.txt, in this project's profile).

ghost use Rattle.worked_examples.specs.Cache.{Wraps, StopsAtZero, StaysNonNumeric, StaysPadded};
ghost use Rattle.worked_examples.specs.Cache.{ComparesUniques, Joins, WantsPresence, DeletesOnce};
ghost use Rattle.worked_examples.specs.Cache.{RepeatsKeys, Evicts, HoldsOne, IsSpent, KeepsItsKey};

/// `18446744073709551615`, raised by 1, is `0`.
pub fn incr_wraps()
    ensures { Wraps }
{}

/// `5`, lowered by 9, is `0`.
pub fn decr_stops_at_zero()
    ensures { StopsAtZero }
{}

/// Neither `12x` nor `05` is a number, and `12x` stays.
pub fn only_numbers_are_counted()
    ensures letters { StaysNonNumeric }
    ensures padded { StaysPadded }
{}

/// A `cas` stores exactly where its cas unique is the key's.
pub fn cas_compares_uniques()
    ensures { ComparesUniques }
{}

/// `5`, then `xy` behind it, then `a` before it, is `a5xy`.
pub fn append_and_prepend_join()
    ensures { Joins }
{}

/// `add` of a key that is there, and `replace`, `append` and `prepend` of one that isn't.
pub fn some_commands_want_a_key_present_or_absent()
    ensures { WantsPresence }
{}

/// `delete` twice.
pub fn a_key_is_deleted_once()
    ensures { DeletesOnce }
{}

/// `get k m k`.
pub fn a_key_asked_twice_is_told_twice()
    ensures { RepeatsKeys }
{}

/// `set a`, `set b`, `get a`, `set c`, `get a b c`, `add d`, `gets c d`, `add c`, `set e`, `get c` with room
/// for two keys.
pub fn a_full_cache_evicts()
    ensures { Evicts }
{}

/// `set a`, `set b`, `get a`, `set a` with room for one.
pub fn a_cache_of_one_key_evicts()
    ensures { HoldsOne }
{}

/// The count of changes ends at 2^64 - 1.
pub fn no_change_is_made_past_the_count()
    ensures { IsSpent }
{}

/// A full cache whose changes are all counted.
pub fn nothing_is_evicted_past_the_count()
    ensures { KeepsItsKey }
{}
