//! When a replica is looked at, and when its view is slow.

use crate::links::MOST_CLIMB;

/// Milliseconds between two looks of a clock at its replica. Longer: lost votes and mute leaders are noticed later.
/// Shorter: more processor time while nothing is to do.
pub const LOOK_MILLIS: u64 = 20;

/// Milliseconds that a proposal may wait for votes, at first and at least, before a beat on top of it. Shorter: leaders
/// propose empty blocks while votes are on their way.
pub const LEAST_BEAT_MILLIS: u64 = 20;

/// Milliseconds that a command may take at least before a view lags: half of the time between two looks, so that a
/// leader which brings one command at each beat of the clock lags. Shorter: a correct leader on a slow machine lags.
pub const LEAST_COMMAND_MILLIS: u64 = 10;

/// By what the cube of the number of replicas is divided for the milliseconds that a command may take among many: each
/// replica checks the tags of the others on longer frames. Greater: correct leaders among many replicas lag.
pub const COMMAND_SHARE: u64 = 64;

/// Requests of those that wait of which it is asked, at most, that each be executed in time. More: a machine that
/// can't serve so many at once loses correct leaders. Fewer: a leader that brings little stays.
pub const MOST_COUNTED: u64 = 8;

/// What a millisecond in which a view lags counts; one in which it doesn't takes one back.
pub const LAG_WEIGHT: u64 = 3;

/// How much a view's lag may count, and as much more for each view in vain that counts, and for the square of half of them: a view
/// that lags all along ends after 0.27 seconds, the next one after 0.53, the tenth after seven. As many as leaders may be faulty
/// don't count. Less: correct leaders are replaced while they catch up. More: faulty leaders in turn cost more.
pub const VIEW_LIMIT: u64 = 800;

/// Heights that were voted for in vain and count as one view in vain: a leader has to come above them. Fewer: faulty leaders that climb
/// cost more. More: later leaders are replaced while they climb.
pub const CLIMB_A_LIMIT: u64 = 64;

/// By what a view's limit is divided once its leader may climb no further. Less: faulty leaders that climb cost more. More: a correct
/// one that had to climb so far has no time for its last certificate.
pub const SPENT_PART: u64 = 8;

/// Milliseconds of service that isn't slow after which half of the views in vain are forgotten. Shorter: a slow machine begins
/// anew with short views. Longer: the next fault costs more behind a noisy start.
pub const CALM_MILLIS: u64 = 2000;

/// How many times as long a command may take, and a view lag, at most, where views end though something is executed in them.
/// Fewer: on a machine that has too much to do views pass without end, and bring ever less. More: a leader that brings little, or
/// falls silent, stays longer.
pub const MOST_SLACK: u64 = 16;

/// How many times as long a view may lag, at most, before anything is executed in it. Fewer: on a machine that has too much to do
/// leaders are replaced while they begin. More: leaders that are silent in turn cost more.
pub const BEGINNING_SLACK: u64 = 2;

/// Heights that a view may bring without a decision, times one more than its number, before it ends: twice as many as a
/// proposal may climb, and so more than a correct leader needs. More: a leader that nobody waits for fills the trees of
/// all with blocks that are never decided.
pub const MOST_UNDECIDED: u64 = 2 * MOST_CLIMB;

/// Milliseconds for which one may be in a later view than the others, while votes aren't right for a few, until they follow it; twice as
/// many each time. Fewer: liars end views. More: who is left out falls behind.
pub const FOLLOW_MILLIS: u64 = 1000;

/// Those, at most; and for how many it has to be in the others' view until they are as few as at first. Fewer: liars end more views.
pub const MOST_FOLLOW_MILLIS: u64 = 64_000;

/// Milliseconds for which a replica's votes go to all behind the last trouble: some hundred times what frames take between
/// replicas. Shorter: a liar that does harm at times has each leader begin anew. Longer: more votes than needed.
pub const TROUBLE_MILLIS: u64 = 4000;

/// Milliseconds for which a leader that began anew from its lock doesn't hear who doubted its certificates before, the first time
/// in a view; twice as many each further time. Longer: one for whom a faulty replica's votes aren't right falls behind. Shorter: who
/// doubts falsely costs more.
pub const UNHEARD_MILLIS: u64 = 1000;

/// That is no longer than so many milliseconds.
pub const MOST_UNHEARD_MILLIS: u64 = 64_000;

/// After which part of what its view may be slow a leader without certificates begins anew without what is pending, and
/// after twice as much from its lock: one in so many. A smaller part: a correct leader on a slow machine begins anew before
/// votes came. A greater one: no time is left for the blocks that it takes to come above all that was voted for.
pub const LEAD_PART: u64 = 4;

/// Which part of its window a replica holds beyond it before it is asked to forget: one in so many. A smaller part: it
/// is asked more often.
pub const WINDOW_SLACK: u64 = 8;

/// Looks for which a replica that is full is waited for, where it was given leave to forget. More: one that can't forget is
/// told of later. Fewer: one whose workers have much to do stops, though it would have had room again.
pub const FULL_LOOKS: u64 = 250;

/// Heights that a replica keeps for others that are behind, at most, times the number of replicas: a height takes about as
/// many times more among many. Four replicas that serve 64 connections fill 80 MB each. More: one that is frozen costs all
/// others more memory. Fewer: one that a leader leaves out is stuck sooner.
pub const MOST_KEPT: u64 = 65_536;
