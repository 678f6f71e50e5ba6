//! Processes on machines of their own, over the definitions alone; no code runs here. Each law stands as the contract of
//! a function with an empty body.
#![tactic(auto)]

ghost use Rattle.local_runs.specs.Law.{ProcessesAreARun, ProcessesAreLinear, ForgeryIsSeenAlone, RunsAreOfProcesses};

/// Local runs, one for each party, in any interleaving, are a run of the world, which has of each process what that
/// comes to alone.
pub fn processes_are_a_run()
    ensures { ProcessesAreARun }
{}

/// Where the premises of linear runs hold of the interleaving, it is linear: the local runs have one history.
pub fn processes_are_linear()
    ensures { ProcessesAreLinear }
{}

/// Of the premises, that no tag is forged is seen of what each process sends alone.
pub fn forgery_is_seen_alone()
    ensures { ForgeryIsSeenAlone }
{}

/// Each run of the world is one of processes, to which all comes as bytes.
pub fn runs_are_of_processes()
    ensures { RunsAreOfProcesses }
{}
