//! What is said of the replicas at the end, in words.

ghost use Rattle.std.specs.Prelude.{◌≡◌};
ghost use Rattle.command_line.specs.Words.{window_words, words};

use audit::{Verdict, WindowVerdict};
use server::EndAudit;

/// What windows show.
fn window_words(shown: &WindowVerdict) -> &'static str
    ensures { result.now ≡ window_words shown.now }
{
    match shown {
        WindowVerdict::Agree => "windows agree",
        WindowVerdict::Fork { .. } => "windows fork",
        WindowVerdict::Unmet { .. } => "windows unmet",
    }
}

/// What is said of the replicas. Where some have forgotten, and the others agree, it is what the windows of all show.
pub fn words_of(audit: &EndAudit) -> &'static str
    ensures { result.now ≡ words audit.now }
{
    match audit {
        EndAudit::Whole(Verdict::Agree) => "agree",
        EndAudit::Whole(Verdict::Fork(_)) => "fork",
        EndAudit::Part {
            verdict: Verdict::Fork(_),
            ..
        } => "fork",
        EndAudit::Part { windows, .. } => window_words(windows),
        EndAudit::Windows(windows) => window_words(windows),
    }
}
