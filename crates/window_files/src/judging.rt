//! What the files of several replicas show.

ghost use Rattle.std.specs.Prelude.{◌≡◌, ◌≢◌, ◌↔◌, ◌≤◌, length, [], IsTrue, IsOk, IfOk, OnErr, MatchOption};
ghost use Rattle.std.specs.List.{All};
ghost use Rattle.ids.specs.Sizes.{quorum};
ghost use Rattle.definitions.specs.Lists.{Among, AreDistinct};
ghost use Rattle.definitions.specs.Audit.{Judged};
ghost use Rattle.definitions.specs.WindowAudit.{WindowsShow};
ghost use Rattle.audit.specs.Verdicts.{window_verdict_of};
ghost use Rattle.window_files.specs.Judging.{numbers, files, AreEnough, Leads, FilesShow, Differs, Misses, Lacks};
ghost use Rattle.window_files.specs.Windows.{AreOf};

use crate::window::Window;
use audit::WindowVerdict;
use ids::{Config, Fault, ReplicaId};

/// Whether each has these sizes.
fn have_sizes(windows: &[&Window], config: Config) -> bool
    ensures { IsTrue result ↔ All (λ w. w.now.head.config ≡ config) windows.now }
{
    windows.iter().all(|window| window.head().config == config)
}

/// Whether none of them is of this replica.
fn is_free(windows: &[&Window], number: ReplicaId) -> bool
    ensures { IsTrue result ↔ All (λ w. w.now.head.number ≢ number) windows.now }
{
    windows.iter().all(|window| window.head().number != number)
}

/// Whether each is of another replica.
fn are_distinct(windows: &[&Window]) -> bool
    ensures { IsTrue result ↔ AreDistinct (numbers windows.now) }
{
    for (i, window) in windows.iter().enumerate() {
        if !is_free(&windows[i + 1..], window.head().number) {
            return false;
        }
    }
    true
}

/// Whether they are at least a quorum of these sizes.
fn are_quorum(windows: &[&Window], config: Config) -> bool
    ensures { IsTrue result ↔ quorum config ≤ length windows.now }
{
    windows.len() >= usize::from(config.quorum())
}

/// Whether these can be judged: at least a quorum of windows of the same sizes, each replica's once.
fn are_enough(windows: &[&Window]) -> bool
    ensures { IsTrue result ↔ AreEnough windows.now }
{
    let Some(first) = windows.first() else {
        return false;
    };
    let config = first.head().config;
    have_sizes(windows, config) && are_quorum(windows, config) && are_distinct(windows)
}

/// Whether none of these executed higher than this one.
fn is_highest(window: &Window, windows: &[&Window]) -> bool
    ensures { IsTrue result ↔ All (λ w. w.now.head.height ≤ window.now.head.height) windows.now }
{
    let height = window.head().height.0;
    windows.iter().all(|other| other.head().height.0 <= height)
}

/// The first of those that executed highest.
fn leader<'a>(windows: &[&'a Window]) -> Option<&'a Window>
    ensures { MatchOption result (windows.now ≡ []) (λ m. Leads (files windows.now) m.now) }
{
    for window in windows {
        if is_highest(window, windows) {
            return Some(*window);
        }
    }
    None
}

/// Whether the leader's file shows another block at the height of this one's last executed block.
fn differs(window: &Window, leader: &Window) -> bool
    ensures { IsTrue result ↔ Differs window.now leader.now }
{
    match leader.shown(window.head().height) {
        Some(digest) => digest != window.last(),
        None => false,
    }
}

/// Whether it shows none there.
fn misses(window: &Window, leader: &Window) -> bool
    ensures { IsTrue result ↔ Misses window.now leader.now }
{
    leader.shown(window.head().height).is_none()
}

/// What the leader's file may lack of another one's last executed block.
#[derive(Clone, Copy)]
enum Lack {
    /// It shows another block at that height.
    Other,
    /// It shows none there.
    Missing,
}

/// Whether the leader's file lacks this of a window.
fn lacks(window: &Window, leader: &Window, lack: Lack) -> bool
    ensures { IsTrue result ↔ Lacks lack window.now leader.now }
{
    match lack {
        Lack::Other => differs(window, leader),
        Lack::Missing => misses(window, leader),
    }
}

/// The first of which the leader's file lacks this.
fn find<'a>(windows: &[&'a Window], leader: &Window, lack: Lack) -> Option<&'a Window>
    ensures { MatchOption result (All (λ w. Lacks lack w.now leader.now → ⊥) windows.now)
        (λ w. Among w.now (files windows.now) × Lacks lack w.now leader.now) }
{
    for window in windows {
        if lacks(window, leader, lack) {
            return Some(*window);
        }
    }
    None
}

/// Holds each window against the leader.
fn compare(windows: &[&Window], leader: &Window) -> WindowVerdict
    requires { Leads (files windows.now) leader.now }
    ensures { FilesShow (files windows.now) (window_verdict_of result) }
{
    let higher = leader.head().number;
    if let Some(other) = find(windows, leader, Lack::Other) {
        let lower = other.head().number;
        return WindowVerdict::Fork { lower, higher };
    }
    match find(windows, leader, Lack::Missing) {
        Some(missed) => {
            let lower = missed.head().number;
            WindowVerdict::Unmet { lower, higher }
        }
        None => WindowVerdict::Agree,
    }
}

/// What the windows of replicas show of their last executed blocks, as `audit::judge_windows` says it of replicas.
///
/// Each is held against the first of those that executed highest. They agree where its file shows each one's last
/// executed block. Where two could be named, it is the first that is handed in. Where the files are replicas' own, it is
/// what would be said of these; of a file that a faulty party wrote nothing is known.
///
/// It is refused with `TooFew` where there are fewer than `n - f`, two of one replica, or other sizes.
pub fn judge(windows: &[&Window]) -> Result<WindowVerdict, Fault>
    ensures judged { IsOk result ↔ AreEnough windows.now }
    ensures refused { OnErr result (result ≡ Err Fault.TooFew) }
    ensures verdict { IfOk result (λ v. FilesShow (files windows.now) (window_verdict_of v)) }
    ensures replicas { (ks : Judged) → AreOf (files windows.now) ks
        → IfOk result (λ v. WindowsShow ks (window_verdict_of v)) }
{
    if !are_enough(windows) {
        return Err(Fault::TooFew);
    }
    match leader(windows) {
        Some(leader) => Ok(compare(windows, leader)),
        None => Err(Fault::TooFew),
    }
}
