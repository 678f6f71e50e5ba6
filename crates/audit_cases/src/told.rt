//! What an audit answers, in words.

use crate::reasons::reason_of;
use audit::{CorePlace, Reason, Verdict, WindowVerdict, check_reason, judge, judge_windows};
use command_line::words_of;
use ids::Fault;
use replica::{Archived, Replica, Whole};
use server::judge_all;
use std::alloc::Global;

/// What is asked of replicas.
#[derive(Clone, Copy)]
pub(crate) enum Asked<'a> {
    /// What an audit of them answers, and whether these reasons hold.
    Reasons(&'a str),
    /// What their windows show.
    Windows,
    /// The words with which `mcbft` would end.
    Words,
}

fn tell_place(place: &CorePlace, text: &mut String) -> Result<(), Fault> {
    match place {
        CorePlace::Genesis => text.push_str(" genesis")?,
        CorePlace::Step { replica, step } => write!(text, " {}/{step}", replica.0)?,
    }
    Ok(())
}

fn tell_reason(reason: &Reason, text: &mut String) -> Result<(), Fault> {
    match reason {
        Reason::Vote {
            receiver,
            voter,
            digest,
        } => write!(text, "fork vote {} {} {digest}", receiver.0, voter.0)?,
        Reason::Take {
            receiver,
            sender,
            digest,
        } => write!(text, "fork take {} {} {digest}", receiver.0, sender.0)?,
        Reason::Collision { first, second } => {
            text.push_str("fork collision")?;
            tell_place(first, text)?;
            tell_place(second, text)?;
        }
    }
    Ok(())
}

/// Whether a reason holds.
fn tell_check(replicas: &[&Whole<'_>], reason: &Reason, text: &mut String) -> Result<(), Fault> {
    write!(text, " {}", check_reason(replicas, reason))?;
    Ok(())
}

fn tell_verdict(replicas: &[&Whole<'_>], text: &mut String) -> Result<(), Fault> {
    match judge(replicas) {
        Ok(Verdict::Agree) => text.push_str("agree")?,
        Ok(Verdict::Fork(reason)) => {
            tell_reason(&reason, text)?;
            tell_check(replicas, &reason, text)?;
        }
        Err(fault) => write!(text, "{}", fault.number())?,
    }
    Ok(())
}

/// Tells whether the reason of a field holds.
fn tell_asked(replicas: &[&Whole<'_>], field: &str, text: &mut String) -> Result<(), Fault> {
    match reason_of(field) {
        Ok(reason) => tell_check(replicas, &reason, text),
        Err(fault) => Err(fault),
    }
}

/// Tells what the audit of replicas answers, and which of the reasons in question hold.
fn tell_all(replicas: &[&Whole<'_>], asked: &str, text: &mut String) -> Result<(), Fault> {
    tell_verdict(replicas, text)?;
    for field in asked.split_whitespace() {
        tell_asked(replicas, field, text)?;
    }
    Ok(())
}

fn tell_shown(verdict: &WindowVerdict, text: &mut String) -> Result<(), Fault> {
    match verdict {
        WindowVerdict::Agree => text.push_str("agree")?,
        WindowVerdict::Fork { lower, higher } => write!(text, "fork {} {}", lower.0, higher.0)?,
        WindowVerdict::Unmet { lower, higher } => write!(text, "unmet {} {}", lower.0, higher.0)?,
    }
    Ok(())
}

/// Tells what the windows of replicas show.
fn tell_windows(replicas: &[&Replica], text: &mut String) -> Result<(), Fault> {
    match judge_windows(replicas) {
        Ok(verdict) => tell_shown(&verdict, text)?,
        Err(fault) => write!(text, "{}", fault.number())?,
    }
    Ok(())
}

/// The replicas with their archives. None of them was pruned.
fn whole_of<'b>(alloc: Global, replicas: &'b [Archived]) -> Result<Vec<Whole<'b>>, Fault> {
    let mut all = Vec::new(alloc);
    for archived in replicas {
        all.push(archived.whole().ok_or(Fault::Pruned)?)?;
    }
    Ok(all)
}

/// References to them.
fn lent<'b, 'a>(alloc: Global, replicas: &'b [Whole<'a>]) -> Result<Vec<&'b Whole<'a>>, Fault> {
    let mut lent = Vec::new(alloc);
    for replica in replicas {
        lent.push(replica)?;
    }
    Ok(lent)
}

/// References to replicas, without their archives.
fn plain<'b>(alloc: Global, replicas: &'b [Archived]) -> Result<Vec<&'b Replica>, Fault> {
    let mut plain = Vec::new(alloc);
    for archived in replicas {
        plain.push(archived.replica())?;
    }
    Ok(plain)
}

/// Tells the words with which `mcbft` would end where these are its replicas.
fn tell_words(replicas: &[Archived], text: &mut String) -> Result<(), Fault> {
    match judge_all(replicas) {
        Ok(audit) => text.push_str(words_of(&audit))?,
        Err(fault) => write!(text, "{}", fault.number())?,
    }
    Ok(())
}

/// Tells what is asked of replicas.
pub(crate) fn tell_asked_of(
    alloc: Global,
    replicas: &[Archived],
    asked: Asked<'_>,
    text: &mut String,
) -> Result<(), Fault> {
    match asked {
        Asked::Reasons(reasons) => {
            let whole = whole_of(alloc, replicas)?;
            tell_all(&lent(alloc, &whole)?, reasons, text)
        }
        Asked::Windows => tell_windows(&plain(alloc, replicas)?, text),
        Asked::Words => tell_words(replicas, text),
    }
}
