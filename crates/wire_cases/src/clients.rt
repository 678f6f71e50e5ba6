//! Whose requests a leader lets in. A line is the events one after the other:
//!
//! - `begin@NOW` and `lock@NOW`: it begins anew, with what it certified or from its lock. `end`: nobody is suspected.
//! - `vouch=CLIENT` and `doubt=CLIENT@NOW`: enough others vouch for its request, or not enough.
//! - `try=CLIENT:SEQ@NOW`, `wait`, `serve=CLIENT:SEQ`: a trial begins, goes on, and an answer.
//! - `show@NOW`: what is known of clients 0 to 3. Told are `w` where some client isn't let in as others, `t` where a trial
//!   may begin; then of each client its place for a trial behind the words that fit: `s` suspected, `f` let in by a
//!   follower, `l` by a leader, `v` by one if others vouch for it, `d` due for a trial.

use anyhow::{Result, bail};
use ids::{ClientId, Seq};
use std::alloc::Global;
use suspicion::Suspects;

/// How many clients are shown.
const SHOWN: u8 = 4;

/// The event that a field spells happens. What it doesn't say is 0.
fn happen(suspects: &mut Suspects, field: &str) -> Result<()> {
    let (what, now) = field.split_once('@').unwrap_or((field, "0"));
    let (name, whom) = what.split_once('=').unwrap_or((what, "0"));
    let (client, seq) = whom.split_once(':').unwrap_or((whom, "0"));
    let (client, seq, now) = (ClientId(client.parse()?), Seq(seq.parse()?), now.parse()?);
    match name {
        "begin" => suspects.begin(now),
        "lock" => suspects.begin_with_others(now),
        "end" => suspects.end(),
        "vouch" => suspects.vouch(client),
        "doubt" => suspects.doubt(client, now),
        "try" => suspects.try_client(client, seq, now),
        "wait" => suspects.wait(),
        "serve" => suspects.serve(client, seq),
        _ => bail!("no such event: {name}"),
    }
    Ok(())
}

/// What is known of a client at a moment.
fn client_told(alloc: Global, suspects: &Suspects, client: ClientId, now: u64) -> Result<String> {
    let words = [
        ('s', suspects.is_suspected(client)),
        ('f', suspects.is_let_in(client, false, now)),
        ('l', suspects.is_let_in(client, true, now)),
        ('v', suspects.is_let_in_vouched(client, now)),
        ('d', suspects.is_due(client, now)),
    ];
    let mut text = String::new(alloc);
    for (word, fits) in words {
        if fits {
            text.push(word)?;
        }
    }
    write!(text, "{}", suspects.place(client))?;
    Ok(text)
}

/// What is known at a moment.
fn shown(alloc: Global, suspects: &Suspects, now: u64) -> Result<String> {
    let mut text = String::from_str(alloc, if suspects.is_wary(now) { "w" } else { "-" })?;
    text.push(if suspects.may_try(now) { 't' } else { '-' })?;
    for number in 0..SHOWN {
        let client = client_told(alloc, suspects, ClientId(number), now)?;
        write!(text, " {client}")?;
    }
    Ok(text)
}

/// What is printed of a case.
pub(crate) fn case_told(alloc: Global, case: &str) -> Result<String> {
    let mut suspects = Suspects::new();
    let mut text = String::from_str(alloc, "clients")?;
    for field in case.split(' ') {
        match field.strip_prefix("show@") {
            Some(now) => {
                let now = shown(alloc, &suspects, now.parse()?)?;
                write!(text, ", {now}")?;
            }
            None => happen(&mut suspects, field)?,
        }
    }
    Ok(text)
}
