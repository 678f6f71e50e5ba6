//! Three replicas send one another frames, while a fourth one and strangers do what they can at the door and on the links
//! of the first.

use crate::counts::Count;
use crate::stations::{Station, all_heard};
use crate::usual::all_stations;
use crate::villain::{Villain, is_closed};
use crate::warned::warnings_of;
use anyhow::{Context, Result};
use bytes::Bytes;
use ids::PartyId;
use std::io::Write;
use std::net::{Net, SocketAddr, TcpListener, TcpStream};
use std::random::RandomSource;
use std::sync::Wait;
use std::thread;
use std::thread::{Threads, join};
use std::time::{Clock, Duration};

/// Who is besieged, and by whom.
const VICTIM: PartyId = PartyId(0);

const VILLAIN: PartyId = PartyId(3);

/// Those whose frames have to come.
const GOOD: [PartyId; 3] = [PartyId(0), PartyId(1), PartyId(2)];

/// How many frames each of them sends to each, and how many between two pauses.
const COUNT: u64 = 10_000;

const PART: u64 = 100;

/// Each sends to each, for some seconds, until all came.
fn exchange<R: Wait + Clock + AllocGlobal>(rt: &R, stations: &[Station]) -> Result<bool> {
    for part in 0..COUNT / PART {
        for station in stations {
            for peer in GOOD {
                station.send(rt, peer, part * PART, part * PART + PART)?;
            }
        }
        thread::sleep(rt, Duration::from_millis(50));
    }
    Ok(all_heard(rt, stations, &GOOD, COUNT))
}

/// Waits until so many frames of the villain came.
fn wait_for<R: Clock>(rt: &R, count: &Count, end: u64) -> bool {
    for _ in 0..2000 {
        if count.next() >= end {
            return true;
        }
        thread::sleep(rt, Duration::from_millis(5));
    }
    false
}

/// Waits until the victim has a link to the villain, or has none.
fn is_linked_so<R: Wait + Clock>(rt: &R, victim: &Station, linked: bool) -> bool {
    for _ in 0..2000 {
        if victim.is_linked(rt, VILLAIN) == linked {
            return true;
        }
        thread::sleep(rt, Duration::from_millis(5));
    }
    false
}

/// What comes of asks that aren't right.
fn false_asks<R>(rt: &R, villain: &Villain<'_, R>, victim: &Station) -> Result<()>
where
    R: Wait + Clock + AllocGlobal + Print + Net<Listener = TcpListener, Stream = TcpStream>,
{
    println!(rt; "another's number: closed {}", villain.takes_a_number()?)?;
    let closed = villain.has_other_sizes()?;
    let known = victim.wires().other_sizes(rt);
    println!(rt;
        "other sizes: closed {closed}, counted {}, warned {}",
        known.asks,
        warnings_of(rt.alloc(), &known)
    )?;
    println!(rt; "a byte now and then: closed {}", villain.trickles()?)?;
    Ok(())
}

/// What comes of an ask that is cut at each place.
fn cut_asks<R>(rt: &R, villain: &Villain<'_, R>) -> Result<()>
where
    R: Wait + Clock + AllocGlobal + Print + Net<Listener = TcpListener, Stream = TcpStream>,
{
    let mut answered = 0u32;
    let mut closed = 0u32;
    for cut in 0..100 {
        answered = answered.saturating_add(u32::from(villain.asks_in_two(cut)?));
        closed = closed.saturating_add(u32::from(villain.asks_in_part(cut)?));
    }
    println!(rt;
        "an ask that is cut: in two, answered {answered} of 100 times; short, closed {closed} of 100 times"
    )?;
    Ok(())
}

/// What comes of a handshake and a stream that are played again.
fn old_words<R>(rt: &R, villain: &Villain<'_, R>, count: &Count) -> Result<()>
where
    R: Wait + Clock + AllocGlobal + Print + Net<Listener = TcpListener, Stream = TcpStream>,
{
    let visit = villain.link()?;
    (&mut &visit.stream).write_all(&villain.frames(0, 3)?)?;
    println!(rt; "its own frames: came {}", wait_for(rt, count, 3))?;
    let closed = villain.plays_again(&visit)?;
    println!(rt;
        "old words: closed {closed}, heard {} ({} wrong)",
        count.next(),
        count.wrong()
    )?;
    Ok(())
}

/// What comes of its own next frames, soon behind a length that is none, and a while later.
fn comes_again<R>(rt: &R, villain: &Villain<'_, R>, count: &Count) -> Result<()>
where
    R: Wait + Clock + AllocGlobal + Print + Net<Listener = TcpListener, Stream = TcpStream>,
{
    let soon = villain.comes_again()?;
    let closed = is_closed(&soon.stream)?;
    println!(rt; "soon again: closed {closed}, heard {}", count.next())?;
    thread::sleep(rt, Duration::from_millis(2500));
    let _later = villain.comes_again()?;
    println!(rt; "a while later: came {}", wait_for(rt, count, 6))?;
    let _slow = villain.sends_by_bytes()?;
    println!(rt; "a byte at a time: came {}", wait_for(rt, count, 7))?;
    Ok(())
}

/// What comes of streams that are none.
fn false_streams<R>(rt: &R, villain: &Villain<'_, R>, count: &Count) -> Result<()>
where
    R: Wait + Clock + AllocGlobal + Print + Net<Listener = TcpListener, Stream = TcpStream>,
{
    println!(rt;
        "a length that is none: closed {}",
        villain.tells_no_length()?
    )?;
    comes_again(rt, villain, count)?;
    println!(rt;
        "half a frame and silence: closed {}",
        villain.sends_a_half()?
    )?;
    Ok(())
}

/// Whether a peer comes in behind a thousand connections that say nothing.
fn crowds<R>(rt: &R, villain: &Villain<'_, R>) -> Result<()>
where
    R: Wait + Clock + AllocGlobal + Print + Net<Listener = TcpListener, Stream = TcpStream>,
{
    let mut came = 0u32;
    for _ in 0..5 {
        let _crowd = villain.crowd(200)?;
        if villain.link().is_ok() {
            came = came.saturating_add(1);
        }
    }
    println!(rt; "a thousand connections: came in {came} of 5 times")?;
    Ok(())
}

/// What comes of more frames than there is room for.
fn floods<R>(rt: &R, villain: &Villain<'_, R>, victim: &Station, count: &Count) -> Result<()>
where
    R: Wait + Clock + AllocGlobal + Print + Net<Listener = TcpListener, Stream = TcpStream>,
{
    count.make_room(300);
    let visit = villain.link()?;
    let moved = villain.floods(&visit)?;
    let held = moved < 50_000_000;
    println!(rt;
        "a flood: held {held}, full {}, wrong {}",
        count.was_full(),
        count.wrong()
    )?;
    drop(visit);
    println!(rt; "gone: {}", is_linked_so(rt, victim, false))?;
    Ok(())
}

/// What comes of a peer that never reads, for whom 35 MB wait.
fn never_reads<R>(rt: &R, villain: &Villain<'_, R>, victim: &Station) -> Result<()>
where
    R: Wait + Clock + AllocGlobal + Print + Net<Listener = TcpListener, Stream = TcpStream>,
{
    let visit = villain.link()?;
    let linked = is_linked_so(rt, victim, true);
    let frame = Bytes::from_vec(vec![in rt.alloc(); 0; 70_000]?)?;
    for _ in 0..500 {
        let _ = victim.wires().send(rt, VILLAIN, frame.clone()?);
    }
    let left = linked && is_linked_so(rt, victim, false);
    println!(rt;
        "never reading: left {left}, closed {}",
        is_closed(&visit.stream)?
    )?;
    Ok(())
}

/// All that the villain does.
fn besiege<R>(rt: &R, at: SocketAddr, victim: &Station) -> Result<()>
where
    R: Wait + Clock + AllocGlobal + Print + Net<Listener = TcpListener, Stream = TcpStream>,
{
    let villain = Villain { rt, at };
    let count = victim.count(VILLAIN).context("no such peer")?;
    false_asks(rt, &villain, victim)?;
    cut_asks(rt, &villain)?;
    old_words(rt, &villain, count)?;
    false_streams(rt, &villain, count)?;
    crowds(rt, &villain)?;
    floods(rt, &villain, victim, count)?;
    never_reads(rt, &villain, victim)
}

/// Plays the scene.
pub(crate) fn play<R>(rt: &R) -> Result<()>
where
    R: Threads + Wait + Clock + Sync + AllocGlobal + Print + RandomSource,
    R: Net<Listener = TcpListener, Stream = TcpStream>,
{
    let (mut stations, places) = all_stations(rt)?;
    stations.truncate(3);
    let at = places.of_party(VICTIM).context("no such place")?;
    let all: &[Station] = stations.as_slice();
    let victim = all.first().context("no station")?;
    let (came, done) = thread::scope(thread::scope_env(), rt, |scope| {
        for station in all {
            let _ = scope.spawn(move || station.run(rt));
        }
        let both = join(rt, || exchange(rt, all), || besiege(rt, at, victim));
        for station in all {
            station.close(rt);
        }
        both
    });
    done?;
    println!(rt; "all came: {}", came?)?;
    for station in all {
        for peer in GOOD {
            if let Some(count) = station.count(peer) {
                let (heard, wrong) = (count.next(), count.wrong());
                println!(rt; "{} heard {peer} {heard} ({wrong} wrong)", station.party())?;
            }
        }
    }
    Ok(())
}
