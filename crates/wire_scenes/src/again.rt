//! A replica and a front stop, and start again. Frames for the replica wait meanwhile, and those for the front are lost.

use crate::stations::{PARTIES, Places, Station, all_heard, all_linked, all_met};
use crate::usual::all_stations;
use anyhow::{Context, Result};
use ids::PartyId;
use std::net::{Net, TcpListener, TcpStream};
use std::random::RandomSource;
use std::sync::Wait;
use std::thread;
use std::thread::Threads;
use std::time::Clock;

/// The replica, and the front, that stop.
const REPLICA: PartyId = PartyId(3);

const FRONT: PartyId = PartyId(257);

/// Those that stay.
const STAYING: [PartyId; 4] = [PartyId(0), PartyId(1), PartyId(2), PartyId(256)];

/// How many frames each sends to each in one part of the scene.
const PART: u64 = 200;

/// All send to all, and then the two end.
fn first_lives<R>(rt: &R, staying: &[Station], leaving: &[Station]) -> Result<bool>
where
    R: Threads
        + Wait
        + Clock
        + Sync
        + AllocGlobal
        + RandomSource
        + Net<Listener = TcpListener, Stream = TcpStream>,
{
    thread::scope(thread::scope_env(), rt, |scope| {
        for station in leaving {
            let _ = scope.spawn(move || station.run(rt));
        }
        let met = all_met(rt, staying) && all_met(rt, leaving);
        for station in staying.iter().chain(leaving) {
            station.send_all(rt, 0, PART)?;
        }
        let came = met
            && all_heard(rt, staying, &PARTIES, PART)
            && all_heard(rt, leaving, &PARTIES, PART);
        for station in leaving {
            station.close(rt);
        }
        Ok(came)
    })
}

/// While they are away, the others send to all.
fn meanwhile<R: Wait + Clock + AllocGlobal>(rt: &R, staying: &[Station]) -> Result<bool> {
    let gone = all_linked(rt, staying, REPLICA, false) && all_linked(rt, staying, FRONT, false);
    for station in staying {
        station.send_all(rt, PART, 2 * PART)?;
    }
    Ok(gone && all_heard(rt, staying, &STAYING, 2 * PART))
}

/// The two are there again, and all send to all.
fn second_lives<R>(rt: &R, staying: &[Station], coming: &[Station]) -> Result<bool>
where
    R: Threads
        + Wait
        + Clock
        + Sync
        + AllocGlobal
        + RandomSource
        + Net<Listener = TcpListener, Stream = TcpStream>,
{
    thread::scope(thread::scope_env(), rt, |scope| {
        for station in coming {
            let _ = scope.spawn(move || station.run(rt));
        }
        let met = all_met(rt, staying) && all_met(rt, coming);
        for station in staying {
            station.send_all(rt, 2 * PART, 3 * PART)?;
        }
        for station in coming {
            for peer in STAYING {
                station.send(rt, peer, PART, 3 * PART)?;
            }
        }
        let came = all_heard(rt, staying, &PARTIES, 3 * PART)
            && all_heard(rt, coming, &STAYING, 3 * PART);
        for station in staying.iter().chain(coming) {
            station.close(rt);
        }
        Ok(met && came)
    })
}

/// The two in their second lives. The replica hears all from the second part on, the front from the third.
fn comers<R>(rt: &R, places: &Places) -> Result<Vec<Station>>
where
    R: AllocGlobal + Clock + Net<Listener = TcpListener, Stream = TcpStream>,
{
    let at = places
        .of_party(REPLICA)
        .context("a replica without a place")?;
    let listener = TcpListener::bind(rt, at)?;
    let mut coming = Vec::new(rt.alloc());
    coming.push(Station::new(rt, REPLICA, places, Some(listener), PART)?)?;
    coming.push(Station::new(rt, FRONT, places, None, 2 * PART)?)?;
    Ok(coming)
}

/// Those that stay, and those that stop.
fn parted<R: AllocGlobal>(rt: &R, stations: Vec<Station>) -> Result<(Vec<Station>, Vec<Station>)> {
    let mut staying = Vec::new(rt.alloc());
    let mut leaving = Vec::new(rt.alloc());
    for station in stations {
        if STAYING.contains(&station.party()) {
            staying.push(station)?;
        } else {
            leaving.push(station)?;
        }
    }
    Ok((staying, leaving))
}

/// What each of those that stay lost for the two while they were away.
fn tell_lost<R: Wait + Print>(rt: &R, staying: &[Station]) -> Result<()> {
    for station in staying {
        let (party, wires) = (station.party(), station.wires());
        let (replica, front) = (wires.lost(rt, REPLICA), wires.lost(rt, FRONT));
        println!(rt; "{party} lost {REPLICA} {replica} {FRONT} {front}")?;
    }
    Ok(())
}

/// Both lives, while the others go on.
fn lives<R>(rt: &R, staying: &[Station], leaving: Vec<Station>, places: &Places) -> Result<()>
where
    R: Threads + Wait + Clock + Sync + AllocGlobal + Print + RandomSource,
    R: Net<Listener = TcpListener, Stream = TcpStream>,
{
    let first = first_lives(rt, staying, leaving.as_slice())?;
    for station in leaving.iter() {
        station.tell(rt)?;
    }
    drop(leaving);
    let between = meanwhile(rt, staying)?;
    tell_lost(rt, staying)?;
    let coming = comers(rt, places)?;
    let second = second_lives(rt, staying, coming.as_slice())?;
    for station in coming.iter() {
        station.tell(rt)?;
    }
    println!(rt; "all came: {first} {between} {second}")?;
    Ok(())
}

/// Plays the scene.
pub(crate) fn play<R>(rt: &R) -> Result<()>
where
    R: Threads + Wait + Clock + Sync + AllocGlobal + Print + RandomSource,
    R: Net<Listener = TcpListener, Stream = TcpStream>,
{
    let (stations, places) = all_stations(rt)?;
    let (staying, leaving) = parted(rt, stations)?;
    let staying: &[Station] = staying.as_slice();
    thread::scope(thread::scope_env(), rt, |scope| {
        for station in staying {
            let _ = scope.spawn(move || station.run(rt));
        }
        let played = lives(rt, staying, leaving, &places);
        for station in staying {
            station.close(rt);
        }
        played
    })?;
    for station in staying {
        station.tell(rt)?;
    }
    Ok(())
}
