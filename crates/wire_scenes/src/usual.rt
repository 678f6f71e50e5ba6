//! Four replicas and two fronts, all of whom send frames to all of their peers.

use crate::stations::{PARTIES, Places, Station, all_heard, all_met, listeners};
use anyhow::Result;
use std::net::{Net, TcpListener, TcpStream};
use std::random::RandomSource;
use std::sync::Wait;
use std::thread;
use std::thread::Threads;
use std::time::Clock;

/// How many frames each sends to each.
const COUNT: u64 = 1000;

/// All stations, each with its listener.
pub(crate) fn all_stations<R>(rt: &R) -> Result<(Vec<Station>, Places)>
where
    R: AllocGlobal + Clock + Net<Listener = TcpListener, Stream = TcpStream>,
{
    let listeners = listeners(rt)?;
    let places = Places::of(&listeners)?;
    let mut listeners = listeners.into_iter();
    let mut stations = Vec::new(rt.alloc());
    for party in PARTIES {
        let listener = listeners.next();
        stations.push(Station::new(rt, party, &places, listener, 0)?)?;
    }
    Ok((stations, places))
}

/// Each sends to each, until all came.
fn exchange<R: Wait + Clock + AllocGlobal>(rt: &R, stations: &[Station]) -> Result<bool> {
    let met = all_met(rt, stations);
    for station in stations {
        station.send_all(rt, 0, COUNT)?;
    }
    Ok(met && all_heard(rt, stations, &PARTIES, COUNT))
}

/// Plays the scene.
pub(crate) fn play<R>(rt: &R) -> Result<()>
where
    R: Threads + Wait + Clock + Sync + AllocGlobal + Print + RandomSource,
    R: Net<Listener = TcpListener, Stream = TcpStream>,
{
    let (stations, _places) = all_stations(rt)?;
    let all: &[Station] = stations.as_slice();
    let came = thread::scope(thread::scope_env(), rt, |scope| {
        for station in all {
            let _ = scope.spawn(move || station.run(rt));
        }
        let came = exchange(rt, all);
        for station in all {
            station.close(rt);
        }
        came
    });
    println!(rt; "all came: {}", came?)?;
    for station in all {
        station.tell(rt)?;
    }
    Ok(())
}
