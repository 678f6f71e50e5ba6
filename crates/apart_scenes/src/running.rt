//! Each party, as its process runs it.

use crate::deployed::{Deployed, directory};
use crate::key_texts::key_text;
use anyhow::{Context, Result};
use apart::{FrontTerms, Refusal, ReplicaTerms, ask, holder_of_front, run_front, run_replica};
use deployment::Deployment;
use ids::{Fault, ReplicaId};
use key_file::{HeldKeys, Holder};
use state_marks::Ask;
use station::{Runtime, Terms, Workers};
use std::fs::File;
use std::hash::RandomState;
use std::net::{Net, TcpListener, TcpStream};
use std::random::RandomSource;
use std::rt::Files;
use std::time::Clock;

/// How each replica is to run.
fn terms(hasher: RandomState) -> Terms {
    Terms {
        liars: None,
        liar_clients: 0,
        most: u64::MAX,
        blocks: None,
        window: Some(4096),
        window_most: None,
        record: 16,
        patience: 1,
        late: None,
        workers: Workers::One,
        watch: None,
        hasher,
    }
}

/// The keys that a party holds.
fn keys_of<R: AllocGlobal>(
    rt: &R,
    deployment: &Deployment<'_>,
    holder: Holder,
) -> Result<HeldKeys> {
    let (alloc, config) = (rt.alloc(), deployment.config());
    let text = key_text(alloc, config, &holder)?;
    Ok(HeldKeys::read(alloc, holder, config, text.as_bytes())?)
}

/// A replica, to its end.
fn replica_ended<R>(
    rt: &R,
    deployed: &Deployed,
    number: u8,
) -> Result<Result<Option<Fault>, Refusal>>
where
    R: Runtime + RandomSource,
    R: Files<File = File> + Net<Listener = TcpListener, Stream = TcpStream>,
{
    let replica = ReplicaId(number);
    let deployment = Deployment::read(rt.alloc(), deployed.text.as_bytes())?;
    let keys = keys_of(rt, &deployment, Holder::Replica(replica))?;
    let state = directory(rt.alloc(), "replica", number)?;
    let listener = deployed
        .replicas
        .get(usize::from(number))
        .context("no such replica")?;
    let terms = ReplicaTerms {
        number: replica,
        station: terms(RandomState::new(rt)?),
    };
    Ok(run_replica(rt, &deployment, &keys, terms, state.as_str(), listener))
}

/// How a replica ended.
pub(crate) fn run_as_replica<R>(rt: &R, deployed: &Deployed, number: u8) -> &'static str
where
    R: Runtime + RandomSource,
    R: Files<File = File> + Net<Listener = TcpListener, Stream = TcpStream>,
{
    match replica_ended(rt, deployed, number) {
        Ok(Ok(None)) => "stopped as it was asked",
        Ok(Ok(Some(_))) => "stopped",
        Ok(Err(Refusal::State(state_marks::Refusal::HasSpoken))) => "has run before",
        _ => "refused",
    }
}

/// A front, until it served so many connections.
fn front_ended<R>(
    rt: &R,
    deployed: &Deployed,
    number: u8,
    most: u64,
) -> Result<Result<u64, Refusal>>
where
    R: Runtime + RandomSource,
    R: Files<File = File> + Net<Listener = TcpListener, Stream = TcpStream>,
{
    let deployment = Deployment::read(rt.alloc(), deployed.text.as_bytes())?;
    let holder = holder_of_front(rt.alloc(), &deployment, number)?;
    let keys = keys_of(rt, &deployment, holder)?;
    let state = directory(rt.alloc(), "front", number)?;
    let listener = deployed
        .fronts
        .get(usize::from(number))
        .context("no such front")?;
    let terms = FrontTerms {
        number,
        most,
        watch: None,
    };
    Ok(run_front(rt, &deployment, &keys, terms, state.as_str(), listener))
}

/// How a front ended.
fn run_as_front<R>(rt: &R, deployed: &Deployed, number: u8, most: u64) -> &'static str
where
    R: Runtime + RandomSource,
    R: Files<File = File> + Net<Listener = TcpListener, Stream = TcpStream>,
{
    match front_ended(rt, deployed, number, most) {
        Ok(Ok(served)) if served == most => "served all",
        Ok(Ok(_)) => "served others",
        _ => "refused",
    }
}

/// Asks a replica's process to stop.
pub(crate) fn stop<R: Files + Clock + AllocGlobal>(rt: &R, number: u8) -> Result<()> {
    let state = directory(rt.alloc(), "replica", number)?;
    Ok(ask(rt, state.as_str(), Ask::Stop)?)
}

/// Runs a replica, and leaves how it ended.
pub(crate) fn replica_thread<R>(rt: &R, deployed: &Deployed, number: u8)
where
    R: Runtime + RandomSource,
    R: Files<File = File> + Net<Listener = TcpListener, Stream = TcpStream>,
{
    let ending = run_as_replica(rt, deployed, number);
    deployed.endings.leave(rt, usize::from(number), ending);
}

/// Runs a front, and leaves how it ended.
pub(crate) fn front_thread<R>(rt: &R, deployed: &Deployed, number: u8, most: u64)
where
    R: Runtime + RandomSource,
    R: Files<File = File> + Net<Listener = TcpListener, Stream = TcpStream>,
{
    let ending = run_as_front(rt, deployed, number, most);
    deployed
        .endings
        .leave(rt, usize::from(number).saturating_add(4), ending);
}

/// Runs the first front once more, when it has ended.
pub(crate) fn front_thread_again<R>(rt: &R, deployed: &Deployed)
where
    R: Runtime + RandomSource,
    R: Files<File = File> + Net<Listener = TcpListener, Stream = TcpStream>,
{
    let _ended = deployed.endings.wait_for(rt, 4);
    let ending = run_as_front(rt, deployed, 0, 1);
    deployed.endings.leave(rt, 6, ending);
}
