//! What is done with the deployment, and printed.

use crate::asking_clients::{after_return, at_first, without_one};
use crate::deployed::Deployed;
use crate::running::{run_as_replica, stop};
use anyhow::Result;
use station::Runtime;
use std::fs::File;
use std::net::{Net, TcpListener, TcpStream};
use std::random::RandomSource;
use std::rt::Files;
use std::sync::Wait;
use std::time::Clock;

/// Prints how a process ended, once it did.
fn tell<R>(rt: &R, deployed: &Deployed, name: &str, place: usize) -> Result<()>
where
    R: Wait + Clock + AllocGlobal + Print,
{
    let ending = deployed.endings.wait_for(rt, place);
    println!(rt; "{name}: {ending}")?;
    Ok(())
}

/// Stops the replicas that are left.
fn stop_all<R>(rt: &R, deployed: &Deployed) -> Result<()>
where
    R: Wait + Clock + Files + AllocGlobal + Print,
{
    stop(rt, 0)?;
    stop(rt, 1)?;
    stop(rt, 2)?;
    tell(rt, deployed, "replica 0", 0)?;
    tell(rt, deployed, "replica 1", 1)?;
    tell(rt, deployed, "replica 2", 2)
}

/// Plays the scene.
pub(crate) fn play<R>(rt: &R, deployed: &Deployed) -> Result<()>
where
    R: Runtime + RandomSource + Print,
    R: Files<File = File> + Net<Listener = TcpListener, Stream = TcpStream>,
{
    at_first(rt, deployed)?;
    tell(rt, deployed, "front 0", 4)?;
    after_return(rt, deployed)?;
    tell(rt, deployed, "front 0 again", 6)?;
    stop(rt, 3)?;
    tell(rt, deployed, "replica 3", 3)?;
    println!(rt; "replica 3 again: {}", run_as_replica(rt, deployed, 3))?;
    without_one(rt, deployed)?;
    tell(rt, deployed, "front 1", 5)?;
    stop_all(rt, deployed)
}
