//! A deployment on this machine: four replicas, and two fronts of two clients each.

use crate::endings::Endings;
use anyhow::{Context, Result};
use std::alloc::Global;
use std::fs;
use std::net::{Net, SocketAddr, TcpListener, TcpStream};
use std::rt::Files;

const REPLICAS: u8 = 4;

const FRONTS: u8 = 2;

/// The deployment file, and where each party listens.
#[derive(Drop)]
pub(crate) struct Deployed {
    pub(crate) text: String,
    pub(crate) replicas: Vec<TcpListener>,
    pub(crate) fronts: Vec<TcpListener>,
    pub(crate) endings: Endings,
}

/// So many listeners, wherever the system has room. The first one listens where a name leads.
fn listeners<R>(rt: &R, count: u8) -> Result<Vec<TcpListener>>
where
    R: AllocGlobal + Net<Listener = TcpListener, Stream = TcpStream>,
{
    let mut all = Vec::new(rt.alloc());
    for _ in 0..count {
        let at = if all.is_empty() {
            "localhost:0"
        } else {
            "127.0.0.1:0"
        };
        all.push(TcpListener::bind(rt, at)?)?;
    }
    Ok(all)
}

/// The deployment file of replicas that listen there. The first one's address has a name in it.
fn deployment_text(alloc: Global, replicas: &[TcpListener]) -> Result<String> {
    let mut text = format!(in alloc; "faults 1\nclients 4\nkeys-held 100\n")?;
    for (number, listener) in replicas.iter().enumerate() {
        let at = listener.local_addr()?;
        if number == 0 {
            writeln!(text, "replica {number} localhost:{}", at.port())?;
        } else {
            writeln!(text, "replica {number} {at}")?;
        }
    }
    text.push_str("front 0 2\nfront 1 2\n")?;
    Ok(text)
}

/// The state directory of a party.
pub(crate) fn directory(alloc: Global, kind: &str, number: u8) -> Result<String> {
    Ok(format!(in alloc; "{kind}-{number}")?)
}

impl Deployed {
    /// All parties, with empty state directories.
    pub(crate) fn new<R>(rt: &R) -> Result<Deployed>
    where
        R: AllocGlobal + Files + Net<Listener = TcpListener, Stream = TcpStream>,
    {
        let replicas = listeners(rt, REPLICAS)?;
        let fronts = listeners(rt, FRONTS)?;
        for number in 0..REPLICAS {
            fs::create_dir(rt, directory(rt.alloc(), "replica", number)?.as_str())?;
        }
        for number in 0..FRONTS {
            fs::create_dir(rt, directory(rt.alloc(), "front", number)?.as_str())?;
        }
        Ok(Deployed {
            text: deployment_text(rt.alloc(), &replicas)?,
            replicas,
            fronts,
            endings: Endings::none(),
        })
    }

    /// Where a front is reached.
    pub(crate) fn front_at(&self, number: usize) -> Result<SocketAddr> {
        let front = self.fronts.get(number).context("no such front")?;
        Ok(front.local_addr()?)
    }
}
