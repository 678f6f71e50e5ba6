//! What the program does as one party of a deployment: a replica, or a front.

use crate::party_faults::PartyFault;
use apart::{FrontTerms, ReplicaTerms, holder_of_front, run_front, run_replica};
use command_line::{Files as Paths, FrontOptions, ReplicaOptions};
use deployment::Deployment;
use ids::{Fault, ReplicaId};
use key_file::{HeldKeys, Holder};
use server::Runtime;
use std::fs::File;
use std::io::ErrorKind;
use std::net::{Net, TcpListener, TcpStream, ToSocketAddrs};
use std::random::RandomSource;
use std::rt::Files;
use std::{fs, str};

/// The bytes of a file.
fn read_file<R: AllocGlobal + Files>(
    rt: &R,
    path: &str,
    unread: PartyFault,
) -> Result<Vec<u8>, PartyFault> {
    match fs::read(rt, path) {
        Ok(text) => Ok(text),
        Err(error) if error.kind() == ErrorKind::OutOfMemory => {
            Err(PartyFault::from(Fault::Memory))
        }
        Err(_) => Err(unread),
    }
}

/// The keys that a party holds.
fn read_keys<R: AllocGlobal + Files>(
    rt: &R,
    deployment: &Deployment<'_>,
    holder: Holder,
    paths: &Paths<'_>,
) -> Result<HeldKeys, PartyFault> {
    let text = read_file(rt, paths.keys, PartyFault::CannotReadKeys)?;
    Ok(HeldKeys::read(rt.alloc(), holder, deployment.config(), &text)?)
}

/// Listens, and tells where.
fn listen<R, A: ToSocketAddrs>(rt: &R, address: A) -> Result<TcpListener, PartyFault>
where
    R: AllocGlobal + Print + Net<Listener = TcpListener, Stream = TcpStream>,
{
    let Ok(listener) = TcpListener::bind(rt, address) else {
        return Err(PartyFault::CannotListen);
    };
    let Ok(at) = listener.local_addr() else {
        return Err(PartyFault::CannotListen);
    };
    let _ = println!(rt; "listening on {at}");
    Ok(listener)
}

/// Where a replica listens: where it is told to, or else where the deployment file says that it is reached.
fn listen_address<'a>(
    options: &ReplicaOptions<'a>,
    deployment: &Deployment<'a>,
) -> Result<&'a str, PartyFault> {
    if let Some(address) = options.listen {
        return Ok(address);
    }
    let text = deployment
        .address(ReplicaId(options.number))
        .and_then(|text| str::from_utf8(text).ok());
    text.ok_or(PartyFault::NoSuchReplica)
}

/// Runs a replica as the options ask, to its end. Why it stopped.
pub(crate) fn run_as_replica<R>(
    rt: &R,
    options: &ReplicaOptions<'_>,
) -> Result<Option<Fault>, PartyFault>
where
    R: Runtime + Print + RandomSource,
    R: Files<File = File> + Net<Listener = TcpListener, Stream = TcpStream>,
{
    let (paths, number) = (&options.files, ReplicaId(options.number));
    let text = read_file(rt, paths.deployment, PartyFault::CannotReadDeployment)?;
    let deployment = Deployment::read(rt.alloc(), &text)?;
    let keys = read_keys(rt, &deployment, Holder::Replica(number), paths)?;
    let listener = listen(rt, listen_address(options, &deployment)?)?;
    let terms = ReplicaTerms {
        number,
        station: options.terms,
    };
    Ok(run_replica(rt, &deployment, &keys, terms, paths.state, &listener)?)
}

/// Runs a front as the options ask, to its end. How many connections it served.
pub(crate) fn run_as_front<R>(rt: &R, options: &FrontOptions<'_>) -> Result<u64, PartyFault>
where
    R: Runtime + Print + RandomSource,
    R: Files<File = File> + Net<Listener = TcpListener, Stream = TcpStream>,
{
    let (alloc, paths) = (rt.alloc(), &options.files);
    let text = read_file(rt, paths.deployment, PartyFault::CannotReadDeployment)?;
    let deployment = Deployment::read(alloc, &text)?;
    let holder = holder_of_front(alloc, &deployment, options.number)?;
    let keys = read_keys(rt, &deployment, holder, paths)?;
    let listener = listen(rt, (options.listen, options.port))?;
    let terms = FrontTerms {
        number: options.number,
        most: options.most,
        watch: options.watch,
    };
    Ok(run_front(rt, &deployment, &keys, terms, paths.state, &listener)?)
}
