//! What the program does, from its options to its end.

use crate::faults::MainFault;
use command_line::Options;
use ids::Fault;
use key_file::PairKeys;
use server::{Ended, Runtime, run};
use std::fs;
use std::io::ErrorKind;
use std::net::{Net, TcpListener, TcpStream};
use std::rt::Files;

/// The keys of all parties, from their file.
fn read_keys<R: AllocGlobal + Files>(rt: &R, options: &Options<'_>) -> Result<PairKeys, MainFault> {
    let config = options.config()?;
    let text = match fs::read(rt, options.keys) {
        Ok(text) => text,
        Err(error) if error.kind() == ErrorKind::OutOfMemory => {
            return Err(MainFault::Fault(Fault::Memory));
        }
        Err(_) => return Err(MainFault::CannotReadKeys),
    };
    Ok(PairKeys::read(rt.alloc(), config, &text)?)
}

/// Listens, and tells where.
fn listen<R>(rt: &R, port: u16) -> Result<TcpListener, MainFault>
where
    R: AllocGlobal + Print + Net<Listener = TcpListener, Stream = TcpStream>,
{
    let Ok(listener) = TcpListener::bind(rt, ("127.0.0.1", port)) else {
        return Err(MainFault::CannotListen);
    };
    let Ok(at) = listener.local_addr() else {
        return Err(MainFault::CannotListen);
    };
    let _ = println!(rt; "listening on {at}");
    Ok(listener)
}

/// Serves as the options ask, to the end.
pub(crate) fn serve<R>(rt: &R, options: &Options<'_>) -> Result<Ended, MainFault>
where
    R: Runtime + Files + Print + Net<Listener = TcpListener, Stream = TcpStream>,
{
    let keys = read_keys(rt, options)?;
    let listener = listen(rt, options.port)?;
    Ok(run(rt, &keys, &listener, options.terms)?)
}
