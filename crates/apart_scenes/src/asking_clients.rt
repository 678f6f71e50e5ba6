//! Clients of memcached's protocol at the fronts, one after the other.

use crate::deployed::Deployed;
use anyhow::Result;
use std::io::{Read, Write};
use std::net::{Net, TcpListener, TcpStream};

/// The words of a connection to a front, and what it reads until it ends. Each says `quit` at last.
fn told_at<R>(rt: &R, deployed: &Deployed, front: usize, words: &str) -> Result<String>
where
    R: AllocGlobal + Net<Listener = TcpListener, Stream = TcpStream>,
{
    let stream = TcpStream::connect(rt, deployed.front_at(front)?)?;
    (&mut &stream).write_all(words.as_bytes())?;
    let mut told = String::new(rt.alloc());
    (&mut &stream).read_to_string(&mut told)?;
    Ok(told)
}

/// Prints what a connection to a front reads.
fn tell<R>(rt: &R, deployed: &Deployed, front: usize, words: &str) -> Result<()>
where
    R: AllocGlobal + Print + Net<Listener = TcpListener, Stream = TcpStream>,
{
    let told = told_at(rt, deployed, front, words)?;
    println!(rt; "{told:?}")?;
    Ok(())
}

/// A number is stored at one front, and counted on at both.
pub(crate) fn at_first<R>(rt: &R, deployed: &Deployed) -> Result<()>
where
    R: AllocGlobal + Print + Net<Listener = TcpListener, Stream = TcpStream>,
{
    tell(rt, deployed, 0, "set a 0 0 1\r\n1\r\nincr a 1\r\nquit\r\n")?;
    tell(rt, deployed, 1, "incr a 1\r\nquit\r\n")?;
    tell(rt, deployed, 0, "incr a 1\r\nget a\r\nquit\r\n")
}

/// A front that came back counts on: at an old number it would be told an old reply.
pub(crate) fn after_return<R>(rt: &R, deployed: &Deployed) -> Result<()>
where
    R: AllocGlobal + Print + Net<Listener = TcpListener, Stream = TcpStream>,
{
    tell(rt, deployed, 0, "incr a 1\r\nincr a 1\r\nquit\r\n")
}

/// The other front goes on while one replica is away.
pub(crate) fn without_one<R>(rt: &R, deployed: &Deployed) -> Result<()>
where
    R: AllocGlobal + Print + Net<Listener = TcpListener, Stream = TcpStream>,
{
    tell(rt, deployed, 1, "incr a 1\r\nget a\r\nquit\r\n")
}
