//! Requests that are pending.

use frames_view::{CommandView, Frame, read};
use ids::{ClientId, Config, Fault, Seq};
use mempool::{Mempool, RequestId};
use std::alloc::Global;

/// Bytes in hexadecimal.
pub(crate) fn bytes_of(alloc: Global, digits: &str) -> Result<Vec<u8>, Fault> {
    hex::decode(alloc, digits).ok().ok_or(Fault::BadFields)
}

/// A number.
fn number(digits: &str) -> Result<u64, Fault> {
    digits.parse().ok().ok_or(Fault::BadFields)
}

/// A client.
pub(crate) fn client(digits: &str) -> Result<ClientId, Fault> {
    let number = u8::try_from(number(digits)?);
    Ok(ClientId(number.ok().ok_or(Fault::BadFields)?))
}

/// The client and the number of a request.
pub(crate) fn key_of(words: &str) -> Result<RequestId, Fault> {
    let (first, second) = words.split_once(' ').unwrap_or((words, ""));
    Ok(RequestId {
        client: client(first)?,
        seq: Seq(number(second)?),
    })
}

/// Adds a request, and says whether it is new.
fn add(pool: &mut Mempool, request: &CommandView<'_>) -> Result<bool, Fault> {
    match pool.plan(request)? {
        Some(request) => {
            pool.insert(request)?;
            Ok(true)
        }
        None => Ok(false),
    }
}

/// Adds the request of a Request frame, and says whether it is new.
fn ask_bytes(config: &Config, pool: &mut Mempool, bytes: &[u8]) -> Result<bool, Fault> {
    let Ok(Frame::Request(request)) = read(config, bytes) else {
        return Err(Fault::NotMine);
    };
    add(pool, &request)
}

/// The same, of hexadecimal digits.
pub(crate) fn ask(
    alloc: Global,
    config: &Config,
    pool: &mut Mempool,
    digits: &str,
) -> Result<&'static str, Fault> {
    let bytes = bytes_of(alloc, digits)?;
    Ok(if ask_bytes(config, pool, &bytes)? {
        "new"
    } else {
        "pending"
    })
}

/// Adds so many requests, all as this one but for their numbers, which go up from 1. How many were new.
pub(crate) fn fill(
    alloc: Global,
    config: &Config,
    pool: &mut Mempool,
    words: &str,
) -> Result<u64, Fault> {
    let (count, digits) = words.split_once(' ').unwrap_or((words, ""));
    let mut bytes = bytes_of(alloc, digits)?;
    let mut new = 0u64;
    for seq in 1..=number(count)? {
        if bytes.len() < 11 {
            return Err(Fault::NotAFrame);
        }
        bytes[3..11].copy_from_slice(&seq.to_be_bytes());
        if ask_bytes(config, pool, &bytes)? {
            new = new.saturating_add(1);
        }
    }
    Ok(new)
}

/// How many requests a block takes on whose branch this one stands, and these, each with its length.
pub(crate) fn pick(alloc: Global, pool: &Mempool, words: &str) -> Result<String, Fault> {
    let picked = pool.pick(&[key_of(words)?])?;
    let mut text = format!(in alloc; "{}", picked.len())?;
    for request in &picked {
        let bytes = request.bytes().len();
        write!(text, "; {} {} {bytes}", request.client(), request.seq())?;
    }
    Ok(text)
}

/// Drops what is executed, and says how many requests are left.
pub(crate) fn drop_executed(pool: &mut Mempool, words: &str) -> Result<usize, Fault> {
    let RequestId { client, seq } = key_of(words)?;
    pool.drop_executed(client, seq);
    Ok(pool.len())
}
