//! Keys that anyone can compute, by way of their file.

use anyhow::Result;
use ids::Config;
use key_file::PairKeys;
use std::alloc::Global;

/// Appends the line of two parties, whose key is of their numbers.
fn write_line(alloc: Global, text: &mut String, one: u16, other: u16) -> Result<()> {
    let [a, b] = one.to_be_bytes();
    let [c, d] = other.to_be_bytes();
    let mut key = [7; 32];
    key[..4].copy_from_slice(&[a, b, c, d]);
    let digits = hex::encode(alloc, key.as_slice())?;
    writeln!(text, "{one} {other} {digits}")?;
    Ok(())
}

/// The key file of the replicas and clients of these sizes.
fn text_of(alloc: Global, config: Config) -> Result<String> {
    let replicas = u16::from(config.n());
    let mut text = String::new(alloc);
    for one in 0..replicas {
        for other in one..replicas {
            write_line(alloc, &mut text, one, other)?;
        }
        for client in 0..u16::from(config.clients()) {
            write_line(alloc, &mut text, one, 256 + client)?;
        }
    }
    Ok(text)
}

/// The keys of the replicas and clients of these sizes.
pub(crate) fn keys(alloc: Global, config: Config) -> Result<PairKeys> {
    let text = text_of(alloc, config)?;
    Ok(PairKeys::read(alloc, config, text.as_bytes())?)
}

/// Prints how many lines the key file of 31 replicas and eight clients has, and whether it is one; also without its last
/// byte.
pub(crate) fn tell_key_file<R: AllocGlobal + Print>(rt: &R) -> Result<()> {
    let (alloc, config) = (rt.alloc(), Config::new(10, 8)?);
    let text = text_of(alloc, config)?;
    let lines = text.as_str().lines().count();
    let is_one = PairKeys::read(alloc, config, text.as_bytes()).is_ok();
    println!(rt; "{lines} lines: {is_one}")?;
    if let Some((_, front)) = text.as_bytes().split_last() {
        let is_one = PairKeys::read(alloc, config, front).is_ok();
        println!(rt; "without the last byte: {is_one}")?;
    }
    Ok(())
}
