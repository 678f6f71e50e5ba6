//! Applying payloads to the cache.

ghost use Rattle.std.specs.Prelude.{◌≡◌, IfOk, OnOk, OnErr, fold};
ghost use Rattle.definitions.specs.Cache.{apply, apply_payload, used, values_of};
ghost use Rattle.definitions.specs.Replies as replies;
ghost use Rattle.definitions.specs.Replies.{reply_text};
ghost use Rattle.mc_lines.specs.Meaning.{asked_of, keys_of, reply_of};
ghost use Rattle.executor.specs.Changing.{IsChanging};

use appending::append;
use cache::Cache;
use ids::Fault;
use mc_lines::{Keys, Reply, Request, read_canonical, write_reply};
use std::alloc::Global;

/// The most bytes in the text of a reply that comes with a change of the cache: a number below 2^64, CR LF.
const MOST_CHANGED: usize = 22;

/// The text of one reply, to be told now and to be kept.
#[derive(Drop)]
pub struct ReplyTexts {
    pub told: Vec<u8>,
    pub kept: Vec<u8>,
}

/// The text of a reply that comes with no change.
fn texts_of(alloc: Global, reply: &Reply) -> Result<ReplyTexts, Fault>
    ensures told { IfOk result (λ texts. texts.told.items ≡ reply_text (reply_of reply.now)) }
    ensures kept { IfOk result (λ texts. texts.kept.items ≡ reply_text (reply_of reply.now)) }
    ensures memory { OnErr result (result ≡ Err Fault.Memory) }
{
    let mut told = Vec::new(alloc);
    write_reply(reply, &mut told)?;
    let kept = Vec::from_slice(alloc, told.as_slice())?;
    Ok(ReplyTexts { told, kept })
}

/// Tells what keys have. Their uses are counted once the text stands.
fn retrieve(
    alloc: Global,
    cache: &mut Cache,
    keys: Keys<'_>,
    with_cas_unique: bool,
) -> Result<ReplyTexts, Fault>
    ensures left { OnOk result (cache.new ≡ fold used cache.old (keys_of keys.entry)) }
    ensures told { IfOk result (λ texts. texts.told.items
        ≡ reply_text (replies.values (values_of cache.old (keys_of keys.entry)) with_cas_unique)) }
    ensures kept { IfOk result (λ texts. texts.kept.items
        ≡ reply_text (replies.values (values_of cache.old (keys_of keys.entry)) with_cas_unique)) }
    ensures unchanged { OnErr result (cache.new ≡ cache.old) }
    ensures memory { OnErr result (result ≡ Err Fault.Memory) }
{
    let reply = cache.tell(keys, with_cas_unique)?;
    let texts = texts_of(alloc, &reply)?;
    cache.count_uses(keys);
    Ok(texts)
}

/// Does what a request asks that is no retrieval.
///
/// The room for each text that comes with a change is made first; a longer one comes with no change.
fn change(alloc: Global, cache: &mut Cache, request: &Request<'_>) -> Result<ReplyTexts, Fault>
    requires { IsChanging (asked_of request.now) }
    ensures left { OnOk result (cache.new ≡ (apply cache.old (asked_of request.now)).0) }
    ensures told { IfOk result (λ texts. texts.told.items
        ≡ reply_text (apply cache.old (asked_of request.now)).1) }
    ensures kept { IfOk result (λ texts. texts.kept.items
        ≡ reply_text (apply cache.old (asked_of request.now)).1) }
    ensures unchanged { OnErr result (cache.new ≡ cache.old) }
    ensures memory { OnErr result (result ≡ Err Fault.Memory) }
{
    let mut told = Vec::with_capacity(alloc, MOST_CHANGED)?;
    let mut kept = Vec::with_capacity(alloc, MOST_CHANGED)?;
    let reply = cache.apply(request)?;
    write_reply(&reply, &mut told)?;
    append(&mut kept, &[told.as_slice()])?;
    Ok(ReplyTexts { told, kept })
}

/// Does what a request asks, and gives the text of the reply.
fn perform(alloc: Global, cache: &mut Cache, request: &Request<'_>) -> Result<ReplyTexts, Fault>
    ensures left { OnOk result (cache.new ≡ (apply cache.old (asked_of request.now)).0) }
    ensures told { IfOk result (λ texts. texts.told.items
        ≡ reply_text (apply cache.old (asked_of request.now)).1) }
    ensures kept { IfOk result (λ texts. texts.kept.items
        ≡ reply_text (apply cache.old (asked_of request.now)).1) }
    ensures unchanged { OnErr result (cache.new ≡ cache.old) }
    ensures memory { OnErr result (result ≡ Err Fault.Memory) }
{
    match *request {
        Request::Get(keys) => retrieve(alloc, cache, keys, false),
        Request::Gets(keys) => retrieve(alloc, cache, keys, true),
        _ => change(alloc, cache, request),
    }
}

/// Does what a payload asks, and gives the text of the reply; one that isn't a canonical request leaves
/// the cache. All memory is taken before anything changes.
pub(crate) fn apply(alloc: Global, cache: &mut Cache, payload: &[u8]) -> Result<ReplyTexts, Fault>
    ensures left { OnOk result (cache.new ≡ (apply_payload cache.old payload.now).0) }
    ensures told { IfOk result (λ texts. texts.told.items
        ≡ reply_text (apply_payload cache.old payload.now).1) }
    ensures kept { IfOk result (λ texts. texts.kept.items
        ≡ reply_text (apply_payload cache.old payload.now).1) }
    ensures unchanged { OnErr result (cache.new ≡ cache.old) }
    ensures memory { OnErr result (result ≡ Err Fault.Memory) }
{
    match read_canonical(payload) {
        Some(request) => perform(alloc, cache, &request),
        None => texts_of(alloc, &Reply::NoRequest),
    }
}
