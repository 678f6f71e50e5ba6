ghost use Rattle.std.specs.Prelude.{◌≡◌, ◌+◌, ◌≤◌, ◌++◌, ◌∷◌, length, decimal, codes, vec_len, vec_capacity};
ghost use Rattle.definitions.specs.Requests.{canonical, cas, verb_name, space, crlf};
ghost use Rattle.definitions.specs.Replies.{ended, value_text, reply_text};
ghost use Rattle.mc_lines.specs.Meaning.{verb_of, asked_of, value_of, reply_of};
ghost use Rattle.definitions.specs.Writing.{IsAppended};
ghost use Rattle.appending.specs.Joined.{joined, IsLength};
ghost use Rattle.mc_lines.specs.Writing.{values_text, store_text};

use crate::decimal::Decimal;
use crate::reply::{Reply, Value};
use crate::request::{Request, Verb};
use appending::{add_parts_len, append, put, put_parts};
use ids::Fault;

/// The decimals in the text of a value.
#[derive(Drop)]
struct Numbers {
    flags: Decimal,
    size: Decimal,
    cas_unique: Decimal,
}

/// The name of a storage command.
fn name_of(verb: Verb) -> &'static [u8]
    ensures { result.now ≡ verb_name (verb_of verb) }
{
    match verb {
        Verb::Set => b"set",
        Verb::Add => b"add",
        Verb::Replace => b"replace",
        Verb::Append => b"append",
        Verb::Prepend => b"prepend",
    }
}

/// Appends the text of a storage command.
fn write_store<'a>(
    name: &'a [u8],
    key: &'a [u8],
    flags: u32,
    stored: &'a [u8],
    out: &mut Vec<u8>,
) -> Result<(), Fault>
    ensures { IsAppended out.old out.new (store_text name.now key.now flags stored.now) result }
{
    let flags = Decimal::new(u64::from(flags));
    let flags = flags.as_slice();
    let size = Decimal::new(stored.len() as u64);
    let size = size.as_slice();
    append(
        out,
        &[
            name, b" ", key, b" ", flags, b" 0 ", size, b"\r\n", stored, b"\r\n",
        ],
    )
}

/// Appends the text of a cas.
fn write_cas(
    key: &[u8],
    flags: u32,
    stored: &[u8],
    cas_unique: u64,
    out: &mut Vec<u8>,
) -> Result<(), Fault>
    ensures { IsAppended out.old out.new (canonical (cas key.now flags stored.now cas_unique)) result }
{
    let flags = Decimal::new(u64::from(flags));
    let flags = flags.as_slice();
    let size = Decimal::new(stored.len() as u64);
    let size = size.as_slice();
    let cas_unique = Decimal::new(cas_unique);
    let cas_unique = cas_unique.as_slice();
    append(
        out,
        &[
            b"cas ", key, b" ", flags, b" 0 ", size, b" ", cas_unique, b"\r\n", stored, b"\r\n",
        ],
    )
}

/// Appends a line of a name and a text.
fn write_line(name: &[u8], text: &[u8], out: &mut Vec<u8>) -> Result<(), Fault>
    ensures { IsAppended out.old out.new (name.now ++ space ∷ text.now ++ crlf) result }
{
    append(out, &[name, b" ", text, b"\r\n"])
}

/// Appends a line of a name, a key and a number.
fn write_counted(name: &[u8], key: &[u8], value: u64, out: &mut Vec<u8>) -> Result<(), Fault>
    ensures { IsAppended out.old out.new
        (name.now ++ space ∷ key.now ++ space ∷ decimal value ++ crlf) result }
{
    let value = Decimal::new(value);
    let value = value.as_slice();
    append(out, &[name, b" ", key, b" ", value, b"\r\n"])
}

/// Appends the canonical text of a request: without the word noreply.
///
/// `Memory` comes only where the spare room was too small, and `out` is as before then. Where a key or the
/// data isn't what a request may have, the text is no request either.
pub fn write_request(request: &Request<'_>, out: &mut Vec<u8>) -> Result<(), Fault>
    ensures { IsAppended out.old out.new (canonical (asked_of request.now)) result }
{
    match *request {
        Request::Store {
            verb,
            key,
            flags,
            stored,
        } => write_store(name_of(verb), key, flags, stored, out),
        Request::Cas {
            key,
            flags,
            stored,
            cas_unique,
        } => write_cas(key, flags, stored, cas_unique, out),
        Request::Get(keys) => write_line(b"get", keys.text, out),
        Request::Gets(keys) => write_line(b"gets", keys.text, out),
        Request::Delete { key } => write_line(b"delete", key, out),
        Request::Incr { key, value } => write_counted(b"incr", key, value, out),
        Request::Decr { key, value } => write_counted(b"decr", key, value, out),
    }
}

impl Numbers {
    /// The decimals in the text of this value.
    fn of(value: &Value) -> Numbers
        ensures flags { result.flags ≡ decimal value.now.flags }
        ensures size { result.size ≡ decimal (length value.now.stored.items) }
        ensures cas_unique { result.cas_unique ≡ decimal value.now.cas_unique }
    {
        Numbers {
            flags: Decimal::new(u64::from(value.flags)),
            size: Decimal::new(value.stored.len() as u64),
            cas_unique: Decimal::new(value.cas_unique),
        }
    }
}

/// The text of a value, in parts.
fn value_parts<'a>(value: &'a Value, numbers: &'a Numbers, with_cas_unique: bool) -> [&'a [u8]; 11]
    requires flags { numbers.now.flags ≡ decimal value.now.flags }
    requires size { numbers.now.size ≡ decimal (length value.now.stored.items) }
    requires cas_unique { numbers.now.cas_unique ≡ decimal value.now.cas_unique }
    ensures { joined result ≡ value_text with_cas_unique (value_of value.now) }
{
    let gap = if with_cas_unique {
        b" ".as_slice()
    } else {
        b"".as_slice()
    };
    let cas_unique = if with_cas_unique {
        numbers.cas_unique.as_slice()
    } else {
        b"".as_slice()
    };
    [
        b"VALUE ",
        value.key.as_slice(),
        b" ",
        numbers.flags.as_slice(),
        b" ",
        numbers.size.as_slice(),
        gap,
        cas_unique,
        b"\r\n",
        value.stored.as_slice(),
        b"\r\n",
    ]
}

/// So many bytes, and those of the text of a value.
fn add_value_len(len: usize, value: &Value, with_cas_unique: bool) -> Result<usize, Fault>
    ensures { IsLength result (len + length (value_text with_cas_unique (value_of value.now))) }
{
    let numbers = Numbers::of(value);
    let parts = value_parts(value, &numbers, with_cas_unique);
    add_parts_len(len, &parts)
}

/// Appends the text of a value, for which there is room.
fn put_value(out: &mut Vec<u8>, value: &Value, with_cas_unique: bool)
    requires { vec_len out.old + length (value_text with_cas_unique (value_of value.now))
        ≤ vec_capacity out.old }
    ensures items { out.new.items ≡ out.old.items ++ value_text with_cas_unique (value_of value.now) }
    ensures len { vec_len out.new
        ≡ vec_len out.old + length (value_text with_cas_unique (value_of value.now)) }
    ensures capacity { vec_capacity out.old ≤ vec_capacity out.new }
{
    let numbers = Numbers::of(value);
    let parts = value_parts(value, &numbers, with_cas_unique);
    put_parts(out, &parts);
}

/// So many bytes, and those of the texts of values.
fn add_values_len(mut len: usize, values: &[Value], with_cas_unique: bool) -> Result<usize, Fault>
    ensures { IsLength result (len + length (values_text with_cas_unique values.now)) }
{
    for value in values {
        len = add_value_len(len, value, with_cas_unique)?;
    }
    Ok(len)
}

/// Appends the texts of values, for which there is room.
fn put_values(out: &mut Vec<u8>, values: &[Value], with_cas_unique: bool)
    requires { vec_len out.old + length (values_text with_cas_unique values.now) ≤ vec_capacity out.old }
    ensures items { out.new.items ≡ out.old.items ++ values_text with_cas_unique values.now }
    ensures len { vec_len out.new ≡ vec_len out.old + length (values_text with_cas_unique values.now) }
    ensures capacity { vec_capacity out.old ≤ vec_capacity out.new }
{
    for value in values {
        put_value(out, value, with_cas_unique);
    }
}

/// Appends the reply to a get or gets.
fn write_values(values: &[Value], with_cas_unique: bool, out: &mut Vec<u8>) -> Result<(), Fault>
    ensures { IsAppended out.old out.new (values_text with_cas_unique values.now ++ ended (codes "END"))
        result }
{
    out.reserve(add_values_len(5, values, with_cas_unique)?)?;
    put_values(out, values, with_cas_unique);
    put(out, b"END\r\n");
    Ok(())
}

/// Appends the text of a reply.
///
/// `Memory` comes only where the spare room was too small, and `out` is as before then.
pub fn write_reply(reply: &Reply, out: &mut Vec<u8>) -> Result<(), Fault>
    ensures { IsAppended out.old out.new (reply_text (reply_of reply.now)) result }
{
    match reply {
        Reply::Stored => append(out, &[b"STORED\r\n"]),
        Reply::NotStored => append(out, &[b"NOT_STORED\r\n"]),
        Reply::Exists => append(out, &[b"EXISTS\r\n"]),
        Reply::NotFound => append(out, &[b"NOT_FOUND\r\n"]),
        Reply::Deleted => append(out, &[b"DELETED\r\n"]),
        Reply::Number(n) => append(out, &[Decimal::new(*n).as_slice(), b"\r\n"]),
        Reply::Values {
            values,
            with_cas_unique,
        } => write_values(values, *with_cas_unique, out),
        Reply::OutOfMemory => append(out, &[b"SERVER_ERROR out of memory storing object\r\n"]),
        Reply::TooLarge => append(out, &[b"SERVER_ERROR object too large for cache\r\n"]),
        Reply::NonNumeric => append(
            out,
            &[b"CLIENT_ERROR cannot increment or decrement non-numeric value\r\n"],
        ),
        Reply::NoRequest => append(out, &[b"ERROR\r\n"]),
    }
}
