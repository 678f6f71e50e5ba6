//! What the two ends say, byte by byte.

ghost use Rattle.std.specs.Prelude.{◌≡◌, Some, None, if◌then◌else◌};
ghost use Rattle.handshake.specs.Texts.{greeting_bytes, is_greeting, nonce_in, sizes_digest, ask_head};
ghost use Rattle.handshake.specs.Texts.{ask_text, ask_bytes, ask_in, ask_tag_in};
ghost use Rattle.definitions.specs.Tags.{hmac};
ghost use Rattle.handshake.specs.Texts.{answer_text, answer_bytes, answer_life_in, answer_tag_in};

use crate::ask::Ask;
use crate::label::Label;
use crate::parts::{join, part};
use crate::words::{Life, Nonce};
use authenticators::hmac;
use ids::{Config, PartyId};
use sha2::{Digest, Sha256};

/// The acceptor's first words.
const WORDS: &[u8; 13] = b"mcbft link 1\n";

/// The bytes of a greeting: the words, and the acceptor's nonce.
pub type GreetingBytes = [u8; 29];

/// The bytes of an ask: dialler, acceptor, digest of its sizes, life, nonce, tag.
pub type AskBytes = [u8; 100];

/// The bytes of an answer: life, tag.
pub type AnswerBytes = [u8; 48];

/// What an acceptor says at once, with a nonce that it makes for this handshake.
pub fn greeting(nonce: Nonce) -> GreetingBytes
    ensures { result ≡ greeting_bytes nonce }
{
    join(&[WORDS, &nonce.0])
}

/// The nonce of a greeting, where the bytes are one.
pub(crate) fn read_greeting(bytes: &GreetingBytes) -> Option<Nonce>
    ensures { result ≡ (if is_greeting bytes.now then Some (nonce_in bytes.now) else None) }
{
    if part::<13>(bytes, 0) == *WORDS {
        Some(Nonce(part(bytes, 13)))
    } else {
        None
    }
}

/// The digest of a deployment's sizes.
pub(crate) fn sizes_digest(config: &Config) -> [u8; 32]
    ensures { result ≡ sizes_digest config.now }
{
    config.holds();
    let [k0, k1, k2, k3] = (config.most_keys() as u32).to_be_bytes();
    Sha256::digest(&[config.faults(), config.clients(), k0, k1, k2, k3])
}

/// What an ask says before its tag.
fn ask_head(ask: &Ask) -> [u8; 68]
    ensures { result ≡ ask_head ask.now }
{
    join(&[
        &ask.dialler.0.to_be_bytes(),
        &ask.acceptor.0.to_be_bytes(),
        &ask.sizes,
        &ask.life.0,
        &ask.nonce.0,
    ])
}

/// The tag of an ask to who greeted with this nonce.
pub(crate) fn ask_tag(key: &[u8; 32], greeted: Nonce, ask: &Ask) -> [u8; 32]
    ensures { result ≡ hmac key.now (ask_text greeted ask.now) }
{
    let text: [u8; 85] = join(&[
        &[Label::Ask.number()],
        &ask.dialler.0.to_be_bytes(),
        &ask.acceptor.0.to_be_bytes(),
        &greeted.0,
        &ask.nonce.0,
        &ask.sizes,
        &ask.life.0,
    ]);
    hmac(key, &text)
}

/// An ask, as it goes over a link.
pub(crate) fn ask_bytes(key: &[u8; 32], greeted: Nonce, ask: &Ask) -> AskBytes
    ensures { result ≡ ask_bytes key.now greeted ask.now }
{
    join(&[&ask_head(ask), &ask_tag(key, greeted, ask)])
}

/// What stands in an ask, and its tag.
pub(crate) fn read_ask(bytes: &AskBytes) -> (Ask, [u8; 32])
    ensures ask { result.0 ≡ ask_in bytes.now }
    ensures tag { result.1 ≡ ask_tag_in bytes.now }
{
    let ask = Ask {
        dialler: PartyId(u16::from_be_bytes(part(bytes, 0))),
        acceptor: PartyId(u16::from_be_bytes(part(bytes, 2))),
        sizes: part(bytes, 4),
        life: Life(part(bytes, 36)),
        nonce: Nonce(part(bytes, 52)),
    };
    (ask, part(bytes, 68))
}

/// The tag of an answer to an ask, in the acceptor's life.
pub(crate) fn answer_tag(key: &[u8; 32], greeted: Nonce, ask: &Ask, life: Life) -> [u8; 32]
    ensures { result ≡ hmac key.now (answer_text greeted ask.now life) }
{
    let text: [u8; 101] = join(&[
        &[Label::Answer.number()],
        &ask.acceptor.0.to_be_bytes(),
        &ask.dialler.0.to_be_bytes(),
        &greeted.0,
        &ask.nonce.0,
        &ask.sizes,
        &ask.life.0,
        &life.0,
    ]);
    hmac(key, &text)
}

/// An answer, as it goes over a link.
pub(crate) fn answer_bytes(key: &[u8; 32], greeted: Nonce, ask: &Ask, life: Life) -> AnswerBytes
    ensures { result ≡ answer_bytes key.now greeted ask.now life }
{
    let tag = answer_tag(key, greeted, ask, life);
    join(&[&life.0, &tag])
}

/// The life that stands in an answer, and its tag.
pub(crate) fn read_answer(bytes: &AnswerBytes) -> (Life, [u8; 32])
    ensures life { result.0 ≡ answer_life_in bytes.now }
    ensures tag { result.1 ≡ answer_tag_in bytes.now }
{
    (Life(part(bytes, 0)), part(bytes, 16))
}
