//! A liar: how it lies, and what it remembers.

ghost use Rattle.std.specs.Prelude.{◌≡◌, IfOk, OnErr};
ghost use Rattle.signed_frames.specs.Outs.{sent_of};
ghost use Rattle.liars.specs.Lying.{IsStep, new_lying, seed_of};
ghost use Rattle.liars.specs.Told.{told_by};

use crate::any::Whims;
use crate::claims::Claims;
use crate::lies::Lies;
use crate::low::{Certificates, with_low_block};
use crate::plain::{Lie, plain_lie};
use authenticators::ReplicaKeyring;
use ids::Fault;
use signed_frames::Sending;
use std::alloc::Global;
use std::marker::Model;

/// How a replica lies.
#[derive(Clone, Copy, Debug, PartialEq, Eq)]
pub enum Liar {
    /// It remembers nothing.
    Plain(Lie),
    /// It leads rightly. But at each 512th height it proposes, in place of its block, an empty one that justifies a block
    /// 64 to 513 heights lower, by a certificate that it sent before, and votes for it.
    LowJustifier,
    /// Behind each frame it announces its view with a certificate for a block that nobody has, each time another one. Its
    /// own announcements it keeps back.
    FalseClaims,
    /// It draws from this seed what it does with each frame: it sends it as it is, with one receiver's tag alone, or with
    /// no right tag, or puts it by and sends the one that it put by before, or sends nothing.
    Any(u64),
}

impl Liar {
    /// From which word it draws.
    fn seed(self) -> u64
        ensures { result ≡ seed_of self }
    {
        match self {
            Liar::Any(seed) => seed,
            Liar::Plain(_) | Liar::LowJustifier | Liar::FalseClaims => 0,
        }
    }
}

/// A liar, its keys, with which it signs its lies, and what it remembers.
#[derive(Drop)]
pub struct Lying {
    liar: Liar,
    keyring: ReplicaKeyring,
    kept: Certificates,
    whims: Whims,
    claims: Claims,
}

impl Model for Lying {
    ghost use Rattle.liars.specs.Lying as lying;

    ghost Value = { lying.Lying };

    ghost view = { λ l. record {
      liar = l.liar;
      keys = l.keyring;
      kept = l.kept;
      whims = l.whims;
      claims = l.claims;
    } };
}

impl Lying {
    /// A liar that has seen no frame.
    pub fn new(alloc: Global, keyring: ReplicaKeyring, liar: Liar) -> Lying
        ensures { result ≡ new_lying liar keyring }
    {
        Lying {
            liar,
            keyring,
            kept: Certificates::new(alloc),
            whims: Whims::new(liar.seed()),
            claims: Claims::new(),
        }
    }

    /// What goes out where a replica of this keyring wants to send a frame.
    ///
    /// `Memory` is the one refusal. Then the frame is lost, and the liar remembers what it remembered before.
    pub fn lie(&mut self, alloc: Global, sending: Sending) -> Result<Lies, Fault>
        ensures lies { IfOk result (λ lies. IsStep self.old (sent_of sending) self.new (told_by lies)) }
        ensures memory { OnErr result (result ≡ Err Fault.Memory) }
        ensures unchanged { OnErr result (self.new ≡ self.old) }
    {
        match self.liar {
            Liar::Plain(lie) => {
                let out = plain_lie(alloc, &self.keyring, lie, sending)?;
                Ok(Lies::sent(alloc, out))
            }
            Liar::LowJustifier => with_low_block(alloc, &self.keyring, &mut self.kept, sending),
            Liar::FalseClaims => {
                let out = self.claims.tell(alloc, &self.keyring, sending)?;
                Ok(Lies::sent(alloc, out))
            }
            Liar::Any(_) => {
                let out = self.whims.tell(alloc, self.keyring.config(), sending)?;
                Ok(Lies::sent(alloc, out))
            }
        }
    }
}
