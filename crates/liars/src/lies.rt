//! What goes out in place of a frame.

ghost use Rattle.std.specs.Prelude.{◌≡◌, [], IfOk, map};
ghost use Rattle.signed_frames.specs.Outs.{sent_of};
ghost use Rattle.liars.specs.Told.{as_it_is, told_by};

use crate::plain::one;
use signed_frames::Sending;
use std::alloc::{AllocError, Global};

/// What a liar sends in place of a frame, and the frames that it hands to its own replica.
#[derive(Drop)]
pub struct Lies {
    pub out: Vec<Sending>,
    pub own: Vec<Vec<u8>>,
}

impl Lies {
    /// It sends these frames.
    pub(crate) fn sent(alloc: Global, out: Vec<Sending>) -> Lies
        ensures { told_by result ≡ record { out = map sent_of out.items; own = [] } }
    {
        Lies {
            out,
            own: Vec::new(alloc),
        }
    }

    /// It sends the frame as it is.
    pub(crate) fn as_it_is(alloc: Global, sending: Sending) -> Result<Lies, AllocError>
        ensures { IfOk result (λ lies. told_by lies ≡ as_it_is (sent_of sending)) }
    {
        let out = one(alloc, sending)?;
        Ok(Lies::sent(alloc, out))
    }
}
