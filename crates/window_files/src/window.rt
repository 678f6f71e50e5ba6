ghost use Rattle.std.specs.Prelude.{◌≡◌, ℕ, IfOk, Err};
ghost use Rattle.audit.specs.Judged.{member_of};
ghost use Rattle.deployment.specs.declared.refusal.Refusal.TheVariants as refusal;
ghost use Rattle.window_files.specs.Files.{shown, last_digest, text_of, IsNoFile};
ghost use Rattle.window_files.specs.Windows.{IsWindowOf};

use crate::head::Head;
use crate::own::{digests_of, head_of};
use crate::reading::{read_digests, read_head};
use crate::writing::{push_digests, push_head};
use deployment::Refusal;
use frames_view::genesis_digest;
use ids::{Digest, Height};
use replica::Replica;
use std::alloc::{AllocError, Global};
use std::marker::Model;

/// What a replica's window shows of its executed blocks: the digest of each, by height.
#[derive(Drop)]
pub struct Window {
    head: Head,
    digests: Vec<Digest>,
}

impl Model for Window {
    ghost use Rattle.window_files.specs.Files as files;

    ghost Value = { files.Window };

    ghost view = { λ w. record { head = w.head; digests = w.digests.items } };

    ghost invariant = { λ w. files.IsWindow (record { head = w.head; digests = w.digests.items }) };
}

impl Window {
    /// What a replica's window shows now. It takes memory for each height, and refuses only where that is refused.
    pub fn of(alloc: Global, replica: &Replica) -> Result<Window, AllocError>
        ensures own { IfOk result (λ w. IsWindowOf w (member_of replica.now)) }
        ensures sizes { IfOk result (λ w. w.head.config ≡ replica.now.keys.sizes) }
    {
        let head = head_of(replica);
        let digests = digests_of(alloc, replica, &head)?;
        Ok(Window { head, digests })
    }

    /// Reads a window file, all of it. A refusal names the first line that isn't what has to stand there.
    pub fn read(alloc: Global, text: &[u8]) -> Result<Window, Refusal>
        ensures read { IfOk result (λ w. text.now ≡ text_of w) }
        ensures bad { (line : ℕ) → result ≡ Err (refusal.BadLine line) → IsNoFile text.now }
    {
        let (head, rest) = match read_head(text) {
            Ok(read) => read,
            Err(refusal) => return Err(refusal),
        };
        let digests = read_digests(alloc, rest, head.count())?;
        Ok(Window { head, digests })
    }

    /// Its file. It refuses only where memory is refused.
    pub fn write(&self, alloc: Global) -> Result<Vec<u8>, AllocError>
        ensures { IfOk result (λ text. text.items ≡ text_of self.now) }
    {
        let mut text = Vec::new(alloc);
        push_head(&mut text, &self.head)?;
        push_digests(&mut text, &self.digests)?;
        Ok(text)
    }

    /// Whose window it is, and which heights it shows.
    pub fn head(&self) -> &Head
        ensures { result.now ≡ self.now.head }
    {
        &self.head
    }

    /// The digest of the block of this height that was executed. None where the height is above the last one, or
    /// below the window. Genesis is always there.
    pub fn shown(&self, height: Height) -> Option<Digest>
        ensures { result ≡ shown height self.now }
    {
        let (height, lowest) = (height.0, self.head.lowest.0);
        if height == 0 {
            return Some(genesis_digest());
        }
        if height < lowest {
            return None;
        }
        self.digests.get((height - lowest) as usize).copied()
    }

    /// The digest of the last executed block.
    pub fn last(&self) -> Digest
        ensures { result ≡ last_digest self.now }
    {
        self.shown(self.head.height).unwrap_or(genesis_digest())
    }
}
