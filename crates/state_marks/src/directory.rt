//! A state directory: the one file `mark`, and the party's life. Contracts can say nothing of files.

use crate::keeper::Keeper;
use crate::mark::{mark_text, read_mark};
use crate::refusal::Refusal;
use ids::PartyId;
use std::fs::{File, OpenFile};
use std::io::{ErrorKind, Write};
use std::rt::Files;
use std::{fs, io};

/// The state directory of a party. It is for one process at a time.
#[derive(Drop)]
pub struct Directory<'a, R> {
    rt: &'a R,
    path: &'a str,
    party: PartyId,
}

impl<'a, R: Files + AllocGlobal> Directory<'a, R> {
    /// A party's directory, which has to be there.
    pub fn new(rt: &'a R, path: &'a str, party: PartyId) -> Directory<'a, R> {
        Directory { rt, path, party }
    }

    /// The bytes of one of its files, if that is there.
    fn read(&self, name: &str) -> Result<Option<Vec<u8>>, Refusal> {
        let path = format!(in self.rt.alloc(); "{}/{name}", self.path)?;
        match fs::read(self.rt, path.as_str()) {
            Ok(bytes) => Ok(Some(bytes)),
            Err(error) if error.kind() == ErrorKind::NotFound => Ok(None),
            Err(error) if error.kind() == ErrorKind::OutOfMemory => Err(Refusal::Memory),
            Err(_) => Err(Refusal::CannotRead),
        }
    }

    /// Puts these bytes into one of its files in place of what was there, whole or not at all: they are written to a
    /// file beside it, which takes its name once the disk has them.
    fn replace(&self, name: &str, bytes: &[u8]) -> Result<(), Refusal> {
        let path = format!(in self.rt.alloc(); "{}/{name}", self.path)?;
        let beside = format!(in self.rt.alloc(); "{}/{name}.new", self.path)?;
        if self.write(beside.as_str(), bytes).is_err()
            || fs::rename(self.rt, beside.as_str(), path.as_str()).is_err()
            || self.sync().is_err()
        {
            return Err(Refusal::CannotKeep);
        }
        Ok(())
    }

    /// Writes these bytes into a file, and waits until the disk has them.
    fn write(&self, path: &str, bytes: &[u8]) -> io::Result<()> {
        let mut file = File::create(self.rt, path)?;
        file.write_all(bytes)?;
        file.sync_all()
    }

    /// Waits until the disk has the directory's names.
    fn sync(&self) -> io::Result<()> {
        File::open(self.rt, self.path)?.sync_all()
    }

    /// Keeps a replica's window, in place of the one before.
    pub fn keep_window(&self, text: &[u8]) -> Result<(), Refusal> {
        self.replace("window", text)
    }

    /// The mark that it keeps; 0 where it keeps none. `NotItsOwn` where the file has another text: then it isn't known
    /// how far the party spoke.
    pub fn mark(&self) -> Result<u64, Refusal> {
        match self.read("mark")? {
            None => Ok(0),
            Some(text) => read_mark(&text, self.party).ok_or(Refusal::NotItsOwn),
        }
    }

    /// The party's life: the one that the directory keeps, or else this new one, which it keeps from now on.
    pub fn life(&self, new: [u8; 16]) -> Result<[u8; 16], Refusal> {
        match self.read("life")? {
            None => {
                self.replace("life", &new)?;
                Ok(new)
            }
            Some(bytes) => match bytes.as_slice().try_into() {
                Ok(life) => Ok(life),
                Err(_) => Err(Refusal::NotItsOwn),
            },
        }
    }
}

impl<R: Files + AllocGlobal> Keeper for Directory<'_, R> {
    ghost use Rattle.std.specs.Prelude.{⊤};

    ghost keeps = { λ before mark after. ⊤ };

    fn keep(&mut self, mark: u64) -> Result<(), Refusal> {
        let text = mark_text(self.rt.alloc(), self.party, mark)?;
        self.replace("mark", &text)
    }
}
