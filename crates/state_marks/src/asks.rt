//! What a process is asked by who may write into its state directory: files there, so that neither a signal nor a port is
//! needed.

use crate::refusal::Refusal;
use std::fs;
use std::fs::File;
use std::rt::Files;

/// What a replica's process is asked.
#[derive(Clone, Copy, Debug, PartialEq, Eq)]
pub enum Ask {
    /// To write its window into the directory.
    Window,
    /// To stop, once it has written its window.
    Stop,
}

impl Ask {
    /// The name of the file by which it is asked.
    fn file(self) -> &'static str {
        match self {
            Ask::Window => "ask-window",
            Ask::Stop => "ask-stop",
        }
    }

    /// Asks it of the process that has this directory.
    pub fn put<R: Files + AllocGlobal>(self, rt: &R, state: &str) -> Result<(), Refusal> {
        let path = format!(in rt.alloc(); "{state}/{}", self.file())?;
        match File::create(rt, path.as_str()) {
            Ok(_) => Ok(()),
            Err(_) => Err(Refusal::CannotKeep),
        }
    }

    /// Whether it is asked. Where the directory can't be read it isn't.
    pub fn stands<R: Files + AllocGlobal>(self, rt: &R, state: &str) -> bool {
        match format!(in rt.alloc(); "{state}/{}", self.file()) {
            Ok(path) => File::open(rt, path.as_str()).is_ok(),
            Err(_) => false,
        }
    }

    /// It isn't asked any more: it was done, or nobody did it.
    pub fn take_back<R: Files + AllocGlobal>(self, rt: &R, state: &str) {
        if let Ok(path) = format!(in rt.alloc(); "{state}/{}", self.file()) {
            let _gone = fs::remove_file(rt, path.as_str());
        }
    }
}
