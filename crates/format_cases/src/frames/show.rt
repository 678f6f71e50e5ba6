//! What a frame is, in words.
//!
//! That is its kind and its fields in the order in which they are spelled, a space before each. A
//! field is a number, or bytes in hexadecimal, or a list: `[`, the fields of each element, and `]`.
//! Of more than 64 bytes the length and the first half of the SHA-256 digest are told, with `:`
//! between them; where there are no bytes stands `-`. Behind a core stands the digest of its block.
//!
//!     Request CLIENT SEQ PAYLOAD VECTOR
//!     Proposal VIEW CORE BLOCK DIGEST [ VOTER VECTOR .. ] VECTOR
//!     Vote DIGEST VOTER VECTOR
//!     NewView VIEW SENDER DIGEST [ VOTER VECTOR .. ] VECTOR
//!     Reply REPLICA CLIENT SEQ PLACE TEXT TAG
//!     Fetch SENDER DIGEST TAG
//!     Block SENDER CORE BLOCK DIGEST [ VOTER VECTOR .. ] TAG
//!
//! where `CORE` is
//!
//!     PARENT HEIGHT JUSTIFY-HEIGHT [ CLIENT SEQ PAYLOAD VECTOR .. ]

use anyhow::Result;
use frames_view::{CertificateView, CommandView, CoreView, Frame, ReplyView, VoteView};
use ids::Fault;
use sha2::{Digest, Sha256};
use std::alloc::Global;

/// The most bytes that are told in full.
const MOST_TOLD: usize = 64;

/// A line that is being made.
#[derive(Drop)]
pub(crate) struct Line {
    alloc: Global,
    text: String,
}

impl Line {
    pub(crate) fn new(alloc: Global) -> Line {
        Line {
            alloc,
            text: String::new(alloc),
        }
    }

    pub(crate) fn alloc(&self) -> Global {
        self.alloc
    }

    pub(crate) fn into_text(self) -> String {
        let Line { text, .. } = self;
        text
    }

    pub(crate) fn word(&mut self, word: &str) -> Result<()> {
        self.text.push_str(word)?;
        Ok(())
    }

    /// The number of a refusal.
    pub(crate) fn refusal(&mut self, fault: Fault) -> Result<()> {
        write!(self.text, "{}", fault.number())?;
        Ok(())
    }

    fn number(&mut self, number: u64) -> Result<()> {
        write!(self.text, " {number}")?;
        Ok(())
    }

    fn bytes(&mut self, bytes: &[u8]) -> Result<()> {
        if bytes.is_empty() {
            return self.word(" -");
        }
        if bytes.len() <= MOST_TOLD {
            write!(self.text, " {}", hex::encode(self.alloc, bytes)?)?;
            return Ok(());
        }
        let digest = hex::encode(self.alloc, &Sha256::digest(bytes)[..16])?;
        write!(self.text, " {}:{digest}", bytes.len())?;
        Ok(())
    }

    fn command(&mut self, command: &CommandView) -> Result<()> {
        self.number(u64::from(command.client().0))?;
        self.number(command.seq().0)?;
        self.bytes(command.payload())?;
        self.bytes(command.vector())
    }

    fn core(&mut self, core: &CoreView) -> Result<()> {
        self.bytes(core.parent())?;
        self.number(core.height().0)?;
        self.number(core.justify_height().0)?;
        self.word(" [")?;
        for command in core.commands() {
            self.command(&command)?;
        }
        self.word(" ]")?;
        self.bytes(&core.digest().0)
    }

    fn vote(&mut self, vote: &VoteView) -> Result<()> {
        self.number(u64::from(vote.voter().0))?;
        self.bytes(vote.vector())
    }

    fn certificate(&mut self, certificate: &CertificateView) -> Result<()> {
        self.bytes(certificate.digest())?;
        self.word(" [")?;
        for vote in certificate.votes() {
            self.vote(&vote)?;
        }
        self.word(" ]")
    }

    fn reply(&mut self, reply: &ReplyView) -> Result<()> {
        self.number(u64::from(reply.replica().0))?;
        self.number(u64::from(reply.client().0))?;
        self.number(reply.seq().0)?;
        self.number(reply.place().0)?;
        self.bytes(reply.text())?;
        self.bytes(reply.tag())
    }

    /// The kind and the fields of a frame.
    pub(crate) fn frame(&mut self, frame: &Frame) -> Result<()> {
        write!(self.text, "{}", frame.kind())?;
        match frame {
            Frame::Request(command) => self.command(command),
            Frame::Proposal(proposal) => {
                self.number(proposal.view().0)?;
                self.core(&proposal.core())?;
                self.certificate(&proposal.certificate())?;
                self.bytes(proposal.vector())
            }
            Frame::Vote(vote) => {
                self.bytes(vote.digest())?;
                self.vote(&vote.vote())
            }
            Frame::NewView(new_view) => {
                self.number(new_view.view().0)?;
                self.number(u64::from(new_view.sender().0))?;
                self.certificate(&new_view.certificate())?;
                self.bytes(new_view.vector())
            }
            Frame::Reply(reply) => self.reply(reply),
            Frame::Fetch(fetch) => {
                self.number(u64::from(fetch.sender().0))?;
                self.bytes(fetch.digest())?;
                self.bytes(fetch.tag())
            }
            Frame::Block(block) => {
                self.number(u64::from(block.sender().0))?;
                self.core(&block.core())?;
                self.certificate(&block.certificate())?;
                self.bytes(block.tag())
            }
        }
    }
}
