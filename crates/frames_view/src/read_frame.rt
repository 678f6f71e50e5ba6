//! A frame that was read, beside the bytes that spell it.

ghost use Rattle.std.specs.Prelude.{◌≡◌, option_map, IfOk};
ghost use Rattle.std.specs.Result.{result_ok};
ghost use Rattle.definitions.specs.Frames.{head_len};
ghost use Rattle.definitions.specs.FrameLimits.{IsFrame, IsReadAs};
ghost use Rattle.frames_view.specs.Places.{IsFrameAt};
ghost use Rattle.frames_view.specs.Views.{frame_of};

use crate::frame::read;
use crate::frame_views::Frame;
use ids::{Config, NotAFrame};
use std::marker::Model;

/// A frame, the bytes that it was read from, and at which sizes: who has it needn't read them again.
#[derive(Drop)]
pub struct ReadFrame<'a> {
    config: Config,
    bytes: &'a [u8],
    frame: Frame<'a>,
}

impl<'a> Model for ReadFrame<'a> {
    ghost use Rattle.std.specs.Prelude.{Some};
    ghost use Rattle.definitions.specs.Frames.{head_len};
    ghost use Rattle.definitions.specs.FrameLimits.{IsReadAs};
    ghost use Rattle.frames_view.specs.Places.{IsFrameAt};
    ghost use Rattle.frames_view.specs.Views.{frame_of};
    ghost use Rattle.frames_view.specs.Reads.{FrameRead};

    ghost Value = { FrameRead };

    ghost view = { λ r. record { sizes = r.config; bytes = r.bytes; frame = r.frame } };

    ghost invariant = { λ r. IsReadAs r.config r.bytes.now (Some (frame_of r.frame))
        × IsFrameAt r.bytes (head_len r.bytes.now) r.frame };
}

impl<'a> ReadFrame<'a> {
    /// The frame that the bytes are, as `read` gives it.
    pub fn new(config: &Config, bytes: &'a [u8]) -> Result<ReadFrame<'a>, NotAFrame>
        ensures value { IsReadAs config.now bytes.now (option_map (λ r. frame_of r.frame) (result_ok result)) }
        ensures made { IfOk result (λ r. (r.sizes ≡ config.now) × (r.bytes ≡ bytes.entry)) }
    {
        let frame = read(config, bytes)?;
        Ok(ReadFrame {
            config: *config,
            bytes,
            frame,
        })
    }

    /// The sizes at which the bytes were read.
    pub fn config(&self) -> Config
        ensures { result ≡ self.now.sizes }
    {
        self.config
    }

    /// The bytes.
    pub fn bytes(&self) -> &'a [u8]
        ensures { result ≡ self.now.bytes }
    {
        self.bytes
    }

    /// The frame.
    pub fn frame(&self) -> &Frame<'a>
        ensures frame { result.now ≡ self.now.frame }
        ensures fits { IsFrame self.now.sizes (frame_of self.now.frame) }
    {
        &self.frame
    }

    /// The frame that the bytes are at these sizes, as `read` gives it. They are read again where they were read at others.
    pub fn at(&self, config: &Config) -> Result<Frame<'a>, NotAFrame>
        ensures value { IsReadAs config.now self.now.bytes.now (option_map frame_of (result_ok result)) }
        ensures lent { IfOk result (λ f. IsFrameAt self.now.bytes (head_len self.now.bytes.now) f) }
    {
        if self.config == *config {
            return Ok(self.frame);
        }
        read(config, self.bytes)
    }
}
