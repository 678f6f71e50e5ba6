ghost use Rattle.std.specs.Prelude.{◌≡◌, ◌+◌, ◌≤◌, ◌<◌, OnOk, OnErr, IfOk, Err, length, take};
ghost use Rattle.std.specs.Io.{ReadsAtMost, WritesAtMost};
ghost use Rattle.std.specs.Io.KnownBytes.{ReadConsumes, WriteAppends, Appends, Keeps};
ghost use Rattle.ids.specs.declared.fault.Fault.TheVariants.{ReadFailed, WriteFailed};
ghost use Rattle.connection.specs.Devices.{CountsOne, WritesPart};

use ids::Fault;
use std::io::{ErrorKind, Read, Write};
use std::marker::Model;

/// A reader or a writer, and how often it failed.
///
/// A read or a write that was interrupted is no failure: it is made again. A write that takes none
/// of some bytes is one, and so are 2^64 - 1 interruptions in one call.
#[derive(Drop)]
pub struct Counted<D> {
    device: D,
    failures: u64,
}

impl<D> Model for Counted<D> {
    ghost use Rattle.connection.specs.Devices.{Device};

    ghost Value = { Device D };

    ghost view = { λ c. record { device = c.device; failures = c.failures } };
}

impl<D> Counted<D> {
    /// The device, which hasn't failed yet.
    pub fn new(device: D) -> Counted<D>
        ensures { result ≡ record { device = device; failures = 0 } }
    {
        Counted {
            device,
            failures: 0,
        }
    }

    /// How often the device failed. At 2^64 - 1 the count stays.
    pub fn failures(&self) -> u64
        ensures { result ≡ self.now.failures }
    {
        self.failures
    }

    /// The device again.
    pub fn into_device(self) -> D
        ensures { result ≡ self.device }
    {
        self.device
    }

    /// Counts a failure.
    fn fail(&mut self)
        ensures device { self.new.device ≡ self.old.device }
        ensures failures { CountsOne self.old.failures self.new.failures }
    {
        self.failures = self.failures.saturating_add(1);
    }
}

impl<R: Read> Counted<R> {
    /// Reads once. `ReadFailed` where the device failed in this call.
    pub fn read(&mut self, piece: &mut [u8]) -> Result<usize, Fault>
        ensures bound { ReadsAtMost result piece.new }
        ensures bytes { ReadConsumes (R.remaining self.old.device) (R.remaining self.new.device) result
            piece.new }
        ensures kept { OnOk result (self.new.failures ≡ self.old.failures) }
        ensures failed { OnErr result
            ((result ≡ Err ReadFailed) × CountsOne self.old.failures self.new.failures) }
    {
        for _ in 0..u64::MAX {
            match self.device.read(piece) {
                Ok(n) => return Ok(n),
                Err(error) => {
                    if error.kind() != ErrorKind::Interrupted {
                        break;
                    }
                }
            }
        }
        self.fail();
        Err(Fault::ReadFailed)
    }
}

impl<W: Write> Counted<W> {
    /// Writes some of these bytes, of which there is one at least. `WriteFailed` where the device
    /// failed in this call.
    fn write_some(&mut self, bytes: &[u8]) -> Result<usize, Fault>
        requires { 1 ≤ length bytes.now }
        ensures bound { IfOk result (λ n. (1 ≤ n) × (n ≤ length bytes.now)) }
        ensures bytes { WriteAppends (W.contents self.old.device) (W.contents self.new.device) result
            bytes.now }
        ensures kept { OnOk result (self.new.failures ≡ self.old.failures) }
        ensures failed { OnErr result
            ((result ≡ Err WriteFailed) × CountsOne self.old.failures self.new.failures) }
    {
        for _ in 0..u64::MAX {
            match self.device.write(bytes) {
                Ok(0) => break,
                Ok(n) => return Ok(n),
                Err(error) => {
                    if error.kind() != ErrorKind::Interrupted {
                        break;
                    }
                }
            }
        }
        self.fail();
        Err(Fault::WriteFailed)
    }

    /// Writes all these bytes. `WriteFailed` where the device failed in this call; a part of them
    /// was written then.
    pub fn write(&mut self, bytes: &[u8]) -> Result<(), Fault>
        ensures written { OnOk result
            (Appends (W.contents self.old.device) (W.contents self.new.device) bytes.now) }
        ensures part { OnErr result
            (WritesPart (W.contents self.old.device) (W.contents self.new.device) bytes.now) }
        ensures kept { OnOk result (self.new.failures ≡ self.old.failures) }
        ensures failed { OnErr result
            ((result ≡ Err WriteFailed) × CountsOne self.old.failures self.new.failures) }
    {
        let mut at = 0;
        while at < bytes.len() {
            at += self.write_some(&bytes[at..])?;
        }
        Ok(())
    }

    /// Sends on what the device holds back. `WriteFailed` where it failed in this call.
    pub(crate) fn flush(&mut self) -> Result<(), Fault>
        ensures bytes { Keeps (W.contents self.old.device) (W.contents self.new.device) }
        ensures kept { OnOk result (self.new.failures ≡ self.old.failures) }
        ensures failed { OnErr result
            ((result ≡ Err WriteFailed) × CountsOne self.old.failures self.new.failures) }
    {
        match self.device.flush() {
            Ok(()) => Ok(()),
            Err(_) => {
                self.fail();
                Err(Fault::WriteFailed)
            }
        }
    }
}
