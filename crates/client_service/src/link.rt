/// A client's link to all replicas. Frames may be lost on it, come twice, late or changed.
pub trait Link {
    ghost use Rattle.std.specs.Prelude.{◌≡◌, [], if◌then◌else◌};
    ghost use Rattle.client_service.specs.Links.{Traffic, sent, came, silent, looked};

    // link before, what goes over it, link after
    ghost carries: { Self → Traffic → Self → Type 0 };

    /// Whether what is sent may still be answered.
    fn is_open(&self) -> bool
        ensures { carries self.now (looked result) self.now };

    /// Sends these bytes to all replicas, and begins anew the time for which `receive` waits.
    fn send(&mut self, frame: &[u8])
        ensures { carries self.old (sent frame.now) self.new };

    /// Puts the bytes of the next frame that came for this client into `frame`, which is handed in
    /// empty. It waits until a second after the last `send` at most, and says whether a frame came.
    fn receive(&mut self, frame: &mut Vec<u8>) -> bool
        requires { frame.old.items ≡ [] }
        ensures { carries self.old (if result then came frame.new.items else silent) self.new };
}
