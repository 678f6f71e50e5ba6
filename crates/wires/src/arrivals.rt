use ids::PartyId;

/// Where the frames of one peer go: its row of an inbox, as a rule.
///
/// What is read of the peer's connection is handed on here, whatever the frames say, as the party's that the handshake
/// named. So a row is charged for what came over its own party's connection alone.
pub trait Arrivals {
    ghost use Rattle.std.specs.Prelude.{ℕ, List};

    // arrivals before, whose frame, the frame, arrivals after
    ghost takes: { Self → ℕ → List ℕ → Self → Type 0 };

    /// Whether there is room for what one read brings: a piece, and a frame that began before. While there isn't,
    /// nothing is read, so that the peer's own connection fills.
    fn has_room(&self) -> bool;

    /// Takes a frame of this party. What can't be taken is lost, as on any network.
    fn take(&mut self, from: PartyId, frame: &[u8])
        ensures { takes self.old from frame.now self.new };
}
