ghost use Rattle.std.specs.Prelude.{◌≡◌};
ghost use Rattle.handshake.specs.Labels.{label_number};

/// What a tag of a handshake is for: the first byte of what it is made of, and the number of no kind of frame.
#[derive(Clone, Copy)]
pub(crate) enum Label {
    Ask = 8,
    Answer = 9,
}

impl Label {
    pub(crate) fn number(self) -> u8
        ensures { result ≡ label_number self }
    {
        self as u8
    }
}
