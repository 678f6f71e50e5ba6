ghost use Rattle.std.specs.Prelude.{◌≡◌};
ghost use Rattle.letters.specs.Letters.{mark_number, mark_numbered};

/// The lowest byte that is a mark, or is kept for one. No frame begins with it or a higher one.
pub(crate) const FIRST_MARK: u8 = 192;

/// What a letter begins with that is no frame.
#[derive(Clone, Copy)]
pub(crate) enum Mark {
    Passed = 193,
    Doubted = 194,
    Asked = 195,
    Recorded = 196,
    Announced = 197,
    Answered = 198,
    Told = 199,
}

impl Mark {
    pub(crate) fn number(self) -> u8
        ensures { result ≡ mark_number self }
    {
        self as u8
    }

    /// The mark of this number, where there is one.
    pub(crate) fn from_number(number: u8) -> Option<Mark>
        ensures { result ≡ mark_numbered number }
    {
        match number {
            193 => Some(Mark::Passed),
            194 => Some(Mark::Doubted),
            195 => Some(Mark::Asked),
            196 => Some(Mark::Recorded),
            197 => Some(Mark::Announced),
            198 => Some(Mark::Answered),
            199 => Some(Mark::Told),
            _ => None,
        }
    }
}
