ghost use Rattle.std.specs.Prelude.{◌≡◌, decimal};

use std::marker::Model;

/// The most digits of a number below 2^64.
const MOST_DIGITS: usize = 20;

/// The decimal digits of a number.
#[derive(Drop)]
pub(crate) struct Decimal {
    digits: [u8; MOST_DIGITS],
    start: usize,
}

impl Model for Decimal {
    ghost use Rattle.std.specs.Prelude.{List, ℕ, ◌≤◌, drop, length};

    ghost Value = { List ℕ };

    ghost view = { λ d. drop d.start d.digits };

    ghost invariant = { λ d. d.start ≤ length d.digits };
}

impl Decimal {
    /// The digits of this number.
    pub(crate) fn new(n: u64) -> Decimal
        ensures { result ≡ decimal n }
    {
        let mut digits = [0; MOST_DIGITS];
        let start = itoa::write_digits(n, &mut digits, MOST_DIGITS);
        Decimal { digits, start }
    }

    /// The digits as bytes.
    pub(crate) fn as_slice(&self) -> &[u8]
        ensures { result.now ≡ self.now }
    {
        &self.digits[self.start..]
    }
}
