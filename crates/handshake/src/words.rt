use std::marker::Model;

/// Sixteen random bytes that one end of a link makes for one handshake, and never again.
#[derive(Clone, Copy, Debug, PartialEq, Eq)]
pub struct Nonce(pub [u8; 16]);

impl Model for Nonce {
    ghost use Rattle.std.specs.Prelude.{ℕ, List};

    ghost Value = { List ℕ };

    ghost view = { λ nonce. nonce.0 };

    ghost inverse = { λ bytes. record { 0 = bytes } };
}

/// Sixteen random bytes that a party makes when it first begins: who begins again without its memory has another life.
#[derive(Clone, Copy, Debug, PartialEq, Eq)]
pub struct Life(pub [u8; 16]);

impl Model for Life {
    ghost use Rattle.std.specs.Prelude.{ℕ, List};

    ghost Value = { List ℕ };

    ghost view = { λ life. life.0 };

    ghost inverse = { λ bytes. record { 0 = bytes } };
}
