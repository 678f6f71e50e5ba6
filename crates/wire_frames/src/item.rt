/// What stands on a wire.
#[derive(Clone, Copy, Debug, PartialEq, Eq)]
pub enum Item<'a> {
    /// A frame, or what passes one on: at least one byte. Whether it is of the grammar isn't looked at.
    Frame(&'a [u8]),
    /// A length of 0: who sends it shows that it lives.
    Ping,
}
