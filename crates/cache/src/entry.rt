/// What stands under a key. When the key was used last is not written down: the order of entries says it.
#[derive(Drop)]
pub(crate) struct Entry {
    /// What the client gave with the data. It means nothing here.
    pub(crate) flags: u32,
    pub(crate) stored: Vec<u8>,
    /// The count of changes at which the data was given.
    pub(crate) cas_unique: u64,
}
