//! What a call has to say.

/// A status, and the whole text that belongs to it.
#[derive(Drop, Debug)]
pub enum Reply {
    /// A text that was made for this call.
    Made(u8, Vec<u8>),
    /// A text that is always the same.
    Fixed(u8, &'static [u8]),
}
