//! Files in memory.

use crate::items::Items;
use crate::name::Name;

/// A file in memory.
#[derive(Clone, Drop, Debug)]
pub struct MemFile {
    /// The name by which it is begun.
    pub name: Name,
    /// What it holds.
    pub bytes: Items<u8>,
}
