//! What every other crate stands on: lists, names and words, and the two edges of the program as traits: a `Source` gives
//! files by name, and a `Sink` takes bytes.
//!
//! Source and sink count their faults, and may tell a contract what they hold. `load` reads a file whole and `deliver`
//! writes a text whole, for any of them. `MemSource` and `MemSink` hold everything in memory and fail at the calls that they
//! are told to; `SteadySource` and `NullSink` never fail.
#![tactic(auto)]

mod calls;
mod items;
mod list_table;
mod mem_file;
mod mem_sink;
mod mem_source;
mod memory;
mod name;
mod null_sink;
mod sink;
mod source;
mod steady_source;
mod text_line;
mod word;

pub use items::Items;
pub use list_table::ListTable;
pub use mem_file::MemFile;
pub use mem_sink::MemSink;
pub use mem_source::MemSource;
pub use memory::Memory;
pub use name::Name;
pub use null_sink::NullSink;
pub use sink::{Sink, SinkFault, deliver};
pub use source::{Failed, LoadFault, MOST_BYTES, Source, load};
pub use steady_source::SteadySource;
pub use text_line::is_blank;
pub use word::{MOST_BITS, Word};
