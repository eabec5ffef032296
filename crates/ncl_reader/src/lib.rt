//! The reader of netlist texts: structural modules, a part of IEEE 1364-2005.
//!
//! What a text says is defined by derivations of the grammar, and it is read token by token: `draft` has one function for
//! the places where a sign alone says what comes next and one for names that aren't declared, and the files named after it a
//! function for each other place of the grammar; `header` and `instance` are what is kept of the ports and of the instance
//! that is being read, `known` which names were declared and how (`ranges`), and which were used, both in sets that are
//! sorted only where one is asked for (`name_set`), and which look like bits (`kept_bits`); and `refusal` asks the draft why
//! a token breaks. In proofs, partial trees (`specs/Partial`) are what the beginning of a text is.
#![tactic(auto)]

mod bit;
mod draft;
mod draft_declared;
mod draft_header;
mod draft_instance;
mod draft_net;
mod header;
mod instance;
mod kept_bits;
mod keyword;
mod known;
pub mod laws;
mod lead;
mod lexeme;
mod name_set;
mod names;
mod net_fault;
mod number;
mod place;
mod ranges;
mod reader;
mod refusal;
mod span;

pub use keyword::{Keyword, Way};
pub use net_fault::NetFault;
pub use reader::read_netlist;
