//! The texts that tell what was found of models, of files of a run or of a run: why there is none, each one line, and the words
//! that a run delivered, each one line, with its end. It hands on the lines of netlists and verdicts, which `ncl_lines` has.
#![tactic(auto)]

mod blif_faults;
mod delay_faults;
mod demos;
mod traces;

pub use blif_faults::blif_text;
pub use delay_faults::{delay_text, words_text};
pub use demos::demo_text;
pub use ncl_lines::{limit_text, net_text, push_word, verdict_text};
pub use traces::trace_text;
