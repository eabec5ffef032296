//! The demo: an adder of 1 to 32 bits as models, one for each bit (`models`, `covers`), and eight words that are offered to
//! it (`words`).
//!
//! In the definitions an adder is what its models answer to words (`Adding`, `Adder`), whatever their covers.
#![tactic(auto)]

mod covers;
pub mod laws;
mod models;
mod words;

pub use models::demo_models;
pub use words::demo_words;
