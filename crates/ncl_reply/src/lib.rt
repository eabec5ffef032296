//! What the top calls share: a file is loaded or refused with a line, what a call has to say is a status with its text, and the
//! text comes out of a sink whole or is cut short.
//!
//! `loading` loads one file, and a file that is refused ends a call as a `Fault` with its line. `reply` has what is said, `status`
//! the status of a check, and `telling` writes a text.
#![tactic(auto)]

mod fault;
mod loading;
mod reply;
mod status;
mod telling;

pub use fault::Fault;
pub use loading::load_file;
pub use reply::Reply;
pub use status::status_of;
pub use telling::tell;
