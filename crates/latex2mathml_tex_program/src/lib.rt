//! What the program `tex2mathml` does, over any streams.
#![tactic(auto)]

mod definitions;
mod fault;
mod reply;
mod request;
mod serving;
mod texts;

pub use definitions::TextFiles;
pub use fault::Fault;
pub use reply::{line, replies};
pub use request::{Display, Format, Request, requested, status_of_error};
pub use serving::{run, serve};
