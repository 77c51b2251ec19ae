//! What the program does, from its arguments to its exit status, over any streams and any site.
#![tactic(auto)]

mod job;
mod serving;

pub use job::{Job, run};
pub use serving::serve;
