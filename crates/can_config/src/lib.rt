// The configuration reader: from bytes to the configuration that they say.
#![tactic(auto)]

pub mod header;
pub mod outline;
mod pools;
pub mod read;
pub mod record;
pub mod records;
pub mod setup;
