// What the bench says in plain words, and what it keeps of a night for that. A part of the program, which names no promise beyond being safe
// and ending.
#![tactic(auto)]

pub mod book;
pub mod config;
pub mod draft;
pub mod fault;
pub mod frames;
pub mod ledger;
pub mod listed;
pub mod night;
pub mod notifications;
pub mod object;
pub mod plain;
pub mod pool;
pub mod refused;
pub mod state;
pub mod summary;
pub mod suspect;
pub mod tell;
pub mod told;
pub mod waiting;
