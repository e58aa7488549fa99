// The places of the core: a controller, its errors, an object's owner, a mailbox. Each is a struct by value; many of them are a struct with an
// array for each field, which clauses see as the list of the places.
#![tactic(auto)]

pub mod at;
pub mod controller;
pub mod controller_pair;
pub mod controllers;
pub mod core_state;
pub mod error_places;
pub mod errors;
pub mod lent_core;
pub mod lent_errors;
pub mod lent_mailboxes;
pub mod lent_to_read;
pub mod lists;
pub mod mailbox;
pub mod mailboxes;
pub mod object_pair;
pub mod owner;
pub mod owners;
pub mod places;
pub mod range;
pub mod set_places;
pub mod slices;
