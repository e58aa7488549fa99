// The words of a line, and what a word says: a number, a mode, an identifier, or bytes; and texts in a row.
#![tactic(auto)]

pub mod bytes;
pub mod digit;
pub mod identifier;
pub mod number;
pub mod piece;
pub mod reading;
pub mod split;
