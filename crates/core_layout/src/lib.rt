// Bytes and words in lent memory that are the same for all kinds of frame: runs of bytes, an object's head, notifications on the sheet.
#![tactic(auto)]

pub mod bytes;
pub mod head;
pub mod notification;
