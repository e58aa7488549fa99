// What the calls answer that tell more than a verdict, where they are not refused. crates/core_answers/specs/Reply.antt gives the paper's
// values for each case.
use crate::rejection::Rejection;

// A question of a controller: its answer.
pub type QuestionReply = Result<u8, Rejection>;

// Write: the object that took the frame.
pub type WriteReply = Result<u32, Rejection>;

// Arrived: what became of the frame.
pub type ArrivalReply = Result<Arrival, Rejection>;

// Who sends next: the object, or nobody.
pub type NextReply = Result<Option<u32>, Rejection>;

// The object that stores the frame; no object wants it; or all that want it are full.
#[derive(Clone, Copy)]
pub enum Arrival {
    Stored(u32),
    Unwanted,
    Lost,
}
