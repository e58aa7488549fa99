// What the writer answers. crates/can_writer/specs/Reply.antt gives the paper's numbers for each case.
use core_answers::rejection::Rejection;

// How many bytes were written, or why none were: InitFailed or SheetTooShort.
pub type ConfigReply = Result<usize, Rejection>;
