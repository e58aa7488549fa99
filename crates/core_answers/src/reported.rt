// What a call on the core hands back.
use crate::rejection::Rejection;

// What it answers, and how many notifications stand on the sheet.
#[derive(Clone, Copy)]
pub struct Reported<T> {
    pub reply: Result<T, Rejection>,
    pub notifications: usize,
}
