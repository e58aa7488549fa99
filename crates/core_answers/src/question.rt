// What can be asked of a controller.
#[derive(Clone, Copy)]
pub enum Question {
    Mode,
    ErrorState,
    RxErrors,
    TxErrors,
}
