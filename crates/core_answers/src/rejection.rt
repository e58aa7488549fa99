// Why a call is refused.
ghost use Rattle.std.specs.Prelude.{◌≡◌};
ghost use Rattle.core_answers.specs.Answer.{reason_of};

// The names of AUTOSAR's development errors, then the bench's own.
#[derive(Clone, Copy)]
pub enum Rejection {
    // CAN_E_PARAM_HANDLE: no such sending object.
    ParamHandle,
    // CAN_E_PARAM_DATA_LENGTH: the data does not fit the format or the object.
    ParamDataLength,
    // CAN_E_PARAM_CONTROLLER: no such controller.
    ParamController,
    // CAN_E_UNINIT: the driver is not initialised.
    Uninit,
    // CAN_E_TRANSITION: the driver or the controller cannot go there from here.
    Transition,
    // CAN_E_INIT_FAILED: the configuration is bad.
    InitFailed,
    // The sheet is too short for the notifications that a call may write.
    SheetTooShort,
    // The message RAM has not its size.
    WrongRamSize,
    // The identifier is not good.
    BadIdentifier,
    // The controller is not STARTED.
    NotStarted,
    // The object holds a frame already; the return code is CAN_BUSY.
    ObjectBusy,
    // The controller is marked off-bus.
    BusOff,
    // There is no unsent frame in the object.
    NothingToSend,
    // The arriving length is no wire length of its format.
    BadLength,
    // The state is none that the driver can be in.
    InvalidState,
    // An error count is above its limit.
    ErrorCountTooLarge,
}

// The reason's number.
pub fn reason(r: Rejection) -> u32
    ensures { result ≡ reason_of r }
{
    match r {
        Rejection::ParamHandle => 2,
        Rejection::ParamDataLength => 3,
        Rejection::ParamController => 4,
        Rejection::Uninit => 5,
        Rejection::Transition => 6,
        Rejection::InitFailed => 9,
        Rejection::SheetTooShort => 32,
        Rejection::WrongRamSize => 33,
        Rejection::BadIdentifier => 34,
        Rejection::NotStarted => 35,
        Rejection::ObjectBusy => 36,
        Rejection::BusOff => 37,
        Rejection::NothingToSend => 38,
        Rejection::BadLength => 40,
        Rejection::InvalidState => 41,
        Rejection::ErrorCountTooLarge => 43,
    }
}
