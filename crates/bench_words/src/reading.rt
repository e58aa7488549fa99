// Why a line can't be read.

#[derive(Clone, Copy)]
pub enum Trouble {
    LineTooLong,
    UnknownCommand,
    WordMissing,
    WordTooMany,
    NotANumber,
    NumberTooLarge,
    NotAnIdentifier,
    IdentifierTooLong,
    NotHexDigits,
    OddDigits,
    NotOneByte,
    NotAMode,
    UnknownPoll,
    HandleTooLarge,
    SheetTooLong,
    MemoryTooLong,
    RoomTooLarge,
    ByteTooLarge,
    UnexpectedWord,
    UnknownKind,
    TooManyObjects,
}
