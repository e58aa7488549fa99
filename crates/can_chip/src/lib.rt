// The limits of this chip in code: the one place that names them. Each limit has a function whose contract says that it is the
// rules' own, so that a wrong number is refused here.
#![tactic(auto)]

ghost use Rattle.std.specs.Prelude.{◌≡◌, cond};
ghost use Rattle.rules.specs.Limits.{ram_size, notification_limit, sheet_size};
ghost use Rattle.rules.specs.Chip as rules;

// Places for controllers.
pub const CONTROLLERS: usize = 4;

// Places for hardware objects.
pub const OBJECTS: usize = 32;

// Bytes of message RAM for each object.
pub const OBJECT_SIZE: usize = 72;

// Whether an object's length has two bytes, and not one.
pub const TWO_LENGTH_BYTES: bool = false;

// Bytes of message RAM.
pub const RAM_SIZE: usize = OBJECT_SIZE * OBJECTS;

// No call writes more notifications than this.
pub const NOTIFICATIONS: usize = CONTROLLERS + OBJECTS;

// Words that a sheet must have, four for each notification.
pub const SHEET_SIZE: usize = 4 * NOTIFICATIONS;

// Places for controllers, as the rules have them.
pub fn controllers() -> usize
    ensures { result ≡ (rules.chip).controllers }
{
    CONTROLLERS
}

// Places for hardware objects, as the rules have them.
pub fn objects() -> usize
    ensures { result ≡ (rules.chip).objects }
{
    OBJECTS
}

// Bytes for each object, as the rules have them.
pub fn object_size() -> usize
    ensures { result ≡ (rules.chip).object_size }
{
    OBJECT_SIZE
}

// The bytes of an object's length, two or one, as the rules have them.
pub fn two_length_bytes() -> bool
    ensures { cond result 2 1 ≡ (rules.chip).length_size }
{
    TWO_LENGTH_BYTES
}

// Bytes of message RAM, as the rules have them.
pub fn ram_size() -> usize
    ensures { result ≡ ram_size rules.chip }
{
    RAM_SIZE
}

// The most notifications of a call, as the rules have it.
pub fn notifications() -> usize
    ensures { result ≡ notification_limit rules.chip }
{
    NOTIFICATIONS
}

// Words of a sheet, as the rules have them.
pub fn sheet_size() -> usize
    ensures { result ≡ sheet_size rules.chip }
{
    SHEET_SIZE
}
