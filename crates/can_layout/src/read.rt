// What the bytes of an object say of its data.
ghost use Rattle.std.specs.Prelude.{◌≡◌};
ghost use Rattle.rules.specs.Can.{data_of};
ghost use Rattle.rules.specs.Chip as rules;

use crate::object::DATA_SIZE;
use can_chip::{OBJECT_SIZE, OBJECTS, RAM_SIZE};
use core_layout::head::{HEAD_SIZE, LENGTH_AT};

// Data of an object: the part of the RAM that holds it, as long as its wire length says; the empty part where there is no such
// object, the RAM has not its size, or the length is more than an object holds.
pub fn data_of(ram: &[u8], object: u32) -> &[u8]
    ensures { result.now ≡ data_of rules.chip object ram.now }
{
    let object = object as usize;
    if OBJECTS <= object {
        return &ram[..0];
    }
    if ram.len() != RAM_SIZE {
        return &ram[..0];
    }
    let length = ram[OBJECT_SIZE * object + LENGTH_AT] as usize;
    if DATA_SIZE < length {
        return &ram[..0];
    }
    let start = OBJECT_SIZE * object + HEAD_SIZE;
    let end = start + length;
    &ram[start..end]
}
