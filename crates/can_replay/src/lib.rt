// A list of calls, made on a lent state. The state is tested once, at the start: from a valid state every call leads to a valid one, so
// that no call has to test it again.
//
// An event has a number, at which its fields stand in arrays: its kind; its object or controller; its identifier, the mode asked for or a
// transmit count; its handle or a receive count; and where its bytes start and end in the data of all events. Which call a kind stands for, and
// which fields it needs, is told in `can_step`, which makes it. What a kind does not need may be any number.
//
// As many events are made as every array has. Bytes that do not lie within the data are none.
#![tactic(auto)]

mod events;
pub mod replay;
