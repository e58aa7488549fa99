// The frame's part of the calls on arrays of a caller, one for each field. As in core_lent nothing goes through these functions: they show that a caller
// who has such arrays, and of some kinds none, can make each call, and what it then says of the arrays.
#![tactic(auto)]

pub mod arrivals;
pub mod transmission;
