// Replays the same rounds of calls as `speed` makes, as lists of events over the driver's arrays, so that the cost of a replay can be
// measured. It is a program of its own, as a replay would be: beside the public calls the compiler would no longer put the calls of a
// replay where they are made.
//
//     speed_replay [ROUNDS]
#![tactic(auto)]

mod events;
mod replayed;

fn main(rt: HostRuntime) {
    replayed::rounds(&rt, speed_setup::rounds::rounds(&rt));
}
