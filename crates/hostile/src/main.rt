// Plays single calls on states of any kind, also on those that no history reaches: tests/hostile compares what comes of them with the
// model. Each line of the input is one case in hex digits, and src/case.rt says where in its bytes everything stands.
//
//     hostile < CASES
#![tactic(auto)]

mod case;
mod input;
mod line;
mod number;
mod pattern;
mod print;
mod same;
mod state;

fn main(rt: HostRuntime) {
    input::play(rt);
}
