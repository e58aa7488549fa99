// Makes the same round of calls over and over, with no input and little output, so that the driver's own cost can be measured.
//
//     speed [ROUNDS]
#![tactic(auto)]

mod round;

use can::State;
use round::Sum;
use speed_setup::chips;

// So many rounds from a state with everything STOPPED.
fn all(state: State, ram: &mut [u8], sheet: &mut [u32], rounds: u32) -> Sum {
    let mut s = state;
    let mut sum = round::nothing();
    for i in 0..rounds {
        let done = round::one(s, ram, sheet, i);
        s = done.state;
        let more = done.sum;
        sum = round::added(sum, more);
    }
    sum
}

// What the rounds came to: calls that were refused, and notifications.
fn told(stdout: &impl Print, name: &str, sum: Sum) {
    let _ = println!(stdout;
        "{name}: {} refused, {} notifications",
        sum.refused, sum.notifications
    );
}

fn small(stdout: &impl Print, rounds: u32) {
    let mut ram = [0u8; can::RAM_SIZE];
    let mut sheet = [0u32; can::SHEET_SIZE];
    let called = can::init(can::initial_state(), &mut ram, &mut sheet, &chips::SMALL);
    let sum = all(called.state, &mut ram, &mut sheet, rounds);
    told(stdout, "1 controller, 2 objects", sum);
}

fn full(stdout: &impl Print, rounds: u32) {
    let mut ram = [0u8; can::RAM_SIZE];
    let mut sheet = [0u32; can::SHEET_SIZE];
    let bytes = chips::full();
    let called = can::init(can::initial_state(), &mut ram, &mut sheet, &bytes);
    let sum = all(called.state, &mut ram, &mut sheet, rounds);
    told(stdout, "4 controllers, 32 objects", sum);
}

fn main(rt: HostRuntime) {
    let rounds = speed_setup::rounds::rounds(&rt);
    small(&rt, rounds);
    full(&rt, rounds);
}
