// The number of rounds.
use std::rt::Env;

// How many rounds are made where no argument says.
const ROUNDS: u32 = 1024;

// The rounds that the first argument asks for.
pub fn rounds(rt: &impl Env) -> u32 {
    let mut buffer = [0u8; 16];
    let count = rt.arg(1, &mut buffer).unwrap_or(0);
    bench_words::number::number(&buffer[..count]).unwrap_or(ROUNDS)
}
