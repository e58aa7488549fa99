// Text on standard output. Where it cannot be written there is nobody to tell.
pub fn text(stdout: &impl Print, s: &[u8]) {
    let _ = stdout.write_all(s);
}

pub fn number(stdout: &impl Print, n: u64) {
    let _ = print!(stdout; "{n}");
}

// Eight hexadecimal digits.
pub fn word(stdout: &impl Print, n: u32) {
    let _ = print!(stdout; "{n:08x}");
}
