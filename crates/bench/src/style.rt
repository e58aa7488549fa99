// The style of the output, chosen by an argument.
use std::env::FillError;
use std::rt::Env;

#[derive(Clone, Copy)]
pub enum Style {
    Plain,
    Words,
    Unknown,
}

// The first argument names it; without one it is plain.
pub fn chosen(rt: &impl Env) -> Style {
    let mut buffer = [0u8; 16];
    let count = match rt.arg(1, &mut buffer) {
        Ok(count) => count,
        Err(FillError::NotPresent) => return Style::Plain,
        Err(FillError::TooLong) => return Style::Unknown,
    };
    match &buffer[..count] {
        b"plain" => Style::Plain,
        b"words" => Style::Words,
        _ => Style::Unknown,
    }
}
