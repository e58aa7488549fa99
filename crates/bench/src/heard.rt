// How far the script is read. Lines that say nothing are counted and passed over here, before anything of the night is touched.
use bench_lines::reader::{Line, Reader};
use bench_plain::night::more;
use bench_script::command::says_nothing;
use std::io::Read;

// The reader, how many lines were whole so far, and whether the last of them waits to be played: it is whole and says something.
#[derive(Clone, Copy)]
pub struct Heard {
    pub reader: Reader,
    pub lines: u64,
    pub said: bool,
}

pub fn nothing() -> Heard {
    Heard {
        reader: Reader::begun(),
        lines: 0,
        said: false,
    }
}

// The line that is read, where it is whole.
pub fn whole_line(reader: Reader, line: &[u8]) -> Option<&[u8]> {
    match reader.line {
        Line::Whole(count) => Some(&line[..count.min(line.len())]),
        Line::Part(_) => None,
    }
}

// One step on.
fn stepped<R: Read>(source: &mut R, heard: Heard, input: &mut [u8], line: &mut [u8]) -> Heard {
    let mut reader = heard.reader;
    reader.advance(source, input, line);
    let (lines, said) = match whole_line(reader, line) {
        Some(text) => (more(heard.lines), !says_nothing(text)),
        None => (heard.lines, false),
    };
    Heard {
        reader,
        lines,
        said,
    }
}

// Goes on to the next line that says something, or to the end of what is read of the input: then the next step would read. The steps are counted,
// up to more than a piece has lines, so that the check sees an end.
pub fn sought<R: Read>(source: &mut R, start: Heard, input: &mut [u8], line: &mut [u8]) -> Heard {
    let mut heard = start;
    for _ in 0..u64::MAX {
        heard = stepped(source, heard, input, line);
        if heard.said | heard.reader.will_read(input) {
            break;
        }
    }
    heard
}
