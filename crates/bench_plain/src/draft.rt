// The configuration in words, shown as bytes: a line for the header, and one for each object.
use bench_draft::draft::size;
use bench_text::put::{put, put_hex};
use bench_words::split::between;
use can_config::header::HEADER_SIZE;
use can_config::record::RECORD_SIZE;

// Some of the bytes, each as a word, so that they can be pasted.
fn row(out: &mut [u8], at: usize, bytes: &[u8]) -> usize {
    let mut end = put(out, at, b"         ");
    for i in 0..bytes.len() {
        end = put(out, end, b" ");
        end = put_hex(out, end, &bytes[i..i + 1]);
    }
    put(out, end, b"\n")
}

// The records, one after the other.
fn records(out: &mut [u8], at: usize, bytes: &[u8]) -> usize {
    let mut end = at;
    for h in 0..bytes.len() / RECORD_SIZE {
        end = row(
            out,
            end,
            &bytes[RECORD_SIZE * h..RECORD_SIZE * h + RECORD_SIZE],
        );
    }
    end
}

// All bytes of the configuration.
pub fn shown(out: &mut [u8], at: usize, draft: &[u8]) -> usize {
    let size = size(draft).min(draft.len());
    let end = row(out, at, between(draft, 0, HEADER_SIZE));
    records(out, end, between(draft, HEADER_SIZE, size))
}
