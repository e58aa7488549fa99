// Where a byte stands.
ghost use Rattle.std.specs.Prelude.{◌≡◌, ◌+◌, ◌≤◌, length, drop, eqb, position};
ghost use Rattle.bench_lines.specs.Line.{index_of};

// The first place of a byte.
fn place(bytes: &[u8], byte: u8) -> Option<usize>
    ensures { result ≡ position (λ b. eqb b byte) bytes.now }
{
    bytes.iter().position(|b| *b == byte)
}

// The first place of a byte from a position on; the length where there is none.
pub fn find(bytes: &[u8], from: usize, byte: u8) -> usize
    requires { from ≤ length bytes.now }
    ensures value { result ≡ from + index_of byte (drop from bytes.now) }
    ensures within { result ≤ length bytes.now }
{
    let rest = &bytes[from..];
    from + place(rest, byte).unwrap_or(rest.len())
}
