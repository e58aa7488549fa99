// Texts in a row, with a bar behind each but the last: `one|two|three`. A table of texts is one constant, and its reader one function.
ghost use Rattle.std.specs.Prelude.{◌≡◌};
ghost use Rattle.bench_words.specs.Piece.{piece};

// Text n; none past the last one.
pub fn piece(texts: &[u8], n: usize) -> &[u8]
    ensures { result.now ≡ piece n texts.now }
{
    texts.split(|b| *b == b'|').nth(n).unwrap_or(&[])
}
