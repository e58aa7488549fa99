// The words of a line.
ghost use Rattle.std.specs.Prelude.{◌≡◌, ◌+◌, ◌-◌, ◌≤◌, length, drop};
ghost use Rattle.std.specs.List.{prefix_len};
ghost use Rattle.rules.specs.Bytes.{part};
ghost use Rattle.bench_words.specs.Split.{is_blank, in_word, in_run, next_word, word_at, word, first, after};

// Where a word stands: from start up to, not including, end. An empty one says that there is no further word; it has a place too, at which
// `word_at` and `after` go on.
#[derive(Clone, Copy)]
pub struct Span {
    pub start: usize,
    pub end: usize,
}

// Bytes that belong together: blanks, those of a word, and those of one of several texts in a row.
#[derive(Clone, Copy)]
pub enum Run {
    Blanks,
    Word,
    Text,
}

// Spaces, tabs and commas separate words.
fn is_blank(b: u8) -> bool
    ensures { result ≡ is_blank b }
{
    matches!(b, b' ' | b'\t' | b',')
}

// A comment ends a word, as a blank does.
fn in_word(b: u8) -> bool
    ensures { result ≡ in_word b }
{
    !is_blank(b) && b != b'#'
}

// What stands from a position on; nothing past the end.
fn rest(line: &[u8], at: usize) -> &[u8]
    ensures { result.now ≡ drop at line.now }
{
    line.get(at..).unwrap_or(&[])
}

// A comment ends a word, as a blank does; a bar ends a text.
fn belongs(run: Run, b: u8) -> bool
    ensures { result ≡ in_run run b }
{
    match run {
        Run::Blanks => is_blank(b),
        Run::Word => in_word(b),
        Run::Text => b != b'|',
    }
}

// How long the run is at the start of a text.
fn run_length(text: &[u8], run: Run) -> usize
    ensures number { result ≡ prefix_len (in_run run) text.now }
    ensures within { result ≤ length text.now }
{
    text.iter().take_while(|b| belongs(run, **b)).count()
}

// The position after the run at a position.
pub fn skip(line: &[u8], at: usize, run: Run) -> usize
    ensures { result ≡ at + prefix_len (in_run run) (drop at line.now) }
{
    at + run_length(rest(line, at), run)
}

// The first word at or after a position.
pub fn next_word(line: &[u8], at: usize) -> Span
    ensures { result ≡ next_word line.now at }
{
    let start = skip(line, at, Run::Blanks);
    let end = skip(line, start, Run::Word);
    Span { start, end }
}

// Where word n stands. Word 0 is the command's name.
#[tactic(auto, unfolding(crate::specs::Split::word_at))]
pub fn word_at(line: &[u8], n: usize) -> Span
    ensures { result ≡ word_at line.now n }
{
    let mut span = next_word(line, 0);
    for _ in 0..n {
        span = next_word(line, span.end);
    }
    span
}

// The bytes from start up to, not including, end, as far as the line has them.
pub fn between(line: &[u8], start: usize, end: usize) -> &[u8]
    ensures { result.now ≡ part start (end - start) line.now }
{
    line.get(start..end.min(line.len())).unwrap_or(&[])
}

// Word n of a line; empty where there is none, since what reads a word has trouble of its own with an empty one.
#[tactic(auto, unfolding(crate::specs::Split::word))]
pub fn word(line: &[u8], n: usize) -> &[u8]
    ensures { result.now ≡ word n line.now }
{
    let span = word_at(line, n);
    between(line, span.start, span.end)
}

// The first word of a text; empty where there is none.
pub fn first(text: &[u8]) -> &[u8]
    ensures { result.now ≡ first text.now }
{
    word(text, 0)
}

// What follows the first word.
pub fn after(text: &[u8]) -> &[u8]
    ensures { result.now ≡ after text.now }
{
    rest(text, next_word(text, 0).end)
}
