// How many words a line has.
ghost use Rattle.std.specs.Prelude.{◌≡◌};
ghost use Rattle.bench_script.specs.Count.{reaching, ending_at, counted};

use crate::name::Arguments;
use bench_words::reading::Trouble;
use bench_words::split::word;

// Whether a line has a word n. Its first word is word 0.
fn reaches(line: &[u8], n: u8) -> Result<(), Trouble>
    ensures { result ≡ reaching n line.now }
{
    if word(line, n as usize).is_empty() {
        return Err(Trouble::WordMissing);
    }
    Ok(())
}

// Whether a line has a word n, and no further one.
pub fn ends_at(line: &[u8], n: u8) -> Result<(), Trouble>
    ensures { result ≡ ending_at n line.now }
{
    reaches(line, n)?;
    if !word(line, n as usize + 1).is_empty() {
        return Err(Trouble::WordTooMany);
    }
    Ok(())
}

// Whether as many words follow a line's first one as its command takes.
pub fn counted(arguments: Arguments, line: &[u8]) -> Result<(), Trouble>
    ensures { result ≡ counted arguments line.now }
{
    match arguments {
        Arguments::AtLeast(n) => reaches(line, n),
        Arguments::Exactly(n) => ends_at(line, n),
    }
}
