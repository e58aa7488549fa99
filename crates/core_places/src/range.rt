// Places in use stand first: a count parts them from the unused ones. And the larger of two numbers of places.
ghost use Rattle.std.specs.Prelude.{◌≡◌, max, min};

// The count, or the number of places if the count is larger.
pub fn limited(count: usize, places: usize) -> usize
    ensures { result ≡ min count places }
{
    if count < places { count } else { places }
}

// The larger of two numbers.
pub fn larger(a: usize, b: usize) -> usize
    ensures { result ≡ max a b }
{
    if a < b { b } else { a }
}
