// Why a write does not find its pool, or no room in it.
ghost use Rattle.bench_text.specs.Put.{Put};
ghost use Rattle.bench_messages.specs.Pools as pools;

use bench_say::say::say;

// 2: another member of a pool than its lowest.
pub fn not_lowest(out: &mut [u8], at: usize, object: u64, pool: u64, lowest: u64) -> usize
    ensures { Put at (pools.not_lowest object pool lowest) out.old out.new result }
{
    let text = b"object %0 is in pool %0, which object %0 names";
    say(out, at, text, [object, pool, lowest, 0, 0])
}

// 36: no member of a pool is free.
pub fn none_free(out: &mut [u8], at: usize, pool: u64, object: u64, line: u64) -> usize
    ensures { Put at (pools.none_free pool object line) out.old out.new result }
{
    let text = b"no object of pool %0 is free; object %0 holds the frame of line %0";
    say(out, at, text, [pool, object, line, 0, 0])
}
