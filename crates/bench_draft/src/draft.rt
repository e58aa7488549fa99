// The bytes of a configuration that is said in words: a header of 8 bytes, then a record of 12 bytes for each object.
ghost use Rattle.std.specs.Prelude.{◌≡◌, ◌<◌, ◌≤◌, ◌%◌, MatchResult};
ghost use Rattle.rules.specs.Bytes.{splice};
ghost use Rattle.rules.specs.Repeat.{rising};
ghost use Rattle.rules.specs.Configuration.{objects_byte};
ghost use Rattle.bench_draft.specs.Draft as drafts;

use core_layout::bytes::put_bytes;

const HEADER: usize = 8;

const RECORD: usize = 12;

// Where the version stands, in its second byte, and the number of objects, in one byte.
const VERSION_AT: usize = 4;

const OBJECTS_AT: usize = 6;

// Where a record has the kind of its object, and where that of a sending one has the pool.
const KIND_AT: usize = 1;

const POOL_AT: usize = 7;

const MOST_OBJECTS: u8 = 255;

// Room for all objects that one byte can count.
pub const ROOM: usize = HEADER + RECORD * 255;

// There is no room for one more object.
#[derive(Clone, Copy)]
pub struct TooManyObjects;

// How many objects there are.
pub fn objects(draft: &[u8]) -> u8
    ensures { result ≡ objects_byte draft.now }
{
    draft.get(OBJECTS_AT).copied().unwrap_or(0)
}

// Where the record of an object begins.
fn record_at(object: u8) -> usize
    ensures { result ≡ drafts.record_at object }
{
    HEADER + RECORD * usize::from(object)
}

// How many bytes there are.
pub fn size(draft: &[u8]) -> usize
    ensures { result ≡ drafts.size_of draft.now }
{
    record_at(objects(draft))
}

// A number's lowest byte.
fn low_byte(n: u32) -> u8
    ensures { result ≡ n % 256 }
{
    (n % 256) as u8
}

// A configuration with so many controllers, and no object yet.
pub fn begin(draft: &mut [u8; ROOM], controllers: u32)
    ensures { draft.new ≡ splice 0 (drafts.header controllers) draft.old }
{
    let count = low_byte(controllers);
    put_bytes(draft, 0, &[b'C', b'H', b'B', 0, 1, count, 0, 0]);
}

// Puts the record of an object, which is the last one.
#[tactic(auto, using(laws::proofs::Splices::set_splice))]
fn put_record(draft: &mut [u8; ROOM], object: u8, bytes: [u8; RECORD])
    requires { object < drafts.most_objects }
    ensures { draft.new ≡ drafts.with_record object bytes draft.old }
{
    put_bytes(draft, record_at(object), &bytes);
    draft[OBJECTS_AT] = object + 1;
}

// The number of the next object.
fn next_object(draft: &[u8; ROOM]) -> Result<u8, TooManyObjects>
    ensures { MatchResult result (λ n. (n ≡ objects_byte draft.now) × (n < drafts.most_objects)) (λ _. drafts.most_objects ≤ objects_byte draft.now) }
{
    let object = objects(draft);
    if object < MOST_OBJECTS {
        Ok(object)
    } else {
        Err(TooManyObjects)
    }
}

// Adds a record, unless there are too many objects.
fn add(draft: &mut [u8; ROOM], bytes: [u8; RECORD]) -> Result<(), TooManyObjects>
    ensures { drafts.Added (drafts.with_record (objects_byte draft.old) bytes draft.old) draft.old draft.new result }
{
    let object = next_object(draft)?;
    put_record(draft, object, bytes);
    Ok(())
}

// Whether some object says its pool.
fn says_pools(draft: &[u8; ROOM]) -> bool
    ensures { result ≡ drafts.says_pools draft.now }
{
    draft[VERSION_AT] == 2
}

// The pool of the next object, if it says none.
fn own_pool(draft: &[u8; ROOM]) -> u32
    ensures { result ≡ drafts.own_pool draft.now }
{
    if says_pools(draft) {
        u32::from(objects(draft))
    } else {
        0
    }
}

// An object that sends gets its own number as its pool.
#[tactic(auto, using(laws::proofs::Splices::set_splice))]
fn put_own_pool(draft: &mut [u8; ROOM], object: u8)
    requires { object < drafts.most_objects }
    ensures { draft.new ≡ drafts.with_own_pool object draft.old }
{
    let at = record_at(object);
    if draft[at + KIND_AT] == 0 {
        draft[at + POOL_AT] = object;
    }
}

// Each object so far that sends gets its own.
#[tactic(auto, unfolding(rules::specs::Repeat::rising))]
fn put_own_pools(draft: &mut [u8; ROOM])
    ensures { draft.new ≡ rising (objects_byte draft.old) drafts.with_own_pool draft.old }
{
    for h in 0..objects(draft) {
        put_own_pool(draft, h);
    }
}

// Makes a draft in which no object says its pool one of version 2.
#[tactic(auto, using(laws::proofs::Splices::set_splice), unfolding(crate::specs::Draft::in_pools))]
fn say_pools(draft: &mut [u8; ROOM])
    ensures { draft.new ≡ drafts.in_pools draft.old }
{
    if says_pools(draft) {
        return;
    }
    put_own_pools(draft);
    draft[VERSION_AT] = 2;
}

// The record of an object that sends.
fn sending(controller: u32, payload: u32, padding: u32, pool: u32) -> [u8; RECORD]
    ensures { result ≡ drafts.sending_record controller payload padding pool }
{
    let controller = low_byte(controller);
    let payload = low_byte(payload);
    let padding = low_byte(padding);
    let pool = low_byte(pool);
    [controller, 0, payload, padding, 0, 0, 0, pool, 0, 0, 0, 0]
}

// The record of an object that receives; numbers have their highest byte first.
#[tactic(auto, unfolding(rules::specs::Bytes::big_endian))]
fn receiving(controller: u32, payload: u32, code: u32, mask: u32) -> [u8; RECORD]
    ensures { result ≡ drafts.receiving_record controller payload code mask }
{
    let controller = low_byte(controller);
    let payload = low_byte(payload);
    let [a, b, c, d] = code.to_be_bytes();
    let [e, f, g, h] = mask.to_be_bytes();
    [controller, 1, payload, 0, a, b, c, d, e, f, g, h]
}

// Adds an object that sends and says no pool, unless there are too many.
pub fn add_sending(
    draft: &mut [u8; ROOM],
    controller: u32,
    payload: u32,
    padding: u32,
) -> Result<(), TooManyObjects>
    ensures { drafts.Added (drafts.with_record (objects_byte draft.old) (drafts.sending_record controller payload padding (drafts.own_pool draft.old)) draft.old) draft.old draft.new result }
{
    let pool = own_pool(draft);
    add(draft, sending(controller, payload, padding, pool))
}

// Adds an object that sends from the pool that it says, unless there are too many.
pub fn add_in_pool(
    draft: &mut [u8; ROOM],
    controller: u32,
    payload: u32,
    padding: u32,
    pool: u32,
) -> Result<(), TooManyObjects>
    ensures { drafts.Added (drafts.with_record (objects_byte draft.old) (drafts.sending_record controller payload padding pool) (drafts.in_pools draft.old)) draft.old draft.new result }
{
    let object = next_object(draft)?;
    say_pools(draft);
    put_record(draft, object, sending(controller, payload, padding, pool));
    Ok(())
}

// Adds an object that receives, unless there are too many.
pub fn add_receiving(
    draft: &mut [u8; ROOM],
    controller: u32,
    payload: u32,
    code: u32,
    mask: u32,
) -> Result<(), TooManyObjects>
    ensures { drafts.Added (drafts.with_record (objects_byte draft.old) (drafts.receiving_record controller payload code mask) draft.old) draft.old draft.new result }
{
    add(draft, receiving(controller, payload, code, mask))
}
