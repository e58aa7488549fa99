// One object's record: controller, kind, payload, padding value, filter code (4), filter mask (4). In version 2 the last byte of a sending
// record's code is its pool.
ghost use Rattle.std.specs.Prelude.{◌≡◌, ◌&&◌, ◌+◌, ◌*◌, ◌≤◌, ◌<◌, length, eqb};
ghost use Rattle.rules.specs.Configuration.{header_size, owner_of, object_record};
ghost use Rattle.rules.specs.Can.{can_format, code_of, settings_of};
ghost use Rattle.rules.specs.Chip as rules;
ghost use Rattle.core_places.specs.View.{view_owner};
ghost use Rattle.can_state.specs.View.{view_settings};
ghost use Rattle.can_config.specs.Reading.{Record_read, object_valid};

use crate::header::HEADER_SIZE;
use can_state::settings::{Settings, settings_valid};
use core_layout::bytes::number_4;
use core_places::owner::{Owner, owner_valid};

// Bytes of a record.
pub const RECORD_SIZE: usize = 12;

// What a record says of its object: the kind as it stands there, whose the object is, and what its frames ask.
#[derive(Clone, Copy)]
pub struct Record {
    pub kind: u8,
    pub owner: Owner,
    pub settings: Settings,
}

// Whether the last byte of the code says a pool: in version 2, of an object that sends.
pub fn says_pool(version: u32, kind: u8) -> bool
    ensures { result ≡ (eqb version 2 && eqb kind 0) }
{
    (version == 2) & (kind == 0)
}

// The pool of object h, by the bytes of its record: none where it receives, else what the record says, or its own number.
fn record_pool(bytes: &[u8], version: u32, h: usize) -> u8
    requires { (length bytes.now ≡ can_format.record_size) × (h < 256) }
    ensures { result ≡ (owner_of can_format version h bytes.now).pool }
{
    if bytes[1] == 1 {
        return 0;
    }
    if says_pool(version, bytes[1]) {
        bytes[7]
    } else {
        h as u8
    }
}

// Whose the object is, by the same bytes.
fn record_owner(bytes: &[u8], version: u32, h: usize) -> Owner
    requires { (length bytes.now ≡ can_format.record_size) × (h < 256) }
    ensures { view_owner result ≡ owner_of can_format version h bytes.now }
{
    Owner {
        controller: bytes[0],
        receiving: bytes[1] == 1,
        pool: record_pool(bytes, version, h),
    }
}

// Its filter code; where the last byte says a pool, what the others say.
fn record_code(bytes: &[u8], version: u32) -> u32
    requires { length bytes.now ≡ can_format.record_size }
    ensures { result ≡ code_of version bytes.now }
{
    let last = if says_pool(version, bytes[1]) {
        0
    } else {
        bytes[7]
    };
    u32::from_be_bytes([bytes[4], bytes[5], bytes[6], last])
}

// What its frames ask, by the same bytes.
fn record_settings(bytes: &[u8], version: u32) -> Settings
    requires { length bytes.now ≡ can_format.record_size }
    ensures { view_settings result ≡ settings_of version bytes.now }
{
    Settings {
        payload: bytes[2],
        padding: bytes[3],
        code: record_code(bytes, version),
        mask: number_4(bytes, 8),
    }
}

// Reads the record of object h, which the bytes hold whole.
pub fn read_record(bytes: &[u8], version: u32, h: usize) -> Record
    requires { (header_size + can_format.record_size * h + can_format.record_size ≤ length bytes.now) × (h < 256) }
    ensures { Record_read version h (object_record rules.chip can_format bytes.now h) result }
{
    let at = HEADER_SIZE + RECORD_SIZE * h;
    let record = &bytes[at..at + RECORD_SIZE];
    Record {
        kind: record[1],
        owner: record_owner(record, version, h),
        settings: record_settings(record, version),
    }
}

// Whether Init accepts what a record says, where so many controllers are in use.
pub fn record_valid(controller_count: usize, said: Record) -> bool
    ensures { result
        ≡ object_valid controller_count said.kind (view_owner said.owner) (view_settings said.settings) }
{
    let known = said.kind <= 1;
    let owned = owner_valid(controller_count, said.owner);
    let suits = settings_valid(said.owner.receiving, said.settings);
    known & (owned & suits)
}
