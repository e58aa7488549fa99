// The table of wire lengths and DLC codes: an entry has the two as bytes 4 and 5 of an object have them.
ghost use Rattle.std.specs.Prelude.{◌≡◌};
ghost use Rattle.can_frame.specs.Table.{entries, wire_entry, NoneBelow};

// What stands for an entry where the table has none: no frame is longer than 64.
const NO_ENTRY: u16 = 0xFF10;

// The last arm of the table: its length is none of those above it.
fn past_the_table(length: usize) -> u16
    requires { NoneBelow entries length }
    ensures { result ≡ wire_entry length }
{
    NO_ENTRY
}

// The entry of a length. An array would be laid on the stack anew at each call; this match becomes a table in read-only memory.
pub fn wire_entry(length: usize) -> u16
    ensures { result ≡ wire_entry length }
{
    match length {
        0 => 0x0000,
        1 => 0x0101,
        2 => 0x0202,
        3 => 0x0303,
        4 => 0x0404,
        5 => 0x0505,
        6 => 0x0606,
        7 => 0x0707,
        8 => 0x0808,
        9 => 0x0C09,
        10 => 0x0C09,
        11 => 0x0C09,
        12 => 0x0C09,
        13 => 0x100A,
        14 => 0x100A,
        15 => 0x100A,
        16 => 0x100A,
        17 => 0x140B,
        18 => 0x140B,
        19 => 0x140B,
        20 => 0x140B,
        21 => 0x180C,
        22 => 0x180C,
        23 => 0x180C,
        24 => 0x180C,
        25 => 0x200D,
        26 => 0x200D,
        27 => 0x200D,
        28 => 0x200D,
        29 => 0x200D,
        30 => 0x200D,
        31 => 0x200D,
        32 => 0x200D,
        33 => 0x300E,
        34 => 0x300E,
        35 => 0x300E,
        36 => 0x300E,
        37 => 0x300E,
        38 => 0x300E,
        39 => 0x300E,
        40 => 0x300E,
        41 => 0x300E,
        42 => 0x300E,
        43 => 0x300E,
        44 => 0x300E,
        45 => 0x300E,
        46 => 0x300E,
        47 => 0x300E,
        48 => 0x300E,
        49 => 0x400F,
        50 => 0x400F,
        51 => 0x400F,
        52 => 0x400F,
        53 => 0x400F,
        54 => 0x400F,
        55 => 0x400F,
        56 => 0x400F,
        57 => 0x400F,
        58 => 0x400F,
        59 => 0x400F,
        60 => 0x400F,
        61 => 0x400F,
        62 => 0x400F,
        63 => 0x400F,
        64 => 0x400F,
        _ => past_the_table(length),
    }
}
