// What stands in the memory and on the sheet before a call, and whether it still stands there.

// Byte i of the memory.
fn byte_of(i: usize) -> u8 {
    (i % 251) as u8
}

// Word i of the sheet.
fn word_of(i: usize) -> u32 {
    (i % 65536) as u32
}

pub fn fill_memory(memory: &mut [u8]) {
    for (i, byte) in memory.iter_mut().enumerate() {
        *byte = byte_of(i);
    }
}

pub fn fill_sheet(sheet: &mut [u32]) {
    for (i, word) in sheet.iter_mut().enumerate() {
        *word = word_of(i);
    }
}

pub fn memory_same(memory: &[u8]) -> bool {
    memory.iter().enumerate().all(|(i, b)| *b == byte_of(i))
}

pub fn sheet_same(sheet: &[u32]) -> bool {
    sheet.iter().enumerate().all(|(i, w)| *w == word_of(i))
}
