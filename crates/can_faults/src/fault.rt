// The rules of a configuration's bytes, and what is found broken.

// A rule of the header, byte by byte, or of the total.
#[derive(Clone, Copy)]
pub enum OutlineRule {
    Mark,
    Version,
    Controllers,
    Objects,
    ZeroByte,
    Size,
}

// A rule of one object's record.
#[derive(Clone, Copy)]
pub enum RecordRule {
    // Any record.
    Controller,
    Kind,
    Payload,
    // The record of a sending object.
    SendingCode,
    SendingMask,
    Pool,
    // The record of a receiving object.
    ReceivingPadding,
    CodeBits,
    MaskBits,
    StandardCode,
    StandardMask,
    StrayBit,
}

// A rule of a sending object beside the lowest one of its pool.
#[derive(Clone, Copy)]
pub enum PoolRule {
    Controller,
    Payload,
    Padding,
}

// The first rule that is broken: of the outline, by an object's record, or by an object that differs from the lowest one of its pool.
#[derive(Clone, Copy)]
pub enum Fault {
    Outline(OutlineRule),
    Record {
        rule: RecordRule,
        object: usize,
    },
    Pool {
        rule: PoolRule,
        object: usize,
        lowest: usize,
    },
}
