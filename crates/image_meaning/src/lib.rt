// Intel HEX images: what a line says and how the reading of a text stands.
// There is no function here: specs/ says what reading and writing mean, proofs/ what follows from it,
// and image_records, image_reader and image_writer do it.
#![tactic(auto)]

// The first four bytes of a record. The type is the number that stands there: a record of any type has
// a sum, which is tested before the type.
#[derive(Clone, Copy)]
pub struct Heading {
    pub count: u16,
    pub address: u32,
    pub kind: u16,
}

impl Heading {
    pub const DATA: u16 = 0;

    pub const END: u16 = 1;
}

// A record, as a line says it. The sum is that of all its bytes modulo 256, the checksum included.
#[derive(Clone, Copy)]
pub struct Record {
    pub heading: Heading,
    pub sum: u8,
}

// How the reading stands after some lines: more may come, and the last data ended at the address
// given; or the end record was read.
#[derive(Clone, Copy)]
pub enum Reading {
    Open(usize),
    Ended,
}
