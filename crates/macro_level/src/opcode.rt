// The opcodes (table 5.7, p. 76). The others, 12, 13 and 31, are NOOP.
pub const JMP: u32 = 0;

pub const CALL: u32 = 1;

pub const INT: u32 = 2;

pub const RTI: u32 = 3;

pub const GPSW: u32 = 4;

pub const PPSW: u32 = 5;

pub const LD: u32 = 6;

pub const ST: u32 = 7;

pub const LSL: u32 = 8;

pub const LSR: u32 = 9;

pub const ASR: u32 = 10;

pub const RTN: u32 = 11;

pub const LDI: u32 = 14;

pub const STI: u32 = 15;

pub const ADD: u32 = 16;

pub const ADDC: u32 = 17;

pub const SUB: u32 = 18;

pub const SUBC: u32 = 19;

pub const BAND: u32 = 20;

pub const BOR: u32 = 21;

pub const BXOR: u32 = 22;

pub const BNOT: u32 = 23;

pub const ADDI: u32 = 24;

pub const ADDCI: u32 = 25;

pub const SUBI: u32 = 26;

pub const SUBCI: u32 = 27;

pub const BANDI: u32 = 28;

pub const BORI: u32 = 29;

pub const BXORI: u32 = 30;
