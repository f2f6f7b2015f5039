// The limits of document 01, said once in the code.
pub const DESCRIPTOR_LIMIT: usize = 4096;

pub const ROW_LIMIT: usize = 256;

pub const DEPTH_LIMIT: usize = 8;

pub const DIMENSION_LIMIT: usize = 4;

pub const PAIR_LIMIT: usize = 9;

pub const BASE_LIMIT: usize = 8;

pub const COUNT_LIMIT: usize = 65535;

// A size word's high bit.
pub const HIGH_BIT: usize = 0x8000;
