// The limits of data, said once in the code.

pub const DATA_LIMIT: usize = 65536;

// "Lengths and sizes are below 2^31."
pub const LENGTH_LIMIT: usize = 2147483648;

// More elements than any data holds.
pub const ELEMENT_CAP: usize = 4294967296;
