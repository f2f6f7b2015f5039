// Numbers in a byte order, signed numbers and floats by their bits, proved once for any width.
#![tactic(auto)]

pub mod endian;
pub mod float;
pub mod signed;

pub use endian::{be16, be32, be64, read_be, read_le, wide, write_be, write_le};
pub use float::{Double, Single, double_of, single_of};
pub use signed::signed_of;
