// Document 01's codes and fixed words, said once in the code.
ghost use Rattle.std.specs.Prelude.{◌≡◌};
ghost use Rattle.descriptor.specs.Codes.{kind_of, is_carried, is_array, is_stamp};
ghost use Rattle.descriptor.specs.inner.Steps.{kind_is, is_enumeration, is_compound};

// The last code of integers and real and complex numbers; the first is 01.
const LAST_NUMBER: u8 = 0x0E;

const FIRST_ENUMERATION: u8 = 0x15;

const LAST_ENUMERATION: u8 = 0x17;

const FIRST_QUANTITY: u8 = 0x19;

const LAST_QUANTITY: u8 = 0x1E;

const BOOLEAN: u8 = 0x21;

const STRING: u8 = 0x30;

const ARRAY: u8 = 0x40;

pub const CLUSTER: u8 = 0x50;

const STAMP: u8 = 0x54;

// A time stamp's subtype word, and how many descriptors stand after it.
pub const STAMP_SUBTYPE: usize = 6;

pub const STAMP_PARTS: usize = 1;

// A string's length word and an array's dimension words.
pub const FIXED_WORD: usize = 0xFFFF_FFFF;

// What stands in the body of a descriptor of some code.
#[derive(Clone, Copy)]
pub enum Kind {
    Plain,
    Enumeration,
    Quantity,
    Text,
    Array,
    Cluster,
    Stamp,
    Unknown,
}

// The kind of a low code byte, `Unknown` where it is not carried.
pub fn kind_of(code: u8) -> Kind
    ensures { result ≡ kind_is (kind_of code) }
{
    if code < 1 {
        return Kind::Unknown;
    }
    if code <= LAST_NUMBER {
        return Kind::Plain;
    }
    if code < FIRST_ENUMERATION {
        return Kind::Unknown;
    }
    if code <= LAST_ENUMERATION {
        return Kind::Enumeration;
    }
    if code < FIRST_QUANTITY {
        return Kind::Unknown;
    }
    if code <= LAST_QUANTITY {
        return Kind::Quantity;
    }
    if code == BOOLEAN {
        return Kind::Plain;
    }
    if code == STRING {
        return Kind::Text;
    }
    if code == ARRAY {
        return Kind::Array;
    }
    if code == CLUSTER {
        return Kind::Cluster;
    }
    if code == STAMP {
        return Kind::Stamp;
    }
    Kind::Unknown
}

// Whether the code is carried.
pub fn is_carried(code: u8) -> bool
    ensures { result ≡ is_carried (kind_of code) }
{
    let k = kind_of(code);
    match k {
        Kind::Plain => true,
        Kind::Enumeration => true,
        Kind::Quantity => true,
        Kind::Text => true,
        Kind::Array => true,
        Kind::Cluster => true,
        Kind::Stamp => true,
        Kind::Unknown => false,
    }
}

// Whether it is an enumeration's.
pub fn is_enumeration(code: u8) -> bool
    ensures { result ≡ is_enumeration (kind_of code) }
{
    if code < FIRST_ENUMERATION {
        return false;
    }
    code <= LAST_ENUMERATION
}

// Whether it is an array's.
pub fn is_array(code: u8) -> bool
    ensures { result ≡ is_array (kind_of code) }
{
    code == ARRAY
}

// Whether it is a time stamp's.
pub fn is_stamp(code: u8) -> bool
    ensures { result ≡ is_stamp (kind_of code) }
{
    code == STAMP
}

// Whether the data of a descriptor of this code is that of the descriptors inside it, one after another.
pub fn is_compound(code: u8) -> bool
    ensures { result ≡ is_compound (kind_of code) }
{
    if code == CLUSTER {
        return true;
    }
    code == STAMP
}
