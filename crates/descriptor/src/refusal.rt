// Refusals: what is at fault, and where.
ghost use Rattle.std.specs.Prelude.{◌≡◌};
ghost use Rattle.descriptor.specs.Faults.{number_of};
ghost use Rattle.descriptor.specs.inner.Steps.{refusal_at};

// What document 01's table refuses, with its number there; the names are those of `include/kerbcanopy.h`.
#[derive(Clone, Copy, Debug, PartialEq, Eq)]
pub enum Fault {
    DescriptorLength = 1,
    Header = 2,
    SizeBit = 3,
    Size = 4,
    Code = 5,
    Depth = 6,
    Rows = 7,
    Body = 8,
    Count = 9,
    Contents = 10,
    Name = 11,
    AfterTop = 12,
    DataLength = 20,
    DataEnd = 21,
    Length = 22,
    Enumeration = 23,
    LeftOver = 25,
    Step = 30,
    NoNumber = 31,
    Difference = 32,
    Reader = 40,
    Writer = 41,
    Missing = 42,
    Doubled = 43,
    Type = 44,
    Room = 50,
    Taken = 60,
    NoEntry = 61,
    NoSpace = 62,
    Book = 63,
    NotFound = 64,
}

// A refusal's number and place.
#[derive(Clone, Copy, Debug, PartialEq, Eq)]
pub struct Refusal {
    pub number: u32,
    pub place: usize,
}

impl Fault {
    // Its number in the table.
    pub fn number(self) -> u32
        ensures { result ≡ number_of self }
    {
        self as u32
    }

    // The refusal of it at a place.
    pub fn at(self, place: usize) -> Refusal
        ensures { result ≡ refusal_at (number_of self) place }
    {
        Refusal {
            number: self.number(),
            place,
        }
    }
}
