// The width of a code in data.
ghost use Rattle.std.specs.Prelude.{◌≡◌};
ghost use Rattle.descriptor.specs.Width.{width_of};

// The width of each low code byte up to the last that has one; 0 where there is no fixed width.
const WIDTHS: [u8; 34] = [
    0,
    // 01 to 04: signed integers
    1, 2, 4, 8,
    // 05 to 08: unsigned integers
    1, 2, 4, 8,
    // 09 to 0B: single, double, extended
    4, 8, 16,
    // 0C to 0E: their complex kinds
    8, 16, 32,
    // 0F to 14: none
    0, 0, 0, 0, 0, 0,
    // 15 to 17: enumerations
    1, 2, 4,
    // 18: none
    0,
    // 19 to 1B: physical quantities
    4, 8, 16,
    // 1C to 1E: their complex kinds
    8, 16, 32,
    // 1F and 20: none
    0, 0, 1, // 21: Boolean
];

// How many bytes a value of the code `code` takes, 0 where there is no fixed width.
pub fn width(code: u8) -> usize
    ensures { result ≡ width_of code }
{
    let i = code as usize;
    if i < 34 { WIDTHS[i] as usize } else { 0 }
}
