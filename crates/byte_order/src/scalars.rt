// Scalars, one or several in a row: one number each, or the two halves of a complex number.
ghost use Rattle.std.specs.Prelude.{◌≡◌, ◌+◌, ◌*◌, ◌<◌};
ghost use Rattle.descriptor.specs.Codes.{is_complex};
ghost use Rattle.descriptor.specs.Width.{width_of};
ghost use Rattle.byte_order.specs.inner.Turning.{turned_run, Room};
ghost use Rattle.byte_order.specs.Reversal.{number_count, number_width};

use super::numbers::turn_number;
use super::runs::turn_run;

// Whether values of the code are two numbers.
pub fn is_complex(code: u8) -> bool
    ensures { result ≡ is_complex code }
{
    matches!(code, 0x0C..=0x0E | 0x1C..=0x1E)
}

// The bytes of each number of a scalar of the code `code`, of w bytes.
pub fn number_width(code: u8, w: usize) -> usize
    requires { w ≡ width_of code }
    ensures { result ≡ number_width code }
{
    if is_complex(code) { w / 2 } else { w }
}

// One scalar of the code `code`, of w bytes.
pub fn turn_scalar(s: &[u8], out: &mut [u8], at: usize, code: u8, w: usize)
    requires w_value { (w ≡ width_of code) × (0 < w) }
    requires room { Room s.now out.old (at + w) }
    ensures { out.new ≡ turned_run (number_width code) s.now (number_count code) at out.old }
{
    if is_complex(code) {
        let half = w / 2;
        turn_number(s, out, at, half);
        turn_number(s, out, at + half, half);
    } else {
        turn_number(s, out, at, w);
    }
}

// n scalars of the code `code`, of w bytes each.
pub fn turn_scalars(s: &[u8], out: &mut [u8], at: usize, code: u8, w: usize, n: usize)
    requires w_value { (w ≡ width_of code) × (0 < w) }
    requires room { Room s.now out.old (at + n * w) }
    ensures { out.new ≡ turned_run (number_width code) s.now (n * number_count code) at out.old }
{
    if is_complex(code) {
        turn_run(s, out, at, w / 2, n * 2);
    } else {
        turn_run(s, out, at, w, n);
    }
}
