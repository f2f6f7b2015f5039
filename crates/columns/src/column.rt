// Numbers that stand at one place of every element of an array: one tight loop for each width.
ghost use Rattle.std.specs.Prelude.{◌≡◌, ◌+◌, ◌<◌};
ghost use Rattle.descriptor.specs.Width.{width_of};
ghost use Rattle.byte_order.specs.inner.Turning.{NumberWide};
ghost use Rattle.columns.specs.inner.Columns.{copies, turned_column, turned_columns, Spread};
ghost use Rattle.byte_order.specs.Reversal.{number_count, number_width};

use byte_order::numbers::Turn;
use byte_order::scalars::is_complex;

// n numbers of the type N, the first at `at` and each `step` bytes past the one before.
fn turn_column_of<N: Turn>(s: &[u8], out: &mut [u8], at: usize, step: usize, n: usize)
    requires { Spread s.now out.old (at + N.WIDTH) step n }
    ensures { out.new ≡ turned_column N.WIDTH s.now step n at out.old }
{
    // `at + i * step` in the place of p makes the loop longer: fewer of its turns are unrolled.
    let mut p = at;
    for _i in 0..n {
        N::turn(s, out, p);
        p += step;
    }
}

// n numbers of w bytes each.
fn turn_column(s: &[u8], out: &mut [u8], at: usize, w: usize, step: usize, n: usize)
    requires number_wide { NumberWide w }
    requires spread { Spread s.now out.old (at + w) step n }
    ensures { out.new ≡ turned_column w s.now step n at out.old }
{
    match w {
        8 => turn_column_of::<u64>(s, out, at, step, n),
        4 => turn_column_of::<u32>(s, out, at, step, n),
        2 => turn_column_of::<u16>(s, out, at, step, n),
        16 => turn_column_of::<u128>(s, out, at, step, n),
        _ => turn_column_of::<u8>(s, out, at, step, n),
    }
}

// n scalars of the code `code`, of w bytes each.
pub fn turn_scalar_column(
    s: &[u8],
    out: &mut [u8],
    at: usize,
    code: u8,
    w: usize,
    step: usize,
    n: usize,
)
    requires w_value { (w ≡ width_of code) × (0 < w) }
    requires spread { Spread s.now out.old (at + w) step n }
    ensures { out.new ≡ turned_columns (copies (number_count code) (number_width code)) s.now step n at out.old }
{
    if is_complex(code) {
        let half = w / 2;
        turn_column(s, out, at, half, step, n);
        turn_column(s, out, at + half, half, step, n);
    } else {
        turn_column(s, out, at, w, step, n);
    }
}
