// Numbers of one width in a row, each reversed: one tight loop for each width.
ghost use Rattle.std.specs.Prelude.{◌≡◌, ◌+◌, ◌*◌};
ghost use Rattle.byte_order.specs.inner.Turning.{turned_run, NumberWide, Room};

use super::numbers::Turn;

// n numbers of the type N.
pub fn turn_run_of<N: Turn>(s: &[u8], out: &mut [u8], at: usize, n: usize)
    requires { Room s.now out.old (at + n * N.WIDTH) }
    ensures { out.new ≡ turned_run N.WIDTH s.now n at out.old }
{
    for i in 0..n {
        N::turn(s, out, at + i * N::WIDTH);
    }
}

// n numbers of eight bytes, four in a turn: with one, the loop's own steps take as long as the number's.
fn turn_run_8(s: &[u8], out: &mut [u8], at: usize, n: usize)
    requires { Room s.now out.old (at + n * 8) }
    ensures { out.new ≡ turned_run 8 s.now n at out.old }
{
    let mut i = 0;
    while i + 3 < n {
        let p = at + i * 8;
        u64::turn(s, out, p);
        u64::turn(s, out, p + 8);
        u64::turn(s, out, p + 16);
        u64::turn(s, out, p + 24);
        i += 4;
    }
    turn_run_of::<u64>(s, out, at + i * 8, n - i);
}

// n numbers of w bytes each.
pub fn turn_run(s: &[u8], out: &mut [u8], at: usize, w: usize, n: usize)
    requires number_wide { NumberWide w }
    requires room { Room s.now out.old (at + n * w) }
    ensures { out.new ≡ turned_run w s.now n at out.old }
{
    match w {
        8 => turn_run_8(s, out, at, n),
        4 => turn_run_of::<u32>(s, out, at, n),
        2 => turn_run_of::<u16>(s, out, at, n),
        16 => turn_run_of::<u128>(s, out, at, n),
        _ => turn_run_of::<u8>(s, out, at, n),
    }
}
