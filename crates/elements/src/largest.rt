// The largest of numbers that stand equally far apart, one tight loop for each width; and by it, how many of them are below a limit.
ghost use Rattle.std.specs.Prelude.{◌≡◌, ◌≤◌, ◌<◌};
ghost use Rattle.flattened.specs.inner.Order.{order_of, Narrow};
ghost use Rattle.elements.specs.inner.Largest.{largest, Apart, EachLow};

use flattened::order::{Number, Order};

// The largest of n numbers of the type N, the first at `at`, and each `step` bytes after the one before it.
fn largest_of<N: Number>(s: &[u8], at: usize, step: usize, n: usize, o: Order) -> usize
    requires { Apart s.now N.WIDTH step at n }
    ensures { result ≡ largest (order_of o) s.now N.WIDTH step at n }
{
    let mut most = N::default();
    for i in 0..n {
        let v = N::read(s, at + i * step, o);
        // `most.max(v)` is compiled to a slower loop where the numbers stand apart.
        if most < v {
            most = v;
        }
    }
    most.wide()
}

// The same. Where they stand side by side, the step is a constant, with which the loop is faster.
fn largest_at<N: Number>(s: &[u8], at: usize, step: usize, n: usize, o: Order) -> usize
    requires { Apart s.now N.WIDTH step at n }
    ensures { result ≡ largest (order_of o) s.now N.WIDTH step at n }
{
    if step == N::WIDTH {
        largest_of::<N>(s, at, N::WIDTH, n, o)
    } else {
        largest_of::<N>(s, at, step, n, o)
    }
}

// The largest of n numbers of w bytes each, one, two or four.
pub fn largest(s: &[u8], at: usize, w: usize, step: usize, n: usize, o: Order) -> usize
    requires narrow { Narrow w }
    requires apart { Apart s.now w step at n }
    ensures { result ≡ largest (order_of o) s.now w step at n }
{
    match w {
        1 => largest_at::<u8>(s, at, step, n, o),
        2 => largest_at::<u16>(s, at, step, n, o),
        _ => largest_at::<u32>(s, at, step, n, o),
    }
}

// How many of the first of n such numbers are below a limit: all of them, or those before one that is not, which is found by halves.
fn low_within(limit: usize, s: &[u8], at: usize, w: usize, step: usize, n: usize, o: Order) -> usize
    requires narrow { Narrow w }
    requires apart { Apart s.now w step at n }
    ensures { (result ≤ n) × EachLow limit (order_of o) s.now w step at result }
{
    if largest(s, at, w, step, n, o) < limit {
        return n;
    }
    let mut count = 0;
    let mut span = n;
    while 1 < span {
        let half = span / 2;
        if largest(s, at + count * step, w, step, half, o) < limit {
            count += half;
            span -= half;
        } else {
            span = half;
        }
    }
    count
}

// The stretch after one that is passed: eight times as long, up to 4,096.
pub fn longer(stretch: usize) -> usize
    requires { 0 < stretch }
    ensures { 0 < result }
{
    if stretch < 4096 {
        return stretch * 8;
    }
    stretch
}

// The same, stretch by stretch: where one is not below the limit, no more than its stretch is looked at twice, and nothing behind it.
pub fn low(limit: usize, s: &[u8], at: usize, w: usize, step: usize, n: usize, o: Order) -> usize
    requires narrow { Narrow w }
    requires apart { Apart s.now w step at n }
    ensures { (result ≤ n) × EachLow limit (order_of o) s.now w step at result }
{
    let mut count = 0;
    let mut stretch = 1;
    while count < n {
        let span = stretch.min(n - count);
        let more = low_within(limit, s, at + count * step, w, step, span, o);
        count += more;
        if more < span {
            return count;
        }
        stretch = longer(stretch);
    }
    count
}
