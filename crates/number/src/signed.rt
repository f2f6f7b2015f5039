// Signed numbers, of one to eight bytes.
ghost use Rattle.std.specs.Prelude.{◌≡◌, ◌+◌, ◌*◌, ◌^◌, ◌≤◌, ◌<◌};
ghost use Rattle.number.specs.Signed.{signed};

// Half of what n bytes can count.
fn half_range(n: usize) -> u64
    requires { (1 ≤ n) × (n ≤ 8) }
    ensures { 2 * result ≡ 256 ^ n }
{
    1u64 << (8 * n - 1)
}

// The two's complement number of n bytes whose bits are `bits`. The library's casts are for one, two, four and eight bytes alone.
pub fn signed_of(bits: u64, n: usize) -> i64
    requires { (1 ≤ n) × (n ≤ 8) × (bits < 256 ^ n) }
    ensures { result ≡ signed n bits }
{
    let half = half_range(n);
    if bits < half {
        bits as i64
    } else {
        // 256 ^ n - 1 - bits, which fits where 256 ^ n need not
        let below = (half - 1 - (bits - half)) as i64;
        -1 - below
    }
}
