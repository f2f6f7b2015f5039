// Numbers of one, two and four bytes in a byte order.
ghost use Rattle.std.specs.Prelude.{◌≡◌, ℕ, ◌+◌, ◌≤◌, Some, length, refl};
ghost use Rattle.std.specs.Ordering.{nat_cmp};
ghost use Rattle.flattened.specs.Order.{number_at};
ghost use Rattle.flattened.specs.inner.Order.{order_of, Narrow};

// "All big-endian", or "these words read reversed".
#[derive(Clone, Copy, Debug, PartialEq, Eq)]
pub enum Order {
    Big,
    Little,
}

// The numbers of one width, by the type that holds one.
pub trait Number: Copy + Default + PartialOrd {
    // How many bytes a number has.
    ghost WIDTH: { ℕ };

    // Which one it is.
    ghost value: { Self → ℕ };

    const WIDTH: usize;

    // The number at `at`.
    fn read(s: &[u8], at: usize, o: Order) -> Self
        requires { at + WIDTH ≤ length s.now }
        ensures { value result ≡ number_at (order_of o) s.now at WIDTH };

    // The same as a `usize`.
    fn wide(self) -> usize
        ensures { result ≡ value self };

    // What `default` gives is 0.
    ghost starts: { (x : Self) → Self.is_default x → value x ≡ 0 };

    // They are ordered as the numbers are.
    ghost ordered: { (x y : Self) → Self.partial_cmp x y ≡ Some (nat_cmp (value x) (value y)) };
}

// A byte is the same number in either order.
impl Number for u8 {
    ghost WIDTH = { 1 };

    ghost value = { λ x. x };

    ghost starts = { λ x e. e };

    ghost ordered = { λ x y. refl };

    const WIDTH: usize = 1;

    fn read(s: &[u8], at: usize, _o: Order) -> u8 {
        s[at]
    }

    fn wide(self) -> usize {
        self as usize
    }
}

impl Number for u16 {
    ghost WIDTH = { 2 };

    ghost value = { λ x. x };

    ghost starts = { λ x e. e };

    ghost ordered = { λ x y. refl };

    const WIDTH: usize = 2;

    fn read(s: &[u8], at: usize, o: Order) -> u16 {
        let bytes = [s[at], s[at + 1]];
        match o {
            Order::Big => u16::from_be_bytes(bytes),
            Order::Little => u16::from_le_bytes(bytes),
        }
    }

    fn wide(self) -> usize {
        self as usize
    }
}

impl Number for u32 {
    ghost WIDTH = { 4 };

    ghost value = { λ x. x };

    ghost starts = { λ x e. e };

    ghost ordered = { λ x y. refl };

    const WIDTH: usize = 4;

    fn read(s: &[u8], at: usize, o: Order) -> u32 {
        let bytes = [s[at], s[at + 1], s[at + 2], s[at + 3]];
        match o {
            Order::Big => u32::from_be_bytes(bytes),
            Order::Little => u32::from_le_bytes(bytes),
        }
    }

    fn wide(self) -> usize {
        self as usize
    }
}

// The number of the w bytes at `at`: one, two or four.
pub fn narrow_number(s: &[u8], at: usize, w: usize, o: Order) -> usize
    requires narrow { Narrow w }
    requires w_in_bounds { at + w ≤ length s.now }
    ensures { result ≡ number_at (order_of o) s.now at w }
{
    match w {
        1 => u8::read(s, at, o).wide(),
        2 => u16::read(s, at, o).wide(),
        _ => u32::read(s, at, o).wide(),
    }
}
