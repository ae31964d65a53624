// The tests of the two sizes. No product wraps, whatever they are.
ghost use Rattle.std.specs.Prelude.{◌≡◌, ◌*◌, eqb};

// n is side times side.
pub fn is_square(n: usize, side: usize) -> bool
    ensures { result ≡ eqb n (side * side) }
{
    if side == 0 {
        return n == 0;
    }
    (n / side == side) & (n % side == 0)
}

// n is twice m.
pub fn is_double(n: usize, m: usize) -> bool
    ensures { result ≡ eqb n (2 * m) }
{
    (n / 2 == m) & (n % 2 == 0)
}
