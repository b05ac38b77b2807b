// Fractions in lowest terms, within the limits on constants.

ghost use Rattle.std.specs.Prelude.{◌≡◌, ◌<◌, ◌≤◌, ◌^◌, ◌+◌, ◌*◌, ◌*ℤ◌, ◌≤ℤ◌, ◌↔◌, pos, unsigned_abs, IsTrue};
ghost use Rattle.pv_expr.specs.Systems.{IsFraction};
ghost use Rattle.pv_code.specs.Fractions.{signed};

/// `p/q`. Those that a text writes are in lowest terms, with the absolute value of p below 10^37
/// and q from 1 to 10^36.
#[derive(Clone, Copy, Debug, PartialEq, Eq)]
pub struct Fraction {
    pub p: i128,
    pub q: u128,
}

impl Fraction {
    /// The same, with the other sign where a `-` stands before it.
    pub fn signed(self, negative: bool) -> Fraction
        requires { IsFraction self.p self.q }
        ensures { result ≡ signed negative self }
    {
        if negative {
            return Fraction { p: -self.p, ..self };
        }
        self
    }
}

/// Whether p/q is at most r/s, as exact numbers.
pub fn is_quotient_at_most(p: i128, q: u128, r: i128, s: u128) -> bool
    ensures { IsTrue result ↔ ((p *ℤ pos s) ≤ℤ (r *ℤ pos q)) }
{
    let left = product(p.unsigned_abs(), s);
    let right = product(r.unsigned_abs(), q);
    match (p < 0, r < 0) {
        (true, true) => is_at_most(right, left),
        (true, false) => true,
        (false, true) => left == (0, 0) && right == (0, 0),
        (false, false) => is_at_most(left, right),
    }
}

// Whether a number of two parts of 128 bits, the high one first, is at most the other.
fn is_at_most(a: (u128, u128), b: (u128, u128)) -> bool
    ensures { IsTrue result ↔ (a.0 * 2 ^ 128 + a.1 ≤ b.0 * 2 ^ 128 + b.1) }
{
    a.0 < b.0 || (a.0 == b.0 && a.1 <= b.1)
}

const HALF: u128 = 0x1_0000_0000_0000_0000;

// The whole product, in two parts of 128 bits, the high one first.
fn product(a: u128, b: u128) -> (u128, u128)
    ensures { result.0 * 2 ^ 128 + result.1 ≡ a * b }
{
    let (a_high, a_low) = (a / HALF, a % HALF);
    let (b_high, b_low) = (b / HALF, b % HALF);
    let low = a_low * b_low;
    let one = a_high * b_low + low / HALF;
    let two = a_low * b_high + one % HALF;
    let high = a_high * b_high + one / HALF + two / HALF;
    (high, two % HALF * HALF + low % HALF)
}
