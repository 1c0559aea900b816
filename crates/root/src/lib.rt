// The square root [3.2]: of every finite double not below zero, the nearest double to its root, ties to even. The
// argument is q × 2^w / 2^1126 with 2^52 ≤ q < 2^53. Its root is that of a whole number of 107 or 108 binary digits,
// times a power of two, and the whole root of that number decides the rounding: from the value of a polynomial, two
// of Newton's steps lead to its upper half, and one more division to all of it. Only whole numbers below 2^64 occur.

#![tactic(auto)]

ghost use Rattle.std.specs.Prelude.{◌≡◌, ◌+◌, ◌*◌, ◌/◌, ◌%◌, ◌^◌, ◌≤◌, ◌<◌};
ghost use Rattle.std.specs.Prelude.{Some};
ghost use Rattle.std.specs.Float.{binary64};
ghost use Rattle.std.specs.Float.Ieee.{of_bits, lt};
ghost use Rattle.definitions.specs.Vectors.{square_root, value_of};
ghost use Rattle.laws.specs.Squares.{WholeRoot};
ghost use Rattle.root.specs.Scaled.{ScaledBy};
ghost use Rattle.root.specs.Start.{Start};
ghost use Rattle.root.specs.Newton.{Close};

// In a bit pattern: what the exponent's field counts, 2^52; the sign, 2^63; and the infinity, from which on no
// pattern has a root. A constant calls `to_bits` by its path: no method call may stand in its value.
const FIELD: u64 = 0x0010_0000_0000_0000;

const SIGN: u64 = 0x8000_0000_0000_0000;

const INFINITY: u64 = f64::to_bits(f64::INFINITY);

// 2^-30 and 2^-62. What is below the second has a root of at most 2^-31, the half of the first; and the first is
// below every tolerance from 0.000000001 on.
const LEAST: f64 = 0.000000000931322574615478515625;

const TINY: f64 = 0.00000000000000000021684043449710088680149056017398834228515625;

// A double above zero, as q × 2^w / 2^1126.
#[derive(Clone, Copy)]
struct Scaled {
    q: u64,
    w: u64,
}

// The fields of a double above zero. A subnormal one is moved up until its leading digit stands where that of the
// others does.
fn scale(bits: u64) -> Scaled
    requires { (0 < bits) × (bits < 2047 * 2 ^ 52) }
    ensures { ScaledBy (of_bits binary64 bits) result.q result.w }
{
    let field = bits / FIELD;
    let digits = bits % FIELD;
    if 0 < field {
        Scaled {
            q: FIELD + digits,
            w: field + 51,
        }
    } else {
        let zeros = u64::from(digits.leading_zeros());
        Scaled {
            q: digits << (zeros - 11),
            w: 63 - zeros,
        }
    }
}

// The start of i, a whole number near the root of i × 2^22. A polynomial of the second degree does not come near
// enough; this one, of the third, begins with the coefficient 1, and so takes two multiplications.
fn start(i: u64) -> u64
    requires { (256 ≤ i) × (i < 1024) }
    ensures { Start i result }
{
    (958_000_000 + i * (5_400_000 - i * (3115 - i))) / 65536
}

// The first of Newton's steps towards the root of n × 2^8, from the start of its leading digits.
fn first_step(n: u64) -> u64
    requires { (2 ^ 52 ≤ n) × (n < 2 ^ 54) }
    ensures { Close (n * 2 ^ 8) result }
{
    let s = start(n / 0x1000_0000_0000);
    (s * 32768 + n / 128 / s) / 2
}

// The whole root of m: Newton's second step gives it, or one more.
fn upper_half(m: u64, y: u64) -> u64
    requires { (2 ^ 60 ≤ m) × (m < 2 ^ 62) × Close m y }
    ensures { WholeRoot m result }
{
    let z = (y + m / y) / 2;
    if z * z <= m { z } else { z - 1 }
}

// The whole root of m × 2^46, from that of m: the rest, divided by the root, gives the lower half, or one more.
fn both_halves(m: u64, y: u64) -> u64
    requires { (2 ^ 60 ≤ m) × (m < 2 ^ 62) × WholeRoot m y }
    ensures { WholeRoot (m * 2 ^ 46) result }
{
    let rest = (m - y * y) * 4194304;
    let d = rest / y;
    let r = y * 8388608 + d;
    if d * d <= rest % y * 16777216 {
        r
    } else {
        r - 1
    }
}

// The whole root of n × 2^54.
fn whole_root(n: u64) -> u64
    requires { (2 ^ 52 ≤ n) × (n < 2 ^ 54) }
    ensures { WholeRoot (n * 2 ^ 54) result }
{
    let m = n * 256;
    both_halves(m, upper_half(m, first_step(n)))
}

// The bits of the root of a double above zero. Its significand is half the whole root, rounded up: an odd whole root
// lies below √, never on it.
fn root_bits(bits: u64) -> u64
    requires { (0 < bits) × (bits < 2047 * 2 ^ 52) }
    ensures { (square_root (of_bits binary64 bits) ≡ Some (of_bits binary64 result)) × (result < 2047 * 2 ^ 52) }
{
    let s = scale(bits);
    let r = whole_root(s.q * (1 + s.w % 2));
    (r + 1) / 2 + (s.w / 2 + 485) * FIELD
}

// The square root [3.2].
pub fn root(x: f64) -> Option<f64>
    ensures { result ≡ square_root x }
{
    if x.is_nan() {
        return None;
    }
    let bits = x.to_bits();
    if bits % SIGN == 0 {
        return Some(x);
    }
    if INFINITY <= bits {
        return None;
    }
    Some(f64::from_bits(root_bits(bits)))
}

// The same for callers with no place for a refusal: the value, or a NaN where there is none. The crate `root_c`
// exports it to C.
pub fn root_or_nan(x: f64) -> f64
    ensures { result ≡ value_of (square_root x) }
{
    root(x).unwrap_or(f64::NAN)
}

// Whether the root lies below a tolerance. Mostly the square alone tells, and no root is worked out: the root of what
// exceeds a tolerance of at most 1 does not lie below it, and that of what is below 2^-62 lies below every tolerance
// from 2^-30 on.
pub fn root_below(x: f64, tolerance: f64) -> bool
    ensures { result ≡ lt (value_of (square_root x)) tolerance }
{
    if tolerance <= 1.0 && tolerance < x {
        return false;
    }
    if LEAST <= tolerance && 0.0 <= x && x < TINY {
        return true;
    }
    root_or_nan(x) < tolerance
}
