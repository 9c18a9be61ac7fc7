// The correctly rounded square root of a double, worked out from its bit pattern with whole numbers.
#![tactic(auto)]

ghost use Rattle.std.specs.Prelude.{◌≡◌, ◌*◌, ◌^◌, ◌<◌, ◌≤◌};
ghost use Rattle.std.specs.Float.{binary64};
ghost use Rattle.std.specs.Float.Ieee.{of_bits};
ghost use Rattle.doubles_sqrt.specs.Root.{whole_root, square_root};
ghost use Rattle.doubles_sqrt.specs.Radicand.{RadicandOf, Normalized, Guess, RootOf};

// A radicand m * 2^52 * 4^half, in units of the square of the smallest positive double.
#[derive(Clone, Copy)]
struct Radicand {
    m: u64,
    half: u64,
}

// The correctly rounded root of x: a NaN for a NaN and for a negative x that is not zero; a zero
// keeps its sign.
pub fn sqrt(x: f64) -> f64
    ensures { result ≡ square_root binary64 x }
{
    if x.is_nan() {
        return x;
    }
    let bits = x.to_bits();
    if bits == 0 {
        return x;
    }
    if bits == 0x8000_0000_0000_0000 {
        return x;
    }
    if bits == 0x7ff0_0000_0000_0000 {
        return x;
    }
    if 0x8000_0000_0000_0000 < bits {
        return f64::NAN;
    }
    f64::from_bits(root_bits(bits))
}

// The pattern of the root of the positive finite double whose pattern is `bits`.
fn root_bits(bits: u64) -> u64
    requires bits_positive { 0 < bits }
    requires bits_bound { bits < 0x7ff0_0000_0000_0000 }
    ensures root { of_bits binary64 result ≡ square_root binary64 (of_bits binary64 bits) }
    ensures bound { result < 0x7ff0_0000_0000_0000 }
{
    let a = normalized(radicand_of(bits));
    let root = wide_root(a.m);
    a.half * 0x10_0000_0000_0000 + (root + 1) / 2
}

// The radicand of the double with this pattern: an odd exponent's last digit goes to m.
fn radicand_of(bits: u64) -> Radicand
    requires bits_positive { 0 < bits }
    requires bits_bound { bits < 0x7ff0_0000_0000_0000 }
    ensures { RadicandOf bits result.m result.half }
{
    let field = bits / 0x10_0000_0000_0000;
    if field == 0 {
        return Radicand { m: bits, half: 511 };
    }
    let digits = 0x10_0000_0000_0000 + bits % 0x10_0000_0000_0000;
    let half = (field - 1) / 2 + 511;
    if (field - 1) % 2 == 0 {
        return Radicand { m: digits, half };
    }
    Radicand {
        m: digits * 2,
        half,
    }
}

// The same radicand with 2^52 <= m. Only a subnormal double's needs a step.
fn normalized(a: Radicand) -> Radicand
    requires m_positive { 0 < a.m }
    requires m_bound { a.m < 2 ^ 54 }
    requires half_least { 511 ≤ a.half }
    ensures { Normalized a.m a.half result.m result.half }
{
    let mut m = a.m;
    let mut half = a.half;
    while m < 0x10_0000_0000_0000 {
        m *= 4;
        half -= 1;
    }
    Radicand { m, half }
}

// The whole root of m * 2^54, from the whole root s of m, its upper 27 digits: the lower ones are
// (m - s * s) * 2^27 divided by 2 s, and the root is that or one less.
fn wide_root(m: u64) -> u64
    requires m_least { 2 ^ 52 ≤ m }
    requires m_bound { m < 2 ^ 54 }
    ensures { result ≡ whole_root (m * 2 ^ 54) }
{
    let s = whole_root(m);
    let rest = (m - s * s) * 0x800_0000;
    let twice = s * 2;
    let low = rest / twice;
    let root = s * 0x800_0000 + low;
    if low * low <= rest % twice * 0x800_0000 {
        return root;
    }
    root - 1
}

// The whole root of m: a first guess within 1%, two steps of Heron's rule, whose results
// are never below the root, and a step down in the rare case that the last is above it.
fn whole_root(m: u64) -> u64
    requires m_least { 2 ^ 52 ≤ m }
    requires m_bound { m < 2 ^ 54 }
    ensures { RootOf m result }
{
    let mut root = heron(m, heron(m, first_guess(m)));
    while m < root * root {
        root -= 1;
    }
    root
}

// The mean of a guess and of m divided by it: no less than the whole root of m.
fn heron(m: u64, guess: u64) -> u64
    requires m_least { 2 ^ 52 ≤ m }
    requires m_bound { m < 2 ^ 54 }
    requires guess_least { 2 ^ 25 ≤ guess }
    requires guess_bound { guess < 2 ^ 30 }
    ensures { Guess m result }
{
    (guess + m / guess) / 2
}

// Near the root: a parabola along the root's curve. Two lines, one for each half of the range,
// would need a branch that a processor cannot foresee.
fn first_guess(m: u64) -> u64
    requires { m < 2 ^ 54 }
    ensures low { 2 ^ 25 ≤ result }
    ensures high { result < 2 ^ 30 }
{
    let slope = 549_098 - m / 0x80_0000_0000 * 5;
    m / 0x400_0000 * slope / 0x10_0000 + 34_942_255
}
