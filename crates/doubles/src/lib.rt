// Doubles: floor, ceiling, size and the cut to a whole number. The definitions of all functions on doubles and their laws stand here.
#![tactic(auto)]

ghost use Rattle.std.specs.Prelude.{◌≡◌};
ghost use Rattle.std.specs.Float.Ieee.{to_unsigned};
ghost use Rattle.doubles.specs.Doubles.{floor_of, ceil_of, abs_of};

// The largest whole number that is not above x. A NaN, an infinity, a zero and what is already whole come back as they are.
pub fn floor(x: f64) -> f64
    ensures { result ≡ floor_of x }
{
    if x == 0.0 {
        return x;
    }
    if x > 0.0 {
        // from 2^52 on every double is whole
        if x < 4503599627370496.0 {
            return std::num::nearest_u64_to_f64(std::num::truncating_f64_to_u64(x));
        }
        return x;
    }
    if x > -4503599627370496.0 {
        let size = -x;
        let whole = std::num::truncating_f64_to_u64(size);
        if std::num::nearest_u64_to_f64(whole) == size {
            return x;
        }
        return -std::num::nearest_u64_to_f64(whole + 1);
    }
    x
}

// The smallest whole number that is not below x.
pub fn ceil(x: f64) -> f64
    ensures { result ≡ ceil_of x }
{
    -floor(-x)
}

// Rust's `x as u64` and `x as usize`: without the fraction, at the nearest end of the range where x is out of it, and 0 for a NaN.
pub fn to_u64(x: f64) -> u64
    ensures { result ≡ to_unsigned 64 x }
{
    std::num::saturating_f64_to_u64(x)
}

// The size of x, with the sign clear.
pub fn abs(x: f64) -> f64
    ensures { result ≡ abs_of x }
{
    x.abs()
}
