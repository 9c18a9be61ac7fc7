// Rust's `max`, `min` and `clamp` of doubles.
#![tactic(auto)]

ghost use Rattle.std.specs.Prelude.{◌≡◌};
ghost use Rattle.doubles.specs.Doubles.{larger_of, smaller_of, clamp_of};

// Rust's `max`: a NaN loses, and of two equal numbers, as zeros of opposite sign, the first is kept.
#[tactic(auto, unfolding(doubles::specs::Doubles::larger_of))]
pub fn larger(a: f64, b: f64) -> f64
    ensures { result ≡ larger_of a b }
{
    if a.is_nan() || a < b { b } else { a }
}

// Rust's `min`: a NaN loses, and of two equal numbers, as zeros of opposite sign, the first is kept.
#[tactic(auto, unfolding(doubles::specs::Doubles::smaller_of))]
pub fn smaller(a: f64, b: f64) -> f64
    ensures { result ≡ smaller_of a b }
{
    if a.is_nan() || b < a { b } else { a }
}

// Rust's `clamp`, without its panic: lo where x is below it, else hi where x is above that, else x. A NaN stays.
#[tactic(auto, unfolding(doubles::specs::Doubles::clamp_of))]
pub fn clamp(x: f64, lo: f64, hi: f64) -> f64
    ensures { result ≡ clamp_of x lo hi }
{
    if x < lo {
        lo
    } else if hi < x {
        hi
    } else {
        x
    }
}
