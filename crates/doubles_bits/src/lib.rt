// Doubles by their bits: to a pattern and back, and the `total_cmp` order.
#![tactic(auto)]

ghost use Rattle.std.specs.Prelude.{◌≡◌};
ghost use Rattle.std.specs.Float.{binary64};
ghost use Rattle.std.specs.Float.Ieee.{of_bits, to_bits};
ghost use Rattle.doubles.specs.TotalOrder.{key_of, total_of};

use std::cmp::Ordering;

// The place of x in the `total_cmp` order, counted from 0. A NaN, of which no bits can be had, counts as the highest.
#[tactic(auto, unfolding(doubles::specs::TotalOrder::key_of, doubles::specs::TotalOrder::key_of_bits))]
pub fn order_key(x: f64) -> u64
    ensures { result ≡ key_of x }
{
    if x.is_nan() {
        return 0xffff_ffff_ffff_ffff;
    }
    let bits = x.to_bits();
    if bits < 0x8000_0000_0000_0000 {
        bits + 0x8000_0000_0000_0000
    } else {
        0xffff_ffff_ffff_ffff - bits
    }
}

// Rust's `total_cmp`: by number, with -0.0 below 0.0, and every NaN the same and above all else.
pub fn total_cmp(a: f64, b: f64) -> Ordering
    ensures { result ≡ total_of a b }
{
    order_key(a).cmp(&order_key(b))
}

// The double with this bit pattern. Every NaN's pattern gives the one NaN.
pub fn of_bits(bits: u64) -> f64
    ensures { result ≡ of_bits binary64 bits }
{
    if bits % 0x8000_0000_0000_0000 > 0x7ff0_0000_0000_0000 {
        return f64::NAN;
    }
    f64::from_bits(bits)
}

// The bit pattern of x, and for a NaN the one with only the highest digit set.
pub fn bits_of(x: f64) -> u64
    ensures { result ≡ to_bits binary64 x }
{
    if x.is_nan() {
        return 0x7ff8_0000_0000_0000;
    }
    x.to_bits()
}
