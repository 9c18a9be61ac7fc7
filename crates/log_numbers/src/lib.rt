// Whole numbers in the cells of a buffer of doubles. They are moved as bits, so that no number is rounded.
#![tactic(auto)]

ghost use Rattle.std.specs.Prelude.{◌≡◌, ◌<◌, length, set};
ghost use Rattle.log_numbers.specs.Numbers.{number_cell, number_at};

// Writes k to the cell at `at`.
pub fn put_number(w: &mut [f64], at: usize, k: u64)
    requires { at < length w.old }
    ensures { w.new ≡ set w.old at (number_cell k) }
{
    w[at] = doubles_bits::of_bits(k);
}

// The number in the cell at `at`.
pub fn number_at(w: &[f64], at: usize) -> u64
    requires { at < length w.now }
    ensures { result ≡ number_at w.now at }
{
    doubles_bits::bits_of(w[at])
}
