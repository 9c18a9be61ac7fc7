// Pairs of doubles moved in place, so that the pairs stay the same.
#![tactic(auto)]

ghost use Rattle.std.specs.Prelude.{◌+◌, ◌*◌, ◌≤◌, length};
ghost use Rattle.pair_moves.specs.Pairs.{SamePairs};

// Exchanges the pairs i and j. All four numbers are read before one is written, so that there is no branch, also where i is j; the
// slice's own `swap` has two.
pub fn swap_pairs(s: &mut [f64], i: usize, j: usize)
    requires { (i ≤ j) × (2 * j + 2 ≤ length s.old) }
    ensures { SamePairs s.old s.new }
{
    let a = s[2 * i];
    let b = s[2 * i + 1];
    let c = s[2 * j];
    let d = s[2 * j + 1];
    s[2 * i] = c;
    s[2 * i + 1] = d;
    s[2 * j] = a;
    s[2 * j + 1] = b;
}

// Moves the pair k down past those in front of it, from l on, that are above it.
pub fn place_pair(s: &mut [f64], l: usize, k: usize)
    requires { 2 * k + 2 ≤ length s.old }
    ensures { SamePairs s.old s.new }
{
    let lo = s[2 * k];
    let hi = s[2 * k + 1];
    let mut j = k;
    while l < j {
        let x = s[2 * j - 2];
        if !(lo < x) {
            break;
        }
        let y = s[2 * j - 1];
        s[2 * j] = x;
        s[2 * j + 1] = y;
        j -= 1;
    }
    s[2 * j] = lo;
    s[2 * j + 1] = hi;
}
