// A pair worked into a sound list, in a lent slice of doubles.
#![tactic(auto)]

ghost use Rattle.std.specs.Prelude.{◌≡◌, ◌+◌, ◌≤◌, length, take, true, Bool, Float};
ghost use Rattle.spans.specs.Spans.{sound};
ghost use Rattle.span_insert.specs.Steps.{EndsCounted, CellsMoved, SplicePost, InsertPost};

// How many of the first n ends pass a test, in a list where those that pass stand in front. Searched from the high end.
fn count_ends<F: Fn(f64) -> bool>(s: &[f64], n: usize, passes: F) -> usize
    requires in_bounds { n ≤ length s.now }
    requires callable { F.IsAlwaysCallable passes }
    ensures { (test : Float → Bool) → ((e : Float) (r : Bool) → F.post passes e r → r ≡ test e) → EndsCounted test s.now n result }
{
    for i in (0..n).rev() {
        if passes(s[i]) {
            return i + 1;
        }
    }
    0
}

// Moves count cells, from `from` to `to`.
fn relocate(b: &mut [f64], from: usize, to: usize, count: usize)
    requires { (from + count ≤ length b.old) × (to + count ≤ length b.old) }
    ensures { CellsMoved b.old from to count b.new }
{
    b.copy_within(from..from + count, to);
}

// Replaces the ends from place i to place j by lo and hi, each where an even number of ends stands in front of its place.
fn splice(b: &mut [f64], n: usize, i: usize, j: usize, lo: f64, hi: f64) -> usize
    requires { (i ≤ j) × (j ≤ n) × (n + 2 ≤ length b.old) }
    ensures { SplicePost b.old n i j lo hi b.new result }
{
    let tail = n - j;
    if i % 2 == 0 {
        if j % 2 == 0 {
            relocate(b, j, i + 2, tail);
            b[i] = lo;
            b[i + 1] = hi;
            return i + 2 + tail;
        }
        relocate(b, j, i + 1, tail);
        b[i] = lo;
        return i + 1 + tail;
    }
    if j % 2 == 0 {
        relocate(b, j, i + 1, tail);
        b[i] = hi;
        return i + 1 + tail;
    }
    relocate(b, j, i, tail);
    i + tail
}

// Works one pair into the sound list of the first n ends, from its high end: past the last pair, joined to it, or below it. A pair without
// lo < hi is dropped.
pub fn insert(b: &mut [f64], n: usize, lo: f64, hi: f64) -> usize
    requires { (n + 2 ≤ length b.old) × (sound (take n b.old) ≡ true) }
    ensures { InsertPost b.old n lo hi b.new result }
{
    if n == 0 {
        return spans::put_pair(b, n, lo, hi);
    }
    let last = b[n - 1];
    if last < lo {
        return spans::put_pair(b, n, lo, hi);
    }
    if b[n - 2] <= lo {
        if last < hi {
            b[n - 1] = hi;
        }
        return n;
    }
    if !(lo < hi) {
        return n;
    }
    let i = count_ends(b, n, |e| e < lo);
    let j = count_ends(b, n, |e| e <= hi);
    splice(b, n, i, j, lo, hi)
}
