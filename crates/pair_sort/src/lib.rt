// Pairs of doubles sorted in place by their first number. The contracts say that the pairs stay the same; the order
// is for speed only, since what reads the pairs afterwards is right for every order. With a NaN among the first
// numbers any order comes out. The sort is written out since `as_chunks_mut`, by which the slice's own sort could take
// pairs, does not say what the slice ends as.
#![tactic(auto, using(pair_moves::proofs::Laws::unchanged, pair_moves::proofs::Laws::after))]

ghost use Rattle.std.specs.Prelude.{◌+◌, ◌*◌, ◌/◌, ◌≤◌, ◌<◌, length};
ghost use Rattle.pair_moves.specs.Pairs.{SamePairs};

// A part of at most this many pairs is sorted by insertion.
const SHORT: usize = 16;

// Sorts the pairs from l to r by insertion.
fn insertion(s: &mut [f64], l: usize, r: usize)
    requires { 2 * r ≤ length s.old }
    ensures { SamePairs s.old s.new }
{
    for k in l..r {
        pair_moves::place_pair(s, l, k);
    }
}

// The larger child of pair i in the heap of the n pairs from l on.
fn larger_child(s: &[f64], l: usize, n: usize, i: usize) -> usize
    requires { (2 * (l + n) ≤ length s.now) × (i < n / 2) }
    ensures { (i < result) × (result < n) }
{
    let c = 2 * i + 1;
    if c + 1 < n && s[2 * (l + c)] < s[2 * (l + c + 1)] {
        return c + 1;
    }
    c
}

// Moves the pair `at` of that heap below its larger children.
fn sift(s: &mut [f64], l: usize, n: usize, at: usize)
    requires { 2 * (l + n) ≤ length s.old }
    ensures { SamePairs s.old s.new }
{
    let mut i = at;
    while i < n / 2 {
        let c = larger_child(s, l, n, i);
        if !(s[2 * (l + i)] < s[2 * (l + c)]) {
            break;
        }
        pair_moves::swap_pairs(s, l + i, l + c);
        i = c;
    }
}

fn make_heap(s: &mut [f64], l: usize, n: usize)
    requires { 2 * (l + n) ≤ length s.old }
    ensures { SamePairs s.old s.new }
{
    for k in (0..n / 2).rev() {
        sift(s, l, n, k);
    }
}

// Sorts the n pairs from l on by a heap: slower on most input, and never worse.
fn heapsort(s: &mut [f64], l: usize, n: usize)
    requires { 2 * (l + n) ≤ length s.old }
    ensures { SamePairs s.old s.new }
{
    make_heap(s, l, n);
    for e in (1..n).rev() {
        pair_moves::swap_pairs(s, l, l + e);
        sift(s, l, e, 0);
    }
}

// The place of the median of three first numbers.
fn median(s: &[f64], a: usize, b: usize, c: usize, n: usize) -> usize
    requires { (a < n) × (b < n) × (c < n) × (2 * n ≤ length s.now) }
    ensures { result < n }
{
    let x = s[2 * a];
    let y = s[2 * b];
    let z = s[2 * c];
    if x < y {
        if y < z {
            return b;
        }
        if x < z {
            return c;
        }
        return a;
    }
    if x < z {
        return a;
    }
    if y < z {
        return c;
    }
    b
}

// The place of the number to part the pairs from l to r by: a median of three, of three medians in a long part.
fn pivot(s: &[f64], l: usize, r: usize) -> usize
    requires { (l < r) × (2 * r ≤ length s.now) }
    ensures { result < r }
{
    let n = r - l;
    let c = l + n / 2;
    if n <= 128 {
        return median(s, l, c, r - 1, r);
    }
    let e = n / 8;
    let low = median(s, l, l + e, l + 2 * e, r);
    let mid = median(s, c - e, c, c + e, r);
    let high = median(s, r - 1, r - 1 - e, r - 1 - 2 * e, r);
    median(s, low, mid, high, r)
}

// Whether y goes to the front: below x, or not above it.
fn goes_front(y: f64, x: f64, equal: bool) -> bool {
    if equal { !(x < y) } else { y < x }
}

// Brings the pairs from l to r that go to the front there, and answers the place past them. Each turn exchanges, so that no branch
// depends on the numbers.
fn partition(s: &mut [f64], l: usize, r: usize, x: f64, equal: bool) -> usize
    requires { (l ≤ r) × (2 * r ≤ length s.old) }
    ensures { SamePairs s.old s.new × (l ≤ result) × (result ≤ r) }
{
    let mut i = l;
    for k in l..r {
        let y = s[2 * k];
        pair_moves::swap_pairs(s, i, k);
        if goes_front(y, x, equal) {
            i += 1;
        }
    }
    i
}

// Parts the pairs from l to r by one of them, and answers its place.
fn split(s: &mut [f64], l: usize, r: usize) -> usize
    requires { (l < r) × (2 * r ≤ length s.old) }
    ensures { SamePairs s.old s.new × (l ≤ result) × (result < r) }
{
    let p = pivot(s, l, r);
    pair_moves::swap_pairs(s, p, r - 1);
    let x = s[2 * (r - 1)];
    let i = partition(s, l, r - 1, x, false);
    pair_moves::swap_pairs(s, i, r - 1);
    i
}

// The place past the pair i that the pairs from l to r were parted by, and past those equal to it where none is below it.
fn past_equal(s: &mut [f64], l: usize, i: usize, r: usize) -> usize
    requires { (i < r) × (2 * r ≤ length s.old) }
    ensures { SamePairs s.old s.new × (result ≤ r) }
{
    if i == l {
        let x = s[2 * i];
        return partition(s, i + 1, r, x, true);
    }
    i + 1
}

// Sorts the pairs from l to r. The budget falls by a quarter at each level, so that there are few levels; where it is used up the part is
// sorted by a heap.
fn quicksort(s: &mut [f64], l: usize, r: usize, budget: usize)
    requires { (l ≤ r) × (2 * r ≤ length s.old) }
    ensures { SamePairs s.old s.new }
{
    if r - l <= SHORT {
        insertion(s, l, r);
        return;
    }
    if budget == 0 {
        heapsort(s, l, r - l);
        return;
    }
    let less = budget - budget / 4 - 1;
    let i = split(s, l, r);
    quicksort(s, l, i, less);
    let j = past_equal(s, l, i, r);
    quicksort(s, j, r, less);
}

// Whether the first numbers of n pairs never fall (i = 0 and j = 2), or never rise (i = 2 and j = 0): the cells i and j before each pair
// from the second on are compared.
fn never_below(s: &[f64], n: usize, i: usize, j: usize) -> bool
    requires { (2 * n ≤ length s.now) × (i ≤ 2) × (j ≤ 2) }
{
    for k in 1..n {
        if s[2 * k - i] < s[2 * k - j] {
            return false;
        }
    }
    true
}

fn reverse(s: &mut [f64], n: usize)
    requires { 2 * n ≤ length s.old }
    ensures { SamePairs s.old s.new }
{
    for k in 0..n / 2 {
        pair_moves::swap_pairs(s, k, n - 1 - k);
    }
}

// Sorts the pairs by their first number; a last double that is no pair stays. Pairs that ascend are left as they are, those that descend
// are reversed.
pub fn sort_pairs(s: &mut [f64])
    ensures { SamePairs s.old s.new }
{
    let n = s.len() / 2;
    if n <= SHORT {
        insertion(s, 0, n);
        return;
    }
    if never_below(s, n, 0, 2) {
        return;
    }
    if never_below(s, n, 2, 0) {
        reverse(s, n);
        return;
    }
    quicksort(s, 0, n, n);
}
