// Passes over pairs: copied, worked into the sound list of those in front of them in place, or joined as they are read.
#![tactic(auto)]

ghost use Rattle.std.specs.Prelude.{◌≡◌, ◌+◌, ◌%◌, ◌≤◌, ◌++◌, length, take};
ghost use Rattle.spans.specs.Spans.{retained, NormalOf};
ghost use Rattle.spans.specs.Steps.{FilledFront};
ghost use Rattle.span_join.specs.Steps.{JoinedFromFront, JoinedFromBack, ListInFront};

use span_hits::HitReader;
use spans::Place;

// Copies the pairs with lo < hi past the first n cells of `out`, in order.
pub fn gather(spans: &[f64], out: &mut [f64], n: usize) -> usize
    requires { n + length spans.now ≤ length out.old }
    ensures { ListInFront (take n out.old ++ retained spans.now) out.old out.new result }
{
    let mut m = n;
    for hit in HitReader::new(spans) {
        m = spans::put_pair(out, m, hit.lo, hit.hi);
    }
    m
}

// Works the pairs of the first m cells one by one into the sound list of those in front of them, which stands at the start.
pub fn join_all(b: &mut [f64], m: usize) -> usize
    requires { (m % 2 ≡ 0) × (m ≤ length b.old) }
    ensures { FilledFront (NormalOf (take m b.old)) b.old m b.new result }
{
    let mut n = 0;
    for i in 0..m / 2 {
        let lo = b[2 * i];
        let hi = b[2 * i + 1];
        n = span_insert::insert(b, n, lo, hi);
    }
    n
}

// Whether a pair with lo < hi begins below the last pair of the first n ends.
fn falls(b: &[f64], n: usize, lo: f64, hi: f64) -> bool
    requires { (n % 2 ≡ 0) × (n ≤ length b.now) }
{
    n != 0 && !(b[n - 2] <= lo) && lo < hi
}

// Joins the pairs in their order until one begins below the last pair so far. `passed` is the place of that pair.
pub fn join_rising(spans: &[f64], out: &mut [f64]) -> Place
    requires { (length spans.now % 2 ≡ 0) × (length spans.now ≤ length out.old) }
    ensures { JoinedFromFront spans.now out.old out.new result }
{
    let mut n = 0;
    for i in 0..spans.len() / 2 {
        let k = 2 * i;
        let lo = spans[k];
        let hi = spans[k + 1];
        if falls(out, n, lo, hi) {
            return Place { passed: k, end: n };
        }
        n = span_insert::insert(out, n, lo, hi);
    }
    Place {
        passed: spans.len(),
        end: n,
    }
}

// The same from the last pair back. `passed` is the place past that pair.
pub fn join_falling(spans: &[f64], out: &mut [f64]) -> Place
    requires { (length spans.now % 2 ≡ 0) × (length spans.now ≤ length out.old) }
    ensures { JoinedFromBack spans.now out.old out.new result }
{
    let mut n = 0;
    for i in (0..spans.len() / 2).rev() {
        let k = 2 * i + 2;
        let lo = spans[k - 2];
        let hi = spans[k - 1];
        if falls(out, n, lo, hi) {
            return Place { passed: k, end: n };
        }
        n = span_insert::insert(out, n, lo, hi);
    }
    Place { passed: 0, end: n }
}
