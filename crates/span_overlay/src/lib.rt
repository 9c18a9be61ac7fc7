// Two sound lists laid over each other: the list of one less the other, and that of the points in both, filled into a buffer.
#![tactic(auto)]

ghost use Rattle.std.specs.Prelude.{◌≡◌, true, ◌+◌, ◌≤◌, length};
ghost use Rattle.spans.specs.Spans.{sound};
ghost use Rattle.spans.specs.Steps.{FilledFront};
ghost use Rattle.spans.specs.Overlay.{higher_of, less_of, common_of};
ghost use Rattle.span_overlay.specs.Steps.{OverlayCutPre, OverlayCutPost};

use spans::Place;

// The first end, or the second where that is higher.
pub fn higher(x: f64, y: f64) -> f64
    ensures { result ≡ higher_of x y }
{
    if x < y { y } else { x }
}

// Puts what the sound list `rest` leaves of the pair [from, hi] past the first n ends.
fn cut_pair(rest: &[f64], out: &mut [f64], n: usize, from: f64, hi: f64) -> Place
    requires { OverlayCutPre rest.now from hi out.old n }
    ensures { OverlayCutPost rest.now from hi out.old n out.new result }
{
    let mut lo = from;
    let mut end = n;
    let mut j = 0;
    while j < rest.len() {
        let x = rest[j];
        if hi <= x {
            break;
        }
        let y = rest[j + 1];
        end = spans::put_pair(out, end, lo, x);
        if hi <= y {
            return Place { passed: j, end };
        }
        lo = higher(lo, y);
        j += 2;
    }
    end = spans::put_pair(out, end, lo, hi);
    Place { passed: j, end }
}

// Fills the front of `out` with a less b.
pub fn subtract_into(a: &[f64], b: &[f64], out: &mut [f64]) -> usize
    requires { (sound a.now ≡ true) × (sound b.now ≡ true) × (length a.now + length b.now ≤ length out.old) }
    ensures { FilledFront (λ l. l ≡ less_of a.now b.now) out.old
        (length a.now + length b.now) out.new result }
{
    let mut j = 0;
    let mut n = 0;
    for i in 0..a.len() / 2 {
        let place = cut_pair(&b[j..], out, n, a[2 * i], a[2 * i + 1]);
        n = place.end;
        j += place.passed;
    }
    n
}

// Fills the front of `out` with what a and b have in common.
pub fn intersect_into(a: &[f64], b: &[f64], out: &mut [f64]) -> usize
    requires { (sound a.now ≡ true) × (sound b.now ≡ true) × (length a.now + length b.now ≤ length out.old) }
    ensures { FilledFront (λ l. l ≡ common_of a.now b.now) out.old
        (length a.now + length b.now) out.new result }
{
    let mut i = 0;
    let mut j = 0;
    let mut n = 0;
    while i < a.len() && j < b.len() {
        let lo = doubles_minmax::larger(a[i], b[j]);
        let x = a[i + 1];
        let y = b[j + 1];
        n = spans::put_pair(out, n, lo, doubles_minmax::smaller(x, y));
        if x < y {
            i += 2;
        } else {
            j += 2;
        }
    }
    n
}
