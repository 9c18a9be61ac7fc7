// What the hits of one ray take from its lists, worked out in a buffer.
#![tactic(auto)]

ghost use Rattle.std.specs.Prelude.{◌≡◌, not, ◌+◌, ◌-◌, ◌*◌, ◌/◌, ◌^◌, ◌≤◌, ◌<◌, length};
ghost use Rattle.spans.specs.Spans.{equal};
ghost use Rattle.ray_subtract.specs.Subtract.{new_cells};
ghost use Rattle.spans.specs.Overlay.{less_of};
ghost use Rattle.span_overlay.specs.Steps.{OverlayCutPre as CutReady};
ghost use Rattle.ray_subtract.specs.Steps.{cells_from, SoundListAt, CutAt, WrittenAt, less_hits, ReducePost, MergeWithinPre};
ghost use Rattle.ray_subtract.specs.Steps.{MergeWithinPost};

use spans::Place;

// One list after a merge: whether it moved, and how many pairs it has.
#[derive(Clone, Copy, Debug, PartialEq, Eq)]
pub struct MergedList {
    pub moved: bool,
    pub pairs: usize,
}

// Both lists after a merge.
#[derive(Clone, Copy, Debug, PartialEq, Eq)]
pub struct MergedLists {
    pub possible: MergedList,
    pub certain: MergedList,
}

// Whether the list of n cells at a shares a point with that of m cells at b, and so loses it where the second is taken away.
pub fn share_point(w: &[f64], a: usize, n: usize, b: usize, m: usize) -> bool
    requires { SoundListAt a n w.now × SoundListAt b m w.now }
    ensures { result ≡ not (equal (cells_from a n w.now)
        (less_of (cells_from a n w.now) (cells_from b m w.now))) }
{
    span_cover::meets(&w[a..a + n], &w[b..b + m])
}

// Puts what the list of m cells at `at` leaves of the pair [from, hi] past the first n cells. Nothing is written that is still to be read.
fn cut_at(w: &mut [f64], at: usize, m: usize, n: usize, from: f64, hi: f64) -> Place
    requires { (at + m ≤ length w.old) × (n ≤ at) × CutReady (cells_from at m w.old) from hi w.old n }
    ensures { CutAt at m from hi w.old n w.new result }
{
    let mut lo = from;
    let mut end = n;
    // The place where it stops is part of the answer.
    let mut j = 0;
    while j < m {
        let x = w[at + j];
        if hi <= x {
            break;
        }
        let y = w[at + j + 1];
        end = spans::put_pair(w, end, lo, x);
        if hi <= y {
            return Place { passed: j, end };
        }
        lo = span_overlay::higher(lo, y);
        j += 2;
    }
    end = spans::put_pair(w, end, lo, hi);
    Place { passed: j, end }
}

// Writes the list of n cells at a less that of m cells at b to the start of w.
pub fn subtract_at(w: &mut [f64], a: usize, n: usize, b: usize, m: usize) -> usize
    requires { SoundListAt a n w.old × SoundListAt b m w.old × (m ≤ a) × (n ≤ b) }
    ensures { WrittenAt (less_of (cells_from a n w.old) (cells_from b m w.old)) 0 (n + m) (n + m)
        w.old w.new result }
{
    let mut j = 0;
    let mut r = 0;
    for k in 0..n / 2 {
        let i = a + 2 * k;
        let lo = w[i];
        let hi = w[i + 1];
        let place = cut_at(w, b + j, m - j, r, lo, hi);
        r = place.end;
        j += place.passed;
    }
    r
}

// The same, to cell `to` of w.
fn subtract_to(w: &mut [f64], to: usize, a: usize, n: usize, b: usize, m: usize) -> usize
    requires { SoundListAt a n w.old × SoundListAt b m w.old × (to + m ≤ a) × (to + n ≤ b) }
    ensures { WrittenAt (less_of (cells_from a n w.old) (cells_from b m w.old)) to (to + n + m) (n + m)
        w.old w.new result }
{
    subtract_at(&mut w[to..], a - to, n, b - to, m)
}

// The cells that a list takes in the work buffer.
pub fn cells(p: MergedList) -> usize
    requires { new_cells p < 2 ^ 64 }
    ensures { result ≡ new_cells p }
{
    if p.moved { 2 * p.pairs } else { 0 }
}

// Possible less the inner hits.
fn take_inner(w: &mut [f64], a: usize, n: usize, b: usize, m: usize) -> MergedList
    requires { SoundListAt a n w.old × SoundListAt b m w.old × (m ≤ a) × (n ≤ b) }
    ensures { ReducePost (cells_from a n w.old)
        (less_of (cells_from a n w.old) (cells_from b m w.old)) 0 (n + m) (n + m)
        w.old w.new result }
{
    if !share_point(w, a, n, b, m) {
        return MergedList {
            moved: false,
            pairs: n / 2,
        };
    }
    let r = subtract_at(w, a, n, b, m);
    MergedList {
        moved: true,
        pairs: r / 2,
    }
}

// Whether some point of certain, nc cells at c, lies in an outer or an inner hit; those stand behind it.
pub fn is_hit(w: &[f64], c: usize, nc: usize, no: usize, ni: usize) -> bool
    requires { SoundListAt c nc w.now × SoundListAt (c + nc) no w.now × SoundListAt (c + nc + no) ni w.now }
    ensures { result ≡ not (equal (cells_from c nc w.now) (less_hits c nc no ni w.now)) }
{
    let o = c + nc;
    share_point(w, c, nc, o, no) || share_point(w, c, nc, o + no, ni)
}

// Writes certain, nc cells at c, less the outer and the inner hits behind it to cell `to`; certain less the outer
// ones stands at cell t on the way.
pub fn subtract_both(
    w: &mut [f64],
    to: usize,
    t: usize,
    c: usize,
    nc: usize,
    no: usize,
    ni: usize,
) -> usize
    requires { SoundListAt c nc w.old × SoundListAt (c + nc) no w.old × SoundListAt (c + nc + no) ni w.old
        × (to + ni ≤ t) × (t + nc + no ≤ c) }
    ensures { WrittenAt (less_hits c nc no ni w.old) to (t + nc + no) (nc + no + ni) w.old w.new result }
{
    let o = c + nc;
    let i = o + no;
    let m = subtract_to(w, t, c, nc, o, no);
    subtract_to(w, to, t, m, i, ni)
}

// Certain less the outer and the inner hits, to cell `to`, by way of cell t.
fn take_both(
    w: &mut [f64],
    to: usize,
    t: usize,
    c: usize,
    nc: usize,
    no: usize,
    ni: usize,
) -> MergedList
    requires { SoundListAt c nc w.old × SoundListAt (c + nc) no w.old × SoundListAt (c + nc + no) ni w.old
        × (to + ni ≤ t) × (t + nc + no ≤ c) }
    ensures { ReducePost (cells_from c nc w.old) (less_hits c nc no ni w.old) to (t + nc + no) (nc + no + ni)
        w.old w.new result }
{
    if !is_hit(w, c, nc, no, ni) {
        return MergedList {
            moved: false,
            pairs: nc / 2,
        };
    }
    let r = subtract_both(w, to, t, c, nc, no, ni);
    MergedList {
        moved: true,
        pairs: r / 2,
    }
}

// The merge of a ray whose lists and normalized hits stand in the buffer that the new lists go to.
pub fn merge_within(
    w: &mut [f64],
    at: usize,
    np: usize,
    nc: usize,
    no: usize,
    ni: usize,
) -> MergedLists
    requires { MergeWithinPre at np nc no ni w.old }
    ensures { MergeWithinPost at np nc no ni w.old w.new result }
{
    let c = at + np;
    let o = c + nc;
    let i = o + no;
    let possible = take_inner(w, at, np, i, ni);
    let used = cells(possible);
    let certain = take_both(w, used, np + 2 * ni, c, nc, no, ni);
    MergedLists { possible, certain }
}
