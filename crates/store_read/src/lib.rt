// Reads the lists of a lent store off their chains, and tests and measures its rays there, with no memory of its own.
#![tactic(auto)]

ghost use Rattle.std.specs.Prelude.{◌≡◌, true, not, ◌&&◌, ◌+◌, ◌≤◌, length};
ghost use Rattle.std.specs.Float.Ieee.{lt, le};
ghost use Rattle.spans.specs.Spans.{sound, equal};
ghost use Rattle.store.specs.Store.{list_from, places};
ghost use Rattle.spans.specs.Rays.{ValidRay, bounded};
ghost use Rattle.store_read.specs.Reading.{Readable, Linked, ReadListPost};
ghost use Rattle.spans.specs.Containment.{covers, contained};
ghost use Rattle.store_read.specs.Steps.{starts_in, ListSumPost, RaySumsPost, ReachPost};

use store::Record;

// How many pairs the list has.
pub fn list_pairs(links: &[u64], n: usize, head: u64) -> usize
    requires { Linked n links.now head }
    ensures { result ≡ length (places links.now n head) }
{
    let mut c: usize = 0;
    let mut k = head;
    while k != 0 {
        let i = (k - 1) as usize;
        k = links[2 * i];
        c += 1;
    }
    c
}

// Copies the list into the buffer from cell `at` on, and says which cell is past it.
pub fn read_list(
    spans: &[f64],
    links: &[u64],
    n: usize,
    head: u64,
    out: &mut [f64],
    at: usize,
) -> usize
    requires { Readable n spans.now links.now head × (at + length (list_from n spans.now links.now head) ≤ length out.old) }
    ensures { ReadListPost (list_from n spans.now links.now head) out.old at out.new result }
{
    let mut t = at;
    let mut k = head;
    while k != 0 {
        let r = store::record_at(spans, links, (k - 1) as usize);
        out[t] = r.lo;
        out[t + 1] = r.hi;
        k = r.next;
        t += 2;
    }
    t
}

// Whether the list has these ends, as numbers.
pub fn list_is(spans: &[f64], links: &[u64], n: usize, head: u64, pairs: &[f64]) -> bool
    requires { Readable n spans.now links.now head }
    ensures { result ≡ equal (list_from n spans.now links.now head) pairs.now }
{
    let mut t: usize = 0;
    let mut k = head;
    while k != 0 {
        if pairs.len() - t < 2 {
            return false;
        }
        let r = store::record_at(spans, links, (k - 1) as usize);
        if r.lo != pairs[t] || r.hi != pairs[t + 1] {
            return false;
        }
        k = r.next;
        t += 2;
    }
    t == pairs.len()
}

// Whether the record's pair does not begin at x or below, and has lo < hi.
fn follows(pair: Record, x: f64) -> bool
    ensures { result ≡ (not (le pair.lo x) && lt pair.lo pair.hi) }
{
    !(pair.lo <= x) && pair.lo < pair.hi
}

// Whether the list is empty or does not begin below `low`.
fn starts_within(spans: &[f64], links: &[u64], n: usize, head: u64, low: f64) -> bool
    requires { Readable n spans.now links.now head }
    ensures { result ≡ starts_in low (list_from n spans.now links.now head) }
{
    head == 0 || low <= store::record_at(spans, links, (head - 1) as usize).lo
}

// The length of the list, where it is sound and within the bounds: as it rises, its first and its last end tell the
// bounds. No end is at most the NaN that stands for the end before the first pair.
fn sound_between(
    spans: &[f64],
    links: &[u64],
    n: usize,
    head: u64,
    low: f64,
    high: f64,
) -> Option<f64>
    requires { Readable n spans.now links.now head }
    ensures { ListSumPost (sound (list_from n spans.now links.now head)
        && bounded low high (list_from n spans.now links.now head))
        (list_from n spans.now links.now head) result }
{
    if !starts_within(spans, links, n, head, low) {
        return None;
    }
    let mut sum = 0.0;
    let mut last = f64::NAN;
    let mut k = head;
    while k != 0 {
        let r = store::record_at(spans, links, (k - 1) as usize);
        if !follows(r, last) {
            return None;
        }
        last = r.hi;
        sum += r.hi - r.lo;
        k = r.next;
    }
    if head == 0 || last <= high {
        Some(sum)
    } else {
        None
    }
}

// The first record from `head` on whose upper end is not below x, or zero.
fn first_reaching(spans: &[f64], links: &[u64], n: usize, head: u64, x: f64) -> u64
    requires { Readable n spans.now links.now head }
    ensures { ReachPost n spans.now links.now head x result }
{
    let mut k = head;
    while k != 0 {
        let r = store::record_at(spans, links, (k - 1) as usize);
        if !(r.hi < x) {
            return k;
        }
        k = r.next;
    }
    k
}

// Whether the first pair from record number `outer` on reaches over the record's pair.
fn reaches_over(spans: &[f64], links: &[u64], n: usize, outer: u64, pair: Record) -> bool
    requires { Readable n spans.now links.now outer }
    ensures { result ≡ covers (list_from n spans.now links.now outer) pair.lo pair.hi }
{
    if outer == 0 {
        return false;
    }
    let over = store::record_at(spans, links, (outer - 1) as usize);
    over.lo <= pair.lo && pair.hi <= over.hi
}

// The length of the inner list, where it is sound and each of its pairs lies in one of the outer list's.
fn sound_within(spans: &[f64], links: &[u64], n: usize, outer: u64, inner: u64) -> Option<f64>
    requires { Readable n spans.now links.now outer × Readable n spans.now links.now inner }
    ensures { ListSumPost (sound (list_from n spans.now links.now inner)
        && contained (list_from n spans.now links.now outer)
        (list_from n spans.now links.now inner))
        (list_from n spans.now links.now inner) result }
{
    let mut sum = 0.0;
    let mut last = f64::NAN;
    let mut o = outer;
    let mut k = inner;
    while k != 0 {
        let r = store::record_at(spans, links, (k - 1) as usize);
        if !follows(r, last) {
            return None;
        }
        last = r.hi;
        o = first_reaching(spans, links, n, o, last);
        if !reaches_over(spans, links, n, o, r) {
            return None;
        }
        sum += r.hi - r.lo;
        k = r.next;
    }
    Some(sum)
}

// The lengths of a valid ray's two lists.
#[derive(Clone, Copy, Debug, PartialEq)]
pub struct RaySums {
    pub possible: f64,
    pub certain: f64,
}

// The lengths of the ray of these two lists, where it is valid within its bounds.
pub fn measure_ray(
    spans: &[f64],
    links: &[u64],
    n: usize,
    possible: u64,
    certain: u64,
    low: f64,
    high: f64,
) -> Option<RaySums>
    requires { Readable n spans.now links.now possible × Readable n spans.now links.now certain }
    ensures { RaySumsPost low high (list_from n spans.now links.now possible)
        (list_from n spans.now links.now certain) result }
{
    let p = sound_between(spans, links, n, possible, low, high)?;
    let c = sound_within(spans, links, n, possible, certain)?;
    Some(RaySums {
        possible: p,
        certain: c,
    })
}

// Whether the ray of these two lists is valid within its bounds.
pub fn valid_ray_at(
    spans: &[f64],
    links: &[u64],
    n: usize,
    possible: u64,
    certain: u64,
    low: f64,
    high: f64,
) -> bool
    requires { Readable n spans.now links.now possible × Readable n spans.now links.now certain }
    ensures { (result ≡ true → ValidRay low high (list_from n spans.now links.now possible)
        (list_from n spans.now links.now certain))
        × (ValidRay low high (list_from n spans.now links.now possible)
        (list_from n spans.now links.now certain) → result ≡ true) }
{
    measure_ray(spans, links, n, possible, certain, low, high).is_some()
}
