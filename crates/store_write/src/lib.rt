// Lays lists in the lowest free records of a lent store and frees them: one list, and both lists of a ray.
#![tactic(auto)]

ghost use Rattle.std.specs.Prelude.{◌≡◌, ◌+◌, ◌-◌, ◌*◌, ◌<◌, ◌≤◌, length};
ghost use Rattle.store.specs.Store.{free_from, put_span, put_link, RecordChain, places, freed_spans, freed_links, cells};
ghost use Rattle.store.specs.Fills.{NextFree, FreeCursor, FillListPre, FillListPost};
ghost use Rattle.store.specs.Updates.{update, pairs_from, freed_list};
ghost use Rattle.store_write.specs.LayRays.{LayRayPre, LayRayPost};
ghost use Rattle.store_write.specs.FreeRays.{FreeRayPre};
ghost use Rattle.store.specs.Steps.{LayListPre, LayListPost, FreeListPre};

// The first free place from `from` on, of which there is one: so the walk up to it counts to no end.
fn next_free(spans: &[f64], links: &[u64], n: usize, from: usize) -> usize
    requires { (2 * n ≤ length spans.now) × (2 * n ≤ length links.now)
        × (0 < length (free_from spans.now links.now from (n - from))) }
    ensures { NextFree spans.now links.now n from result }
{
    let mut at = from;
    while store::used(spans, links, at) {
        at += 1;
    }
    at
}

// The record number of a list's head, and the place past its last record.
#[derive(Clone, Copy, Debug, PartialEq, Eq)]
pub struct ListFilled {
    pub head: u64,
    pub cursor: usize,
}

// Writes the record at place i.
pub fn put_record(
    spans: &mut [f64],
    links: &mut [u64],
    i: usize,
    lo: f64,
    hi: f64,
    next: u64,
    owner: u64,
)
    requires { (2 * i + 1 < length spans.old) × (2 * i + 1 < length links.old) }
    ensures { (spans.new ≡ put_span spans.old i lo hi)
        × (links.new ≡ put_link links.old i next owner) }
{
    spans[2 * i] = lo;
    spans[2 * i + 1] = hi;
    links[2 * i] = next;
    links[2 * i + 1] = owner;
}

// Lays the pairs as a chain of the owner, each in the lowest free record. None before place `from` is free.
fn fill_list(
    spans: &mut [f64],
    links: &mut [u64],
    n: usize,
    from: usize,
    owner: u64,
    pairs: &[f64],
    count: usize,
) -> ListFilled
    requires { FillListPre n spans.old links.old owner pairs.now count from }
    ensures { FillListPost n spans.old links.old owner pairs.now count
        result.head result.cursor spans.new links.new }
{
    let first = next_free(spans, links, n, from);
    let mut at = first;
    let last = count - 1;
    for t in 0..last {
        let after = next_free(spans, links, n, at + 1);
        let lo = pairs[2 * t];
        let hi = pairs[2 * t + 1];
        put_record(spans, links, at, lo, hi, (after as u64) + 1, owner);
        at = after;
    }
    put_record(
        spans,
        links,
        at,
        pairs[2 * last],
        pairs[2 * last + 1],
        0,
        owner,
    );
    ListFilled {
        head: (first as u64) + 1,
        cursor: at + 1,
    }
}

// Lays list j from the lowest free record, and says before which place no record is free then. The lists of a commit
// take this place one from the other, so that it only rises.
fn lay_list(
    spans: &mut [f64],
    links: &mut [u64],
    heads: &mut [u64],
    n: usize,
    from: usize,
    j: usize,
    pairs: &[f64],
) -> usize
    requires { LayListPre n (cells spans.old links.old heads.old) (update j pairs.now)
        × FreeCursor n spans.old links.old from }
    ensures { LayListPost n (cells spans.old links.old heads.old)
        (update j pairs.now) result (cells spans.new links.new heads.new) }
{
    let count = pairs.len() / 2;
    if count == 0 {
        heads[j] = 0;
        return from;
    }
    let filled = fill_list(spans, links, n, from, (j as u64) + 1, pairs, count);
    heads[j] = filled.head;
    filled.cursor
}

// Frees the records of a chain.
fn free_chain(spans: &mut [f64], links: &mut [u64], n: usize, owner: u64, head: u64)
    requires { (2 * n ≤ length spans.old) × (2 * n ≤ length links.old)
        × RecordChain links.old n owner head (places links.old n head) }
    ensures { (spans.new ≡ freed_spans spans.old (places links.old n head))
        × (links.new ≡ freed_links links.old (places links.old n head)) }
{
    let mut k = head;
    while k != 0 {
        let i = (k - 1) as usize;
        k = links[2 * i];
        put_record(spans, links, i, 0.0, 0.0, 0, 0);
    }
}

// Frees list j: its records and its head.
fn free_list(spans: &mut [f64], links: &mut [u64], heads: &mut [u64], n: usize, j: usize)
    requires { FreeListPre n (cells spans.old links.old heads.old) j }
    ensures { cells spans.new links.new heads.new
        ≡ freed_list n (cells spans.old links.old heads.old) j }
{
    let head = heads[j];
    free_chain(spans, links, n, (j as u64) + 1, head);
    heads[j] = 0;
}

// Lays both lists of a ray, which stand end to end in the pairs from cell `at` on. None before place `from` is free.
pub fn lay_ray(
    spans: &mut [f64],
    links: &mut [u64],
    heads: &mut [u64],
    n: usize,
    from: usize,
    ray: usize,
    pairs: &[f64],
    at: usize,
    possible: usize,
    certain: usize,
) -> usize
    requires { (at + 2 * possible + 2 * certain ≤ length pairs.now) × FreeCursor n spans.old links.old from
        × LayRayPre n (cells spans.old links.old heads.old) ray (pairs_from pairs.now at possible)
        (pairs_from pairs.now (at + 2 * possible) certain) }
    ensures { LayRayPost n (cells spans.old links.old heads.old) ray
        (pairs_from pairs.now at possible) (pairs_from pairs.now (at + 2 * possible) certain)
        result (cells spans.new links.new heads.new) }
{
    let j = 2 * ray;
    let e = at + 2 * possible;
    let f = e + 2 * certain;
    let next = lay_list(spans, links, heads, n, from, j, &pairs[at..e]);
    lay_list(spans, links, heads, n, next, j + 1, &pairs[e..f])
}

// Frees both lists of a ray.
pub fn free_ray(spans: &mut [f64], links: &mut [u64], heads: &mut [u64], n: usize, ray: usize)
    requires { FreeRayPre n (cells spans.old links.old heads.old) ray }
    ensures { cells spans.new links.new heads.new
        ≡ freed_list n (freed_list n (cells spans.old links.old heads.old) (2 * ray)) (2 * ray + 1) }
{
    let j = 2 * ray;
    free_list(spans, links, heads, n, j);
    free_list(spans, links, heads, n, j + 1);
}
