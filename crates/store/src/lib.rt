// The lent store: what its cells hold for a ray and for a record, and its check in linear time with no memory of its own.
#![tactic(auto)]

ghost use Rattle.std.specs.Prelude.{◌≡◌, true, ◌+◌, ◌-◌, ◌*◌, ◌<◌, ◌≤◌, length};
ghost use Rattle.store.specs.Store.{is_plus_zero, used_at, ChainsSound, cells};
ghost use Rattle.store.specs.Layout.{heads_of, record_of};
ghost use Rattle.store.specs.Walks.{walk_from, walk_all};
ghost use Rattle.logic.specs.Logic.{count_to};

// The numbers of the first records of a ray's two lists, zero for an empty one.
#[derive(Clone, Copy, Debug, PartialEq)]
pub struct RayHeads {
    pub possible: u64,
    pub certain: u64,
}

pub fn ray_heads(heads: &[u64], ray: usize) -> RayHeads
    requires { 2 * ray + 1 < length heads.now }
    ensures { result ≡ heads_of heads.now ray }
{
    RayHeads {
        possible: heads[2 * ray],
        certain: heads[2 * ray + 1],
    }
}

// The head of a ray's possible list alone: who reads no more asks for no more cells.
pub fn possible_head(heads: &[u64], ray: usize) -> u64
    requires { 2 * ray < length heads.now }
    ensures { result ≡ (heads_of heads.now ray).possible }
{
    heads[2 * ray]
}

// A record as a reader of its list sees it: its pair, and the number of the next record.
#[derive(Clone, Copy, Debug, PartialEq)]
pub struct Record {
    pub lo: f64,
    pub hi: f64,
    pub next: u64,
}

pub fn record_at(spans: &[f64], links: &[u64], i: usize) -> Record
    requires { (2 * i + 1 < length spans.now) × (2 * i < length links.now) }
    ensures { result ≡ record_of spans.now links.now i }
{
    Record {
        lo: spans[2 * i],
        hi: spans[2 * i + 1],
        next: links[2 * i],
    }
}

fn plus_zero(x: f64) -> bool
    ensures { result ≡ is_plus_zero x }
{
    !x.is_nan() && x.to_bits() == 0
}

// Whether the record at place i is in use.
pub fn used(spans: &[f64], links: &[u64], i: usize) -> bool
    requires { (2 * i + 1 < length spans.now) × (2 * i + 1 < length links.now) }
    ensures { result ≡ used_at spans.now links.now i }
{
    links[2 * i + 1] != 0
        || links[2 * i] != 0
        || !plus_zero(spans[2 * i])
        || !plus_zero(spans[2 * i + 1])
}

// How many of the first n records are in use.
pub fn count_used(spans: &[f64], links: &[u64], n: usize) -> usize
    requires { (2 * n ≤ length spans.now) × (2 * n ≤ length links.now) }
    ensures { result ≡ count_to (used_at spans.now links.now) n }
{
    let mut c: usize = 0;
    for i in 0..n {
        if used(spans, links, i) {
            c += 1;
        }
    }
    c
}

// Walks a chain of the owner, with `from` records counted before and at most `limit` in all: how many are counted at its
// end, or none where it breaks off.
fn walk_chain(
    links: &[u64],
    n: usize,
    owner: u64,
    head: u64,
    from: usize,
    limit: usize,
) -> Option<usize>
    requires { 2 * n ≤ length links.now }
    ensures { result ≡ walk_from links.now n owner (limit - from) from head }
{
    let mut k = head;
    let mut c = from;
    while k != 0 {
        if limit <= c {
            return None;
        }
        let i = (k - 1) as usize;
        if n <= i {
            return None;
        }
        if links[2 * i + 1] != owner {
            return None;
        }
        k = links[2 * i];
        c += 1;
    }
    Some(c)
}

// Walks the chains of all m lists.
fn walk_all(links: &[u64], heads: &[u64], n: usize, m: usize, limit: usize) -> Option<usize>
    requires { (2 * n ≤ length links.now) × (m ≤ length heads.now) }
    ensures { result ≡ walk_all links.now heads.now n limit m 0 0 }
{
    let mut c: usize = 0;
    for j in 0..m {
        let owner = (j as u64) + 1;
        c = walk_chain(links, n, owner, heads[j], c, limit)?;
    }
    Some(c)
}

// Whether a store of n records and m lists is sound, but for the validity of its rays.
pub fn check_store(
    spans: &[f64],
    links: &[u64],
    heads: &[u64],
    n: usize,
    m: usize,
    total: u64,
) -> bool
    requires { (2 * n ≤ length spans.now) × (2 * n ≤ length links.now) × (m ≤ length heads.now) }
    ensures { (result ≡ true → ChainsSound n m total (cells spans.now links.now heads.now))
        × (ChainsSound n m total (cells spans.now links.now heads.now) → result ≡ true) }
{
    let u = count_used(spans, links, n);
    (u as u64) == total && walk_all(links, heads, n, m, u) == Some(u)
}
