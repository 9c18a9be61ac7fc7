// A change list, and its check against a stock, one ray's change at a time.
#![tactic(auto)]

ghost use Rattle.std.specs.Prelude.{◌≡◌, ◌+◌, ◌*◌, ◌%◌, ◌^◌, ◌≤◌, ◌<◌, length, true, ◌&&◌};
ghost use Rattle.grid.specs.Axes.{world_axis};
ghost use Rattle.grid.specs.Rays.{ray_count, rays_along};
ghost use Rattle.store.specs.Updates.{pairs_from};
ghost use Rattle.change_list.specs.Removal.{IsRemoval, ChangeAllowed};
ghost use Rattle.change_list.specs.Changes.{head_at, changes_of, change_ray, Names};
ghost use Rattle.change_list.specs.Steps.{pairs_in, cursor_of, Stands, CheckChangePost, CheckChangesPost, SoundWithRoom};
ghost use Rattle.logic.specs.Logic.{Decides};
ghost use Rattle.spans.specs.Spans.{sound, equal};
ghost use Rattle.stock.specs.Steps.{ChainsInRoom};
ghost use Rattle.stock.specs.Stock.{ray_list, Possible, Certain};
ghost use Rattle.store.specs.Store.{cells};

use grid::{DexelGrid, DexelStockSpec, WorldAxis};

// The six numbers of a change: its ray, and how many pairs its four lists have.
#[derive(Clone, Copy, Debug, PartialEq, Eq)]
pub struct ChangeHead {
    pub axis: u64,
    pub index: u64,
    pub before_possible: usize,
    pub before_certain: usize,
    pub after_possible: usize,
    pub after_certain: usize,
}

// How far a check of changes has come: the cell of the pairs, one more than the last ray, and the sums of pairs before and after.
#[derive(Clone, Copy, Debug, PartialEq, Eq)]
pub struct ChangeCursor {
    pub at: usize,
    pub from: u64,
    pub before: usize,
    pub after: usize,
}

// Reads the six numbers of change k.
pub fn head(changes: &[u64], k: usize) -> ChangeHead
    requires { 6 * k + 5 < length changes.now }
    ensures { result ≡ head_at changes.now k }
{
    let at = 6 * k;
    let axis = changes[at];
    let index = changes[at + 1];
    let before_possible = changes[at + 2] as usize;
    let before_certain = changes[at + 3] as usize;
    let after_possible = changes[at + 4] as usize;
    let after_certain = changes[at + 5] as usize;
    ChangeHead {
        axis,
        index,
        before_possible,
        before_certain,
        after_possible,
        after_certain,
    }
}

// Whether the lists have no more pairs than are left.
fn fits(h: ChangeHead, left: usize) -> bool
    ensures { Decides (pairs_in h ≤ left) result }
{
    h.before_possible <= left
        && h.before_certain <= left - h.before_possible
        && h.after_possible <= left - h.before_possible - h.before_certain
        && h.after_certain <= left - h.before_possible - h.before_certain - h.after_possible
}

// The number of the ray that a change names.
pub fn ray_named(g: DexelGrid, h: ChangeHead) -> u64
    requires { (ray_count g < 2 ^ 64) × (h.axis ≤ 2) × (h.index < rays_along g (world_axis h.axis)) }
    ensures { result ≡ change_ray g h.axis h.index }
{
    let axis = h.axis as u8;
    grid_rays::ray_number(g, WorldAxis(axis), h.index)
}

// Whether a change names a ray, and one from the given one on.
fn names_ray_from(g: DexelGrid, h: ChangeHead, from: u64) -> bool
    requires { ray_count g < 2 ^ 64 }
    ensures { Decides (Names g h.axis h.index from) result }
{
    h.axis <= 2 && h.index < grid_rays::rays(g, WorldAxis(h.axis as u8)) && from <= ray_named(g, h)
}

// The cursor past a change.
fn past(
    at: usize,
    before: usize,
    after: usize,
    ray: u64,
    bp: usize,
    bc: usize,
    ap: usize,
    ac: usize,
) -> ChangeCursor
    requires { (at + 2 * bp + 2 * bc + 2 * ap + 2 * ac < 2 ^ 64) × (2 * (before + after) ≤ at) × (ray + 1 < 2 ^ 64) }
    ensures { result ≡ cursor_of (at + 2 * bp + 2 * bc + 2 * ap + 2 * ac) (ray + 1) (before + bp + bc) (after + ap + ac) }
{
    ChangeCursor {
        at: at + 2 * bp + 2 * bc + 2 * ap + 2 * ac,
        from: ray + 1,
        before: before + bp + bc,
        after: after + ap + ac,
    }
}

// Checks a change whose lists begin at the cursor.
fn check_change(
    spec: DexelStockSpec,
    g: DexelGrid,
    spans: &[f64],
    links: &[u64],
    heads: &[u64],
    pairs: &[f64],
    h: ChangeHead,
    cur: ChangeCursor,
) -> Option<ChangeCursor>
    requires { SoundWithRoom spec g (cells spans.now links.now heads.now) × Stands pairs.now cur }
    ensures { CheckChangePost spec g (cells spans.now links.now heads.now)
        pairs.now h cur result }
{
    if !fits(h, (pairs.len() - cur.at) / 2) {
        return None;
    }
    if !names_ray_from(g, h, cur.from) {
        return None;
    }
    let ray = ray_named(g, h);
    let good = check_removal_at(
        spec,
        g,
        spans,
        links,
        heads,
        pairs,
        ray,
        cur.at,
        h.before_possible,
        h.before_certain,
        h.after_possible,
        h.after_certain,
    );
    if !good {
        return None;
    }
    Some(past(
        cur.at,
        cur.before,
        cur.after,
        ray,
        h.before_possible,
        h.before_certain,
        h.after_possible,
        h.after_certain,
    ))
}

// Checks all changes, in order.
pub fn check_changes(
    spec: DexelStockSpec,
    g: DexelGrid,
    spans: &[f64],
    links: &[u64],
    heads: &[u64],
    changes: &[u64],
    pairs: &[f64],
) -> Option<ChangeCursor>
    requires { SoundWithRoom spec g (cells spans.now links.now heads.now) × (length pairs.now % 2 ≡ 0) }
    ensures { CheckChangesPost spec g (cells spans.now links.now heads.now)
        pairs.now (changes_of changes.now pairs.now) result }
{
    let count = changes.len() / 6;
    let mut cur = ChangeCursor {
        at: 0,
        from: 0,
        before: 0,
        after: 0,
    };
    for k in 0..count {
        let h = head(changes, k);
        cur = check_change(spec, g, spans, links, heads, pairs, h, cur)?;
    }
    Some(cur)
}

// Whether two lists have the same ends, as numbers.
fn same_ends(a: &[f64], b: &[f64]) -> bool
    ensures { result ≡ equal a.now b.now }
{
    a == b
}

// Whether the lists before are those that the store has for the ray, as numbers.
fn matches_before(
    spec: DexelStockSpec,
    g: DexelGrid,
    spans: &[f64],
    links: &[u64],
    heads: &[u64],
    ray: u64,
    p: &[f64],
    q: &[f64],
) -> bool
    requires { ChainsInRoom spec g (cells spans.now links.now heads.now) × (ray < ray_count g) }
    ensures { result ≡ (equal (ray_list spec (cells spans.now links.now heads.now)
        ray Possible) p.now
        && equal (ray_list spec (cells spans.now links.now heads.now) ray Certain) q.now) }
{
    let n = spec.max_intervals as usize;
    let head = store::ray_heads(heads, ray as usize);
    store_read::list_is(spans, links, n, head.possible, p)
        && store_read::list_is(spans, links, n, head.certain, q)
}

// Whether the new lists of a ray are valid, gain no point of the old ones and differ from them.
fn is_removal(p: &[f64], q: &[f64], np: &[f64], nq: &[f64], lo: f64, hi: f64) -> bool
    requires { (sound p.now ≡ true) × (sound q.now ≡ true) }
    ensures { Decides (IsRemoval lo hi p.now q.now np.now nq.now) result }
{
    ray_check::valid_ray(np, nq, lo, hi)
        && span_cover::covers(p, np)
        && span_cover::covers(q, nq)
        && !(same_ends(np, p) && same_ends(nq, q))
}

// Whether a change of this ray is allowed: its old lists are those of the store, and the new ones a removal from them.
fn check_removal(
    spec: DexelStockSpec,
    g: DexelGrid,
    spans: &[f64],
    links: &[u64],
    heads: &[u64],
    ray: u64,
    p: &[f64],
    q: &[f64],
    np: &[f64],
    nq: &[f64],
) -> bool
    requires { SoundWithRoom spec g (cells spans.now links.now heads.now) × (ray < ray_count g) }
    ensures { Decides (ChangeAllowed spec g
        (cells spans.now links.now heads.now) ray p.now q.now
        np.now nq.now) result }
{
    let bounds = grid_rays::ray_bounds(spec, g, ray);
    matches_before(spec, g, spans, links, heads, ray, p, q)
        && is_removal(p, q, np, nq, bounds.lo, bounds.hi)
}

// Whether a change of this ray is allowed whose four lists, of so many pairs each, stand end to end from cell `at` on.
pub fn check_removal_at(
    spec: DexelStockSpec,
    g: DexelGrid,
    spans: &[f64],
    links: &[u64],
    heads: &[u64],
    pairs: &[f64],
    ray: u64,
    at: usize,
    bp: usize,
    bc: usize,
    ap: usize,
    ac: usize,
) -> bool
    requires { SoundWithRoom spec g (cells spans.now links.now heads.now) × (ray < ray_count g)
        × (at + 2 * bp + 2 * bc + 2 * ap + 2 * ac ≤ length pairs.now) }
    ensures { Decides (ChangeAllowed spec g
        (cells spans.now links.now heads.now) ray
        (pairs_from pairs.now at bp) (pairs_from pairs.now (at + 2 * bp) bc)
        (pairs_from pairs.now (at + 2 * bp + 2 * bc) ap)
        (pairs_from pairs.now (at + 2 * bp + 2 * bc + 2 * ap) ac)) result }
{
    let e = at + 2 * bp;
    let f = e + 2 * bc;
    let i = f + 2 * ap;
    let j = i + 2 * ac;
    check_removal(
        spec,
        g,
        spans,
        links,
        heads,
        ray,
        &pairs[at..e],
        &pairs[e..f],
        &pairs[f..i],
        &pairs[i..j],
    )
}
