// Merges the hits of a log into the rays of a store: the new lists of each ray that changes, one ray after the other, in the work buffer.
#![tactic(auto)]

ghost use Rattle.std.specs.Prelude.{◌≡◌, ◌+◌, ◌*◌, ◌^◌, ◌<◌, ◌≤◌, length, set};
ghost use Rattle.log_numbers.specs.Numbers.{number_cell};
ghost use Rattle.grid.specs.Rays.{ray_count};
ghost use Rattle.log_model.specs.Logs.{entries, entry_count, outer, inner, hits_on_ray};
ghost use Rattle.log_group.specs.Groups.{Grouped};
ghost use Rattle.log_model.specs.Steps.{hit_kind_of};
ghost use Rattle.ray_subtract.specs.Steps.{cells_from, MergeWithinPre, NormalizedAt};
ghost use Rattle.log_merge.specs.Rays.{ray_moves, RayCutPost, LoadPre, LoadPost, limit_of, MergeRayPost};
ghost use Rattle.log_merge.specs.All.{first_size_of, second_size_of, MergeAllPre, MergeAllPost};
ghost use Rattle.stock.specs.Stock.{ray_list, Possible, Certain};
ghost use Rattle.store.specs.Store.{cells};

use grid::{DexelGrid, DexelStockSpec};

// How many pairs the new lists of a ray that changes have.
#[derive(Clone, Copy, Debug, PartialEq, Eq)]
pub struct RayUpdate {
    pub possible: usize,
    pub certain: usize,
}

// The cells that a ray's lists and the lists that normalising makes of its hits have.
#[derive(Clone, Copy, Debug, PartialEq, Eq)]
pub struct Sizes {
    pub possible: usize,
    pub certain: usize,
    pub outer: usize,
    pub inner: usize,
}

// Whether a boundary of one of the ray's lists moves.
fn is_changed(w: &[f64], at: usize, np: usize, nc: usize, no: usize, ni: usize) -> bool
    requires { MergeWithinPre at np nc no ni w.now }
    ensures { result ≡ ray_moves (cells_from at np w.now) (cells_from (at + np) nc w.now)
        (cells_from (at + np + nc) no w.now)
        (cells_from (at + np + nc + no) ni w.now) }
{
    let c = at + np;
    ray_subtract::share_point(w, at, np, c + nc + no, ni) || ray_subtract::is_hit(w, c, nc, no, ni)
}

// Where the ray changes, writes both its lists less the hits to the start of w, possible's before certain's: the one
// that no hit touches as well, since both are laid again.
fn cut_ray(
    w: &mut [f64],
    at: usize,
    np: usize,
    nc: usize,
    no: usize,
    ni: usize,
) -> Option<RayUpdate>
    requires { MergeWithinPre at np nc no ni w.old }
    ensures { RayCutPost (cells_from at np w.old) (cells_from (at + np) nc w.old)
        (cells_from (at + np + nc) no w.old)
        (cells_from (at + np + nc + no) ni w.old) 0 (np + nc + no + 2 * ni) w.old w.new result }
{
    if !is_changed(w, at, np, nc, no, ni) {
        return None;
    }
    let c = at + np;
    let p = ray_subtract::subtract_at(w, at, np, c + nc + no, ni);
    let r = ray_subtract::subtract_both(w, p, np + 2 * ni, c, nc, no, ni);
    Some(RayUpdate {
        possible: p / 2,
        certain: r / 2,
    })
}

// Loads the list that normalising makes of the outer or the inner hits on a ray at cell `at`, and says how many cells it has.
fn load_hits(
    g: DexelGrid,
    log: &[f64],
    work: &mut [f64],
    ray: usize,
    inner: bool,
    at: usize,
) -> usize
    requires { Grouped g log.now work.old × (ray < ray_count g) × (ray_count g + entry_count log.now ≤ at)
        × (at + length (hits_on_ray g (entries log.now) ray (hit_kind_of inner)) ≤ length work.old) }
    ensures { NormalizedAt (hits_on_ray g (entries log.now) ray (hit_kind_of inner)) at
        work.old work.new result }
{
    let e = log_group::gather_hits(g, log, work, ray, inner, at);
    span_normalize::normalize_front(&mut work[at..], e - at)
}

// Loads both lists of a ray and those that normalising makes of its hits, one after the other, at cell s.
fn load_ray(
    spec: DexelStockSpec,
    g: DexelGrid,
    spans: &[f64],
    links: &[u64],
    heads: &[u64],
    log: &[f64],
    work: &mut [f64],
    ray: usize,
    s: usize,
) -> Sizes
    requires { LoadPre spec g (cells spans.now links.now heads.now) log.now work.old ray s }
    ensures { LoadPost (ray_list spec (cells spans.now links.now heads.now) ray Possible)
        (ray_list spec (cells spans.now links.now heads.now) ray Certain)
        (hits_on_ray g (entries log.now) ray outer) (hits_on_ray g (entries log.now) ray inner) s
        work.old work.new result }
{
    let n = spec.max_intervals as usize;
    let head = store::ray_heads(heads, ray);
    let c = store_read::read_list(spans, links, n, head.possible, work, s);
    let o = store_read::read_list(spans, links, n, head.certain, work, c);
    let no = load_hits(g, log, work, ray, false, o);
    let ni = load_hits(g, log, work, ray, true, o + no);
    Sizes {
        possible: c - s,
        certain: o - c,
        outer: no,
        inner: ni,
    }
}

// Merges the hits on a ray: where it changes, both its new lists stand from cell q on. Its lists and hits are loaded at cell s on the way.
fn merge_ray(
    spec: DexelStockSpec,
    g: DexelGrid,
    spans: &[f64],
    links: &[u64],
    heads: &[u64],
    log: &[f64],
    work: &mut [f64],
    ray: usize,
    q: usize,
    s: usize,
) -> Option<RayUpdate>
    requires { LoadPre spec g (cells spans.now links.now heads.now) log.now work.old ray s
        × (q + limit_of spec log.now ≤ s) }
    ensures { MergeRayPost spec g (cells spans.now links.now heads.now) log.now ray q
        work.old work.new result }
{
    if log_numbers::number_at(work, ray) == 0 {
        return None;
    }
    let b = load_ray(spec, g, spans, links, heads, log, work, ray, s);
    let np = b.possible;
    let nc = b.certain;
    let no = b.outer;
    let ni = b.inner;
    cut_ray(&mut work[q..], s - q, np, nc, no, ni)
}

// Writes both sizes of a ray.
fn put_sizes(work: &mut [f64], at: usize, m: Option<RayUpdate>)
    requires { (at + 1 < length work.old) × (first_size_of m < 2 ^ 64) }
    ensures { work.new ≡ set (set work.old at (number_cell (first_size_of m)))
        (at + 1) (number_cell (second_size_of m)) }
{
    let (first, second) = match m {
        Some(u) => (u.possible + 1, u.certain),
        None => (0, 0),
    };
    log_numbers::put_number(work, at, first as u64);
    log_numbers::put_number(work, at + 1, second as u64);
}

// Merges the hits of a grouped log into all rays, and says how many change. The sizes of the new lists stand behind
// the chains, two for each ray, the lists behind the sizes.
pub fn merge_all(
    spec: DexelStockSpec,
    g: DexelGrid,
    spans: &[f64],
    links: &[u64],
    heads: &[u64],
    log: &[f64],
    work: &mut [f64],
) -> u64
    requires { MergeAllPre spec g (cells spans.now links.now heads.now) log.now work.old }
    ensures { MergeAllPost spec g (cells spans.now links.now heads.now) log.now
        work.old work.new result }
{
    let rays = grid_rays::total_rays(g) as usize;
    let e = log_entries::entry_count(log);
    let n = spec.max_intervals as usize;
    let sizes = rays + e;
    let mut q = sizes + 2 * rays;
    let s = q + 6 * n + 6 * e;
    let mut changed: u64 = 0;
    for ray in 0..rays {
        let m = merge_ray(spec, g, spans, links, heads, log, work, ray, q, s);
        put_sizes(work, sizes + 2 * ray, m);
        if let Some(u) = m {
            q += 2 * u.possible + 2 * u.certain;
            changed += 1;
        }
    }
    changed
}
