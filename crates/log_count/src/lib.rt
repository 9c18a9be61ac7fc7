// The count of one ray for the budgets of a log commit: whether it would change, and how many pairs its lists would have. The hits of a ray
// that has few entries are read by their keys, those of any other in stretches of numbers.
#![tactic(auto)]

ghost use Rattle.std.specs.Prelude.{◌≡◌, ◌+◌, ◌<◌, length};
ghost use Rattle.store_read.specs.Reading.{Readable};
ghost use Rattle.log_model.specs.Logs.{entry_count};
ghost use Rattle.log_keys.specs.Keys.{hits_to};
ghost use Rattle.log_gather.specs.Gathering.{Shaped};
ghost use Rattle.log_count.specs.Totals.{CountPost};
ghost use Rattle.log_count.specs.Steps.{EndListPost, CountListPost, AddRayPre, AddRayPost, CountPre, KeysOf};
ghost use Rattle.log_count.specs.Steps.{TakePartPre, TakePartPost};
ghost use Rattle.store.specs.Store.{cells};

use grid::{DexelGrid, DexelStockSpec};
use log_left::Rest;

// One list: whether it would change, its pairs, and the pairs it would then have.
#[derive(Clone, Copy, Debug, PartialEq, Eq)]
pub struct ListCount {
    pub changes: bool,
    pub before: u64,
    pub after: u64,
}

// The rays that would change, and the pairs of all lists, as far as counted.
#[derive(Clone, Copy, Debug, PartialEq, Eq)]
pub struct RayTotals {
    pub changed: u64,
    pub pairs: u64,
}

// Both lists of a ray as far as they are walked, and where the stretch of numbers ends that was taken from them.
#[derive(Clone, Copy, Debug, PartialEq)]
pub struct RayWalks {
    pub possible: Rest,
    pub certain: Rest,
    pub end: f64,
}

// The count of a list at the end of its walk.
fn end_list(spans: &[f64], links: &[u64], n: usize, head: u64, r: Rest) -> ListCount
    requires { Readable n spans.now links.now head × Readable n spans.now links.now r.at }
    ensures { EndListPost n spans.now links.now head r result }
{
    let left = log_left::finish(spans, links, n, r);
    ListCount {
        changes: left.moved,
        before: store_read::list_pairs(links, n, head) as u64,
        after: left.pairs,
    }
}

// The count of a list that loses the hits of the entries with these keys.
fn count_list(
    spans: &[f64],
    links: &[u64],
    n: usize,
    head: u64,
    log: &[f64],
    keys: &[u64],
    certain: bool,
    buffer: &mut [f64],
) -> ListCount
    requires { Readable n spans.now links.now head × Shaped buffer.old × (0 < entry_count log.now) }
    ensures { CountListPost n spans.now links.now head
        (hits_to log.now keys.now certain (length keys.now))
        buffer.old buffer.new result }
{
    let top = f64::INFINITY;
    let r = log_left::start(spans, links, n, head);
    let t = log_stretches::take_hits(
        spans, links, n, r, log, keys, certain, buffer, -top, top, -top,
    );
    end_list(spans, links, n, head, t)
}

// The totals with one ray more, by the counts of its lists.
fn add_ray(t: RayTotals, p: ListCount, c: ListCount) -> RayTotals
    requires { AddRayPre t p c }
    ensures { AddRayPost t p c result }
{
    let pairs = t.pairs - (p.before + c.before) + (p.after + c.after);
    let changed = if p.changes || c.changes {
        t.changed + 1
    } else {
        t.changed
    };
    RayTotals { changed, pairs }
}

// The totals with one ray more, whose entries are those with these keys.
pub fn count_ray(
    spec: DexelStockSpec,
    g: DexelGrid,
    spans: &[f64],
    links: &[u64],
    heads: &[u64],
    log: &[f64],
    ray: usize,
    keys: &[u64],
    buffer: &mut [f64],
    t: RayTotals,
) -> RayTotals
    requires { CountPre spec g (cells spans.now links.now heads.now) log.now ray t buffer.old
        × KeysOf g log.now ray keys.now }
    ensures { CountPost spec g (cells spans.now links.now heads.now) log.now (ray + 1)
        buffer.old buffer.new result }
{
    let n = spec.max_intervals as usize;
    let head = store::ray_heads(heads, ray);
    let p = count_list(spans, links, n, head.possible, log, keys, false, buffer);
    let c = count_list(spans, links, n, head.certain, log, keys, true, buffer);
    add_ray(t, p, c)
}

// Takes one stretch of a long ray's hits from both its lists, from where they are taken already.
fn take_part(
    g: DexelGrid,
    spans: &[f64],
    links: &[u64],
    n: usize,
    log: &[f64],
    ray: usize,
    keys: &mut [u64],
    buffer: &mut [f64],
    from: RayWalks,
) -> RayWalks
    requires { TakePartPre g n spans.now links.now log.now keys.old buffer.old from }
    ensures { TakePartPost g n spans.now links.now log.now ray from
        keys.old keys.new buffer.old buffer.new result }
{
    let b = from.end;
    let w = log_long::gather_ray(g, log, ray, b, keys);
    let held = w.keys;
    let m = held.count;
    let both = span_overlay::higher(w.outer, w.inner);
    let possible = log_stretches::take_hits(
        spans,
        links,
        n,
        from.possible,
        log,
        &keys[..m],
        false,
        buffer,
        b,
        held.end,
        w.inner,
    );
    let certain = log_stretches::take_hits(
        spans,
        links,
        n,
        from.certain,
        log,
        &keys[..m],
        true,
        buffer,
        b,
        held.end,
        both,
    );
    RayWalks {
        possible,
        certain,
        end: held.end,
    }
}

// The totals with one ray more, however many entries it has: its hits are taken in stretches of numbers.
pub fn count_long(
    spec: DexelStockSpec,
    g: DexelGrid,
    spans: &[f64],
    links: &[u64],
    heads: &[u64],
    log: &[f64],
    ray: usize,
    keys: &mut [u64],
    buffer: &mut [f64],
    t: RayTotals,
) -> RayTotals
    requires { CountPre spec g (cells spans.now links.now heads.now) log.now ray t buffer.old × (0 < length keys.old) }
    ensures { (length keys.new ≡ length keys.old)
        × CountPost spec g (cells spans.now links.now heads.now) log.now (ray + 1)
        buffer.old buffer.new result }
{
    let n = spec.max_intervals as usize;
    let top = f64::INFINITY;
    let head = store::ray_heads(heads, ray);
    let p = log_left::start(spans, links, n, head.possible);
    let c = log_left::start(spans, links, n, head.certain);
    let mut w = RayWalks {
        possible: p,
        certain: c,
        end: -top,
    };
    loop {
        w = take_part(g, spans, links, n, log, ray, keys, buffer, w);
        if !(w.end < top) {
            break;
        }
    }
    add_ray(
        t,
        end_list(spans, links, n, head.possible, w.possible),
        end_list(spans, links, n, head.certain, w.certain),
    )
}
