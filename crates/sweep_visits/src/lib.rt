// The walk over the rays of a rectangle, v outside and u inside: the visit budget, and an entry in the log for each
// hit ray (sweep.rs: `Kernel::rays`).
#![tactic(auto)]

ghost use Rattle.std.specs.Prelude.{◌≡◌, ◌+◌, ◌<◌, ◌≤◌, [], ◌∷◌, ◌++◌, length, take, drop};
ghost use Rattle.sweep_model.specs.Entries.{entry_of, ray_entry, row_entries, rect_entries};
ghost use Rattle.sweep_visits.specs.Steps.{WalkPost, RayReady, AxisReady};

use grid::WorldAxis;
use refusal::Refusal;
use sweep_model::{AxisRays, ChordOnAxis, HitPairs, Profile, RayRange};

// The place of a walk: the rays visited, and where the next entry goes in the log.
#[derive(Clone, Copy, Debug, PartialEq, Eq)]
pub struct VisitCursor {
    pub visits: u64,
    pub at: usize,
}

// Writes an entry at cell `at`.
fn put(log: &mut [f64], at: usize, axis: WorldAxis, index: u64, h: HitPairs)
    requires { at + 6 ≤ length log.old }
    ensures { log.new ≡ take at log.old ++ (entry_of axis index h ++ drop (at + 6) log.old) }
{
    let o = h.outer;
    let i = h.inner;
    log[at] = std::num::nearest_u64_to_f64(axis.0 as u64);
    log[at + 1] = std::num::nearest_u64_to_f64(index);
    log[at + 2] = o.lo;
    log[at + 3] = o.hi;
    log[at + 4] = i.lo;
    log[at + 5] = i.hi;
}

// Visits the ray at the cells u and v.
fn visit_ray(
    n: usize,
    t: AxisRays,
    u: u64,
    v: u64,
    p: Profile,
    l: ChordOnAxis,
    budget: u64,
    c: VisitCursor,
    spans: &[f64],
    links: &[u64],
    heads: &[u64],
    log: &mut [f64],
) -> Result<VisitCursor, Refusal>
    requires { RayReady n t spans.now links.now heads.now u v × (c.at ≤ length log.old) }
    ensures { WalkPost budget
        (ray_entry n t p l spans.now links.now heads.now u v ∷ []) c
        log.old result log.new }
{
    if budget <= c.visits {
        return Err(Refusal::VisitBudget);
    }
    let next = c.visits + 1;
    let index = v * t.row + u;
    let ray = (t.first + index) as usize;
    let head = store::possible_head(heads, ray);
    match sweep_ray::ray_hit(spans, links, n, head, p, l, u, v) {
        None => Ok(VisitCursor {
            visits: next,
            at: c.at,
        }),
        Some(hits) => {
            if log.len() - c.at < 6 {
                return Err(Refusal::LogFull);
            }
            put(log, c.at, t.axis, index, hits);
            Ok(VisitCursor {
                visits: next,
                at: c.at + 6,
            })
        }
    }
}

// The rays from u0 to u1 of a row.
fn sweep_row(
    n: usize,
    t: AxisRays,
    r: RayRange,
    v: u64,
    p: Profile,
    l: ChordOnAxis,
    budget: u64,
    start: VisitCursor,
    spans: &[f64],
    links: &[u64],
    heads: &[u64],
    log: &mut [f64],
) -> Result<VisitCursor, Refusal>
    requires { AxisReady n t spans.now links.now heads.now × (r.u1 < t.row) × (v < t.rows) × (start.at ≤ length log.old) }
    ensures { WalkPost budget
        (row_entries (ray_entry n t p l spans.now links.now heads.now) r v) start
        log.old result log.new }
{
    let mut c = start;
    for u in r.u0..=r.u1 {
        c = visit_ray(n, t, u, v, p, l, budget, c, spans, links, heads, log)?;
    }
    Ok(c)
}

// The rows of a rectangle.
pub fn sweep_rect(
    n: usize,
    t: AxisRays,
    r: RayRange,
    p: Profile,
    l: ChordOnAxis,
    budget: u64,
    start: VisitCursor,
    spans: &[f64],
    links: &[u64],
    heads: &[u64],
    log: &mut [f64],
) -> Result<VisitCursor, Refusal>
    requires { AxisReady n t spans.now links.now heads.now × (r.u1 < t.row) × (r.v1 < t.rows)
        × (start.at ≤ length log.old) }
    ensures { WalkPost budget
        (rect_entries (ray_entry n t p l spans.now links.now heads.now) r) start
        log.old result log.new }
{
    let mut c = start;
    for v in r.v0..=r.v1 {
        c = sweep_row(n, t, r, v, p, l, budget, c, spans, links, heads, log)?;
    }
    Ok(c)
}
