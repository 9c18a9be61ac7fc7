// The fill: lays the uncut store of a blank.
#![tactic(auto)]

ghost use Rattle.std.specs.Prelude.{◌≡◌, ◌*◌, ◌≤◌, length};
ghost use Rattle.grid.specs.Rays.{ray_count};
ghost use Rattle.grid.specs.Causes.{grid_in};
ghost use Rattle.stock_fill.specs.Uncut.{record_at, uncut_spans, uncut_links, uncut_heads, FillPost, room_causes, fill_causes};
ghost use Rattle.grid.specs.Facts.{GridFacts};
ghost use Rattle.store.specs.Store.{cells};

use grid::{DexelGrid, DexelStockSpec};
use refusal::Refusal;
use stock::Tally;

// A record of the uncut store. None has a next.
#[derive(Clone, Copy, Debug, PartialEq)]
pub struct UncutRecord {
    pub lo: f64,
    pub hi: f64,
    pub owner: u64,
}

// The record at place i of the uncut store with m lists.
fn uncut_record(spec: DexelStockSpec, g: DexelGrid, m: usize, i: usize) -> UncutRecord
    requires { m ≡ 2 * ray_count g }
    ensures { result ≡ record_at spec g i }
{
    if i < m {
        let bounds = grid_rays::ray_bounds(spec, g, (i / 2) as u64);
        return UncutRecord {
            lo: bounds.lo,
            hi: bounds.hi,
            owner: (i as u64) + 1,
        };
    }
    UncutRecord {
        lo: 0.0,
        hi: 0.0,
        owner: 0,
    }
}

// Writes the n records of the uncut store with m lists.
fn fill_records(
    spec: DexelStockSpec,
    g: DexelGrid,
    spans: &mut [f64],
    links: &mut [u64],
    n: usize,
    m: usize,
)
    requires { (m ≡ 2 * ray_count g) × (2 * n ≤ length spans.old) × (2 * n ≤ length links.old) }
    ensures { (spans.new ≡ uncut_spans spec g n spans.old)
        × (links.new ≡ uncut_links spec g n links.old) }
{
    for i in 0..n {
        let record = uncut_record(spec, g, m, i);
        store_write::put_record(spans, links, i, record.lo, record.hi, 0, record.owner);
    }
}

// Writes the m heads of the uncut store.
fn fill_heads(heads: &mut [u64], m: usize)
    requires { m ≤ length heads.old }
    ensures { heads.new ≡ uncut_heads m heads.old }
{
    for j in 0..m {
        heads[j] = (j as u64) + 1;
    }
}

// The fill, over a grid that is accepted.
fn fill_grid(
    spec: DexelStockSpec,
    g: DexelGrid,
    spans: &mut [f64],
    links: &mut [u64],
    heads: &mut [u64],
) -> Result<Tally, Refusal>
    requires { GridFacts spec g }
    ensures { FillPost (room_causes spec g (cells spans.old links.old heads.old)) spec g
        (cells spans.old links.old heads.old)
        (cells spans.new links.new heads.new) result }
{
    if stock::is_short(spec, g, spans, links, heads) {
        return Err(Refusal::ShortBuffer);
    }
    let n = spec.max_intervals as usize;
    let m = 2 * (grid_rays::total_rays(g) as usize);
    fill_records(spec, g, spans, links, n, m);
    fill_heads(heads, m);
    Ok(Tally {
        generation: 0,
        intervals: m as u64,
    })
}

// Lays the uncut store of a blank, and gives the small record of the stock that is laid. Refusals: 1, 2, 3, 12.
pub fn fill(
    spec: DexelStockSpec,
    units: &[u8],
    spans: &mut [f64],
    links: &mut [u64],
    heads: &mut [u64],
) -> Result<Tally, Refusal>
    ensures { FillPost (fill_causes spec units.now
        (cells spans.old links.old heads.old)) spec (grid_in spec)
        (cells spans.old links.old heads.old)
        (cells spans.new links.new heads.new) result }
{
    let g = grid_from_spec::grid(spec, units)?;
    fill_grid(spec, g, spans, links, heads)
}
