// The stock: the lent store with its small record, and its check.
#![tactic(auto)]

ghost use Rattle.std.specs.Prelude.{◌≡◌, ◌*◌, ◌<◌};
ghost use Rattle.grid.specs.Rays.{ray_count};
ghost use Rattle.stock.specs.Stock.{ValidAt, ValidTo, SoundCells, is_short};
ghost use Rattle.logic.specs.Logic.{Decides};
ghost use Rattle.grid.specs.Facts.{GridFacts};
ghost use Rattle.stock.specs.Steps.{ChainsInRoom, StockRoom};
ghost use Rattle.store.specs.Store.{cells, ChainsSound};

use grid::{DexelGrid, DexelStockSpec};
use refusal::Refusal;

// Document 01's small record of a stock.
#[derive(Clone, Copy, Debug, PartialEq, Eq)]
pub struct Tally {
    pub generation: u64,
    pub intervals: u64,
}

// A commit's answer, how many rays changed or why the call is refused, and what the small record is to hold after it: its old values where
// the commit is refused.
#[derive(Clone, Copy, Debug, PartialEq, Eq)]
pub struct Outcome {
    pub answer: Result<u64, Refusal>,
    pub generation: u64,
    pub intervals: u64,
}

// Whether a ray of a sound store is valid.
fn check_ray(
    spec: DexelStockSpec,
    g: DexelGrid,
    spans: &[f64],
    links: &[u64],
    heads: &[u64],
    ray: u64,
) -> bool
    requires { ChainsInRoom spec g (cells spans.now links.now heads.now) × (ray < ray_count g) }
    ensures { Decides (ValidAt spec g (cells spans.now links.now heads.now) ray) result }
{
    let n = spec.max_intervals as usize;
    let head = store::ray_heads(heads, ray as usize);
    let bounds = grid_rays::ray_bounds(spec, g, ray);
    store_read::valid_ray_at(
        spans,
        links,
        n,
        head.possible,
        head.certain,
        bounds.lo,
        bounds.hi,
    )
}

// Whether each ray of a sound store is valid.
fn check_rays(
    spec: DexelStockSpec,
    g: DexelGrid,
    spans: &[f64],
    links: &[u64],
    heads: &[u64],
) -> bool
    requires { ChainsInRoom spec g (cells spans.now links.now heads.now) }
    ensures { Decides (ValidTo spec g (cells spans.now links.now heads.now) (ray_count g)) result }
{
    let rays = grid_rays::total_rays(g);
    for ray in 0..rays {
        if !check_ray(spec, g, spans, links, heads, ray) {
            return false;
        }
    }
    true
}

// Whether the store with this interval total is sound, but for the validity of its rays.
pub fn is_chained(
    spec: DexelStockSpec,
    g: DexelGrid,
    spans: &[f64],
    links: &[u64],
    heads: &[u64],
    intervals: u64,
) -> bool
    requires { StockRoom spec g (cells spans.now links.now heads.now) }
    ensures { Decides (ChainsSound spec.max_intervals (2 * ray_count g) intervals
        (cells spans.now links.now heads.now)) result }
{
    let n = spec.max_intervals as usize;
    let m = 2 * (grid_rays::total_rays(g) as usize);
    store::check_store(spans, links, heads, n, m, intervals)
}

// Whether the store with this interval total is sound, for any cells. Linear, and with no memory of its own.
pub fn check_stock(
    spec: DexelStockSpec,
    g: DexelGrid,
    spans: &[f64],
    links: &[u64],
    heads: &[u64],
    intervals: u64,
) -> bool
    requires { StockRoom spec g (cells spans.now links.now heads.now) }
    ensures { Decides (SoundCells spec g (cells spans.now links.now heads.now) intervals) result }
{
    is_chained(spec, g, spans, links, heads, intervals) && check_rays(spec, g, spans, links, heads)
}

// Refusal 12: too few whole records or heads.
#[tactic(auto, unfolding(crate::specs::Stock::is_short))]
pub fn is_short(
    spec: DexelStockSpec,
    g: DexelGrid,
    spans: &[f64],
    links: &[u64],
    heads: &[u64],
) -> bool
    requires { GridFacts spec g }
    ensures { result ≡ is_short spec g (cells spans.now links.now heads.now) }
{
    let n = spec.max_intervals as usize;
    spans.len() / 2 < n
        || links.len() / 2 < n
        || (heads.len() as u64) < 2 * grid_rays::total_rays(g)
}
