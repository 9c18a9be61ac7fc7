// The grid of a blank: its description tested, its cells and steps worked out.
#![tactic(auto)]

ghost use Rattle.std.specs.Prelude.{◌≡◌, not, ◌||◌, nat_eq, nat_lt};
ghost use Rattle.std.specs.Float.Ieee.{neg};
ghost use Rattle.doubles.specs.Constants.{million};
ghost use Rattle.grid.specs.Grid.{all_between};
ghost use Rattle.grid.specs.FromSpec.{least_size, any_below, any_above, is_mm, misdescribed, cell_count, dims_of};
ghost use Rattle.grid.specs.FromSpec.{grid_with, grid_over};
ghost use Rattle.grid.specs.Causes.{GridPost};

use grid::{DexelGrid, DexelStockSpec, Vec3};
use refusal::Refusal;

fn is_mm(units: &[u8]) -> bool
    ensures { result ≡ is_mm units.now }
{
    units == b"mm".as_slice()
}

#[tactic(auto, unfolding(grid::specs::FromSpec::any_below))]
fn any_below(p: Vec3, limit: f64) -> bool
    ensures { result ≡ any_below p limit }
{
    p.x < limit || p.y < limit || p.z < limit
}

#[tactic(auto, unfolding(grid::specs::FromSpec::any_above))]
fn any_above(p: Vec3, limit: f64) -> bool
    ensures { result ≡ any_above p limit }
{
    p.x > limit || p.y > limit || p.z > limit
}

// Whether a bound or a cell size is out of its limits.
fn any_bound_off(min: Vec3, max: Vec3, sizes: Vec3) -> bool
    ensures { result ≡ (not (all_between min (neg million) million)
        || (not (all_between max (neg million) million) || not (all_between sizes least_size million))) }
{
    !grid::all_between(min, -1e6, 1e6)
        || !grid::all_between(max, -1e6, 1e6)
        || !grid::all_between(sizes, 1e-5, 1e6)
}

// Whether a budget is out of its limits.
fn any_budget_off(max_rays: u64, max_intervals: u64) -> bool
    ensures { result ≡ (nat_eq max_rays 0 || (nat_lt 4294967295 max_rays || nat_eq max_intervals 0)) }
{
    max_rays == 0 || max_rays > 4294967295 || max_intervals == 0
}

// Refusal 1 but for the units, over a cell size per axis.
#[tactic(auto, unfolding(grid::specs::FromSpec::misdescribed))]
fn is_misdescribed(spec: DexelStockSpec, sizes: Vec3, extents: Vec3) -> bool
    ensures { result ≡ misdescribed spec sizes extents }
{
    spec.version != 1
        || any_bound_off(spec.min_mm, spec.max_mm, sizes)
        || any_budget_off(spec.max_rays, spec.max_intervals)
        || any_below(extents, 1e-6)
}

// How many cells an extent has, as a double.
fn cells(extent: f64, size: f64) -> f64
    ensures { result ≡ cell_count extent size }
{
    doubles_minmax::larger(doubles::ceil(extent / size), 1.0)
}

fn dims(extents: Vec3, sizes: Vec3) -> Vec3
    ensures { result ≡ dims_of extents sizes }
{
    Vec3 {
        x: cells(extents.x, sizes.x),
        y: cells(extents.y, sizes.y),
        z: cells(extents.z, sizes.z),
    }
}

// The grid with these cells.
fn grid_with(extents: Vec3, dims: Vec3) -> DexelGrid
    ensures { result ≡ grid_with extents dims }
{
    DexelGrid {
        c0: doubles::to_u64(dims.x),
        c1: doubles::to_u64(dims.y),
        c2: doubles::to_u64(dims.z),
        s0: extents.x / dims.x,
        s1: extents.y / dims.y,
        s2: extents.z / dims.z,
    }
}

// Refusals 2 and 3 and the grid, over the cells along each axis.
#[tactic(auto, unfolding(grid::specs::FromSpec::grid_over))]
fn grid_over(spec: DexelStockSpec, extents: Vec3, dims: Vec3) -> Result<DexelGrid, Refusal>
    ensures { result ≡ grid_over spec extents dims }
{
    let rays = dims.x * dims.y + dims.y * dims.z + dims.z * dims.x;
    let max_rays = std::num::nearest_u64_to_f64(spec.max_rays);
    if any_above(dims, max_rays) || rays > max_rays {
        return Err(Refusal::RayLimit);
    }
    if 2.0 * rays > std::num::nearest_u64_to_f64(spec.max_intervals) {
        return Err(Refusal::IntervalLimit);
    }
    Ok(grid_with(extents, dims))
}

// The grids that a description asks for, or why it is refused: 1, 2 or 3.
pub fn grid(spec: DexelStockSpec, units: &[u8]) -> Result<DexelGrid, Refusal>
    ensures { GridPost spec units.now result }
{
    if !is_mm(units) {
        return Err(Refusal::Description);
    }
    let min = spec.min_mm;
    let max = spec.max_mm;
    let size = spec.cell_size_mm;
    let sizes = Vec3 {
        x: size,
        y: size,
        z: size,
    };
    let extents = Vec3 {
        x: max.x - min.x,
        y: max.y - min.y,
        z: max.z - min.z,
    };
    if is_misdescribed(spec, sizes, extents) {
        return Err(Refusal::Description);
    }
    grid_over(spec, extents, dims(extents, sizes))
}
