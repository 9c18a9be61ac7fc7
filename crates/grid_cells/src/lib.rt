// Where the cells of a grid lie, and the centres of its rays.
#![tactic(auto)]

ghost use Rattle.std.specs.Prelude.{◌≡◌, ◌<◌};
ghost use Rattle.grid.specs.Axes.{cells_along, cross_of};
ghost use Rattle.grid.specs.Rays.{cell_at};
ghost use Rattle.grid.specs.Centers.{ray_center_of, cell_bound_of};

use grid::{
    DexelGrid, DexelStockSpec, RayCenter, WorldAxis, along, cells_along, cross, step_along,
};

// The centre of a ray's cross-section. A ray's index is iv * cells[u] + iu.
#[tactic(auto, unfolding(grid::specs::Centers::ray_center_of, grid::specs::Centers::cell_center))]
pub fn ray_center(spec: DexelStockSpec, g: DexelGrid, axis: WorldAxis, index: u64) -> RayCenter
    requires { 0 < cells_along g (cross_of axis).u }
    ensures { result ≡ ray_center_of spec g axis index }
{
    let w = cross(axis);
    let n = cells_along(g, w.u);
    let iu = std::num::nearest_u64_to_f64(index % n);
    let iv = std::num::nearest_u64_to_f64(index / n);
    RayCenter {
        u: along(spec.min_mm, w.u) + (iu + 0.5) * step_along(g, w.u),
        v: along(spec.min_mm, w.v) + (iv + 0.5) * step_along(g, w.v),
    }
}

// The boundary between the cells i - 1 and i along an axis: the box's own faces at both ends.
#[tactic(auto, unfolding(grid::specs::Centers::cell_bound_of))]
pub fn cell_bound(spec: DexelStockSpec, g: DexelGrid, w: WorldAxis, i: u64) -> f64
    ensures { result ≡ cell_bound_of spec g w i }
{
    if i == 0 {
        along(spec.min_mm, w)
    } else if i >= cells_along(g, w) {
        along(spec.max_mm, w)
    } else {
        along(spec.min_mm, w) + std::num::nearest_u64_to_f64(i) * step_along(g, w)
    }
}

// The cell along an axis that x lies in, or the nearest.
#[tactic(auto, unfolding(grid::specs::Rays::cell_at))]
pub fn cell_at(spec: DexelStockSpec, g: DexelGrid, w: WorldAxis, x: f64) -> u64
    requires { 0 < cells_along g w }
    ensures { result ≡ cell_at spec g w x }
{
    let i = doubles::floor((x - along(spec.min_mm, w)) / step_along(g, w));
    let n = cells_along(g, w);
    let last = std::num::nearest_u64_to_f64(n - 1);
    doubles::to_u64(doubles_minmax::clamp(i, 0.0, last))
}
