// The three grids of rays through a blank: how many rays there are, how they are numbered, and between which faces each runs.
#![tactic(auto)]

ghost use Rattle.std.specs.Prelude.{◌≡◌, ◌<◌, ◌^◌};
ghost use Rattle.grid.specs.Rays.{rays_along, ray_count, offset, ray_number, ray_axis, bounds_of};

use grid::{DexelGrid, DexelStockSpec, RayBounds, WorldAxis, along, cells_along, cross};

// How many rays run along an axis.
#[tactic(auto, unfolding(grid::specs::Rays::rays_along))]
pub fn rays(g: DexelGrid, axis: WorldAxis) -> u64
    requires { ray_count g < 2 ^ 64 }
    ensures { result ≡ rays_along g axis }
{
    let w = cross(axis);
    cells_along(g, w.u) * cells_along(g, w.v)
}

pub fn total_rays(g: DexelGrid) -> u64
    requires { ray_count g < 2 ^ 64 }
    ensures { result ≡ ray_count g }
{
    rays(g, WorldAxis(0)) + rays(g, WorldAxis(1)) + rays(g, WorldAxis(2))
}

// How many rays stand before the first along an axis: rays count through axis 0, then 1, 2.
#[tactic(auto, unfolding(grid::specs::Rays::offset, grid::specs::Axes::by_digit))]
pub fn ray_offset(g: DexelGrid, axis: WorldAxis) -> u64
    requires { ray_count g < 2 ^ 64 }
    ensures { result ≡ offset g axis }
{
    match axis.0 {
        0 => 0,
        1 => rays(g, WorldAxis(0)),
        _ => rays(g, WorldAxis(0)) + rays(g, WorldAxis(1)),
    }
}

// A ray's number, from its axis and its index along that.
#[tactic(auto, unfolding(grid::specs::Rays::ray_number))]
pub fn ray_number(g: DexelGrid, axis: WorldAxis, index: u64) -> u64
    requires { (ray_count g < 2 ^ 64) × (index < rays_along g axis) }
    ensures { result ≡ ray_number g axis index }
{
    ray_offset(g, axis) + index
}

// The axis of a ray, from its number.
#[tactic(auto, unfolding(grid::specs::Rays::ray_axis))]
fn ray_axis(g: DexelGrid, ray: u64) -> WorldAxis
    requires { ray_count g < 2 ^ 64 }
    ensures { result ≡ ray_axis g ray }
{
    if ray < ray_offset(g, WorldAxis(1)) {
        WorldAxis(0)
    } else if ray < ray_offset(g, WorldAxis(2)) {
        WorldAxis(1)
    } else {
        WorldAxis(2)
    }
}

// The ends of the box along a ray.
#[tactic(auto, unfolding(grid::specs::Rays::bounds_of))]
pub fn ray_bounds(spec: DexelStockSpec, g: DexelGrid, ray: u64) -> RayBounds
    requires { ray_count g < 2 ^ 64 }
    ensures { result ≡ bounds_of spec g ray }
{
    let a = ray_axis(g, ray);
    RayBounds {
        lo: along(spec.min_mm, a),
        hi: along(spec.max_mm, a),
    }
}
