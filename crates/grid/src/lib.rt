// The description of a blank, its grid, and what each has along a world axis.
#![tactic(auto)]

ghost use Rattle.std.specs.Prelude.{◌≡◌};
ghost use Rattle.grid.specs.Axes.{along_of, cells_along, step_along, cross_of};
ghost use Rattle.grid.specs.Grid.{is_between, all_between};

#[repr(C)]
#[derive(Clone, Copy, Debug, PartialEq)]
pub struct Vec3 {
    pub x: f64,
    pub y: f64,
    pub z: f64,
}

// Document 01's world axis, a digit 0 to 2. 2 and every larger digit is z, so that every function over it is total.
#[derive(Clone, Copy, Debug, PartialEq, Eq)]
pub struct WorldAxis(pub u8);

// The two axes across a ray.
#[derive(Clone, Copy, Debug, PartialEq, Eq)]
pub struct CrossAxes {
    pub u: WorldAxis,
    pub v: WorldAxis,
}

// A blank's description, version 1. Its units are lent beside it.
#[repr(C)]
#[derive(Clone, Copy, Debug, PartialEq)]
pub struct DexelStockSpec {
    pub version: u32,
    pub min_mm: Vec3,
    pub max_mm: Vec3,
    pub cell_size_mm: f64,
    pub max_rays: u64,
    pub max_intervals: u64,
}

// The cells along each axis, and their widths.
#[repr(C)]
#[derive(Clone, Copy, Debug, PartialEq)]
pub struct DexelGrid {
    pub c0: u64,
    pub c1: u64,
    pub c2: u64,
    pub s0: f64,
    pub s1: f64,
    pub s2: f64,
}

// A ray's coordinates on the two axes across it.
#[repr(C)]
#[derive(Clone, Copy, Debug, PartialEq)]
pub struct RayCenter {
    pub u: f64,
    pub v: f64,
}

// The two ends of the box along a ray.
#[derive(Clone, Copy, Debug, PartialEq)]
pub struct RayBounds {
    pub lo: f64,
    pub hi: f64,
}

#[tactic(auto, unfolding(crate::specs::Grid::is_between))]
pub fn is_between(x: f64, lo: f64, hi: f64) -> bool
    ensures { result ≡ is_between x lo hi }
{
    lo <= x && x <= hi
}

#[tactic(auto, unfolding(crate::specs::Grid::all_between))]
pub fn all_between(p: Vec3, lo: f64, hi: f64) -> bool
    ensures { result ≡ all_between p lo hi }
{
    is_between(p.x, lo, hi) && is_between(p.y, lo, hi) && is_between(p.z, lo, hi)
}

#[tactic(auto, unfolding(crate::specs::Axes::by_digit))]
pub fn along(p: Vec3, axis: WorldAxis) -> f64
    ensures { result ≡ along_of p axis }
{
    match axis.0 {
        0 => p.x,
        1 => p.y,
        _ => p.z,
    }
}

#[tactic(auto, unfolding(crate::specs::Axes::by_digit))]
pub fn cells_along(g: DexelGrid, axis: WorldAxis) -> u64
    ensures { result ≡ cells_along g axis }
{
    match axis.0 {
        0 => g.c0,
        1 => g.c1,
        _ => g.c2,
    }
}

#[tactic(auto, unfolding(crate::specs::Axes::by_digit))]
pub fn step_along(g: DexelGrid, axis: WorldAxis) -> f64
    ensures { result ≡ step_along g axis }
{
    match axis.0 {
        0 => g.s0,
        1 => g.s1,
        _ => g.s2,
    }
}

// The axes (axis + 1) % 3 and (axis + 2) % 3.
#[tactic(auto, unfolding(crate::specs::Axes::by_digit))]
pub fn cross(axis: WorldAxis) -> CrossAxes
    ensures { result ≡ cross_of axis }
{
    let (u, v) = match axis.0 {
        0 => (1, 2),
        1 => (2, 0),
        _ => (0, 1),
    };
    CrossAxes {
        u: WorldAxis(u),
        v: WorldAxis(v),
    }
}
