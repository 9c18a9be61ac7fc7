// Inner functions under C names, for the oracle and the benchmark only: each is its crate's function of the same name, and asks what
// that asks. An answer that is an enum comes back as a number or as a struct of numbers.
#![tactic(auto)]

ghost use Rattle.std.specs.Prelude.{◌≡◌, ◌<◌, ◌^◌};
ghost use Rattle.std.specs.Float.{binary64};
ghost use Rattle.std.specs.Float.Ieee.{of_bits, to_bits, to_unsigned};
ghost use Rattle.logic.specs.Logic.{Decides};
ghost use Rattle.doubles.specs.Doubles.{larger_of, smaller_of, clamp_of, floor_of, ceil_of, abs_of};
ghost use Rattle.doubles.specs.TotalOrder.{key_of, total_of};
ghost use Rattle.doubles_sqrt.specs.Root.{square_root};
ghost use Rattle.inner.specs.Orderings.{ordering_code};
ghost use Rattle.strips.specs.Strip.{disk_strip, stadium_strip};
ghost use Rattle.strips.specs.Polygon.{polygon_strip};
ghost use Rattle.enum_codes.specs.Codes.{named_shape};
ghost use Rattle.cutter.specs.Cutter.{radius_at, cut_radius, cut_max, cut_min};
ghost use Rattle.cutter_check.specs.Steps.{ToolCheckPost};
ghost use Rattle.inner.specs.Geometry.{strip_as, slice_as, radius_as, CheckedAs};
ghost use Rattle.grid.specs.Axes.{world_axis, cells_along, cross_of};
ghost use Rattle.grid.specs.Rays.{ray_count, rays_along, ray_number, cell_at};
ghost use Rattle.grid.specs.Centers.{ray_center_of, cell_bound_of};
ghost use Rattle.stock.specs.Steps.{StockRoom};
ghost use Rattle.store.specs.Store.{cells};
ghost use Rattle.stock.specs.Stock.{SoundCells};
ghost use Rattle.ray_text.specs.Run.{ProgramRan};

use cutter::{PreparedCutter, ProfileSlice};
use grid::{DexelGrid, DexelStockSpec, RayCenter, WorldAxis};
use strips::{PlanePoint, Strip};

// Doubles.

pub fn tridexel_inner_larger(a: f64, b: f64) -> f64
    ensures { result ≡ larger_of a b }
{
    doubles_minmax::larger(a, b)
}

pub fn tridexel_inner_smaller(a: f64, b: f64) -> f64
    ensures { result ≡ smaller_of a b }
{
    doubles_minmax::smaller(a, b)
}

pub fn tridexel_inner_clamp(x: f64, lo: f64, hi: f64) -> f64
    ensures { result ≡ clamp_of x lo hi }
{
    doubles_minmax::clamp(x, lo, hi)
}

pub fn tridexel_inner_floor(x: f64) -> f64
    ensures { result ≡ floor_of x }
{
    doubles::floor(x)
}

pub fn tridexel_inner_ceil(x: f64) -> f64
    ensures { result ≡ ceil_of x }
{
    doubles::ceil(x)
}

pub fn tridexel_inner_abs(x: f64) -> f64
    ensures { result ≡ abs_of x }
{
    doubles::abs(x)
}

pub fn tridexel_inner_sqrt(x: f64) -> f64
    ensures { result ≡ square_root binary64 x }
{
    doubles_sqrt::sqrt(x)
}

pub fn tridexel_inner_of_bits(bits: u64) -> f64
    ensures { result ≡ of_bits binary64 bits }
{
    doubles_bits::of_bits(bits)
}

pub fn tridexel_inner_bits_of(x: f64) -> u64
    ensures { result ≡ to_bits binary64 x }
{
    doubles_bits::bits_of(x)
}

pub fn tridexel_inner_to_u64(x: f64) -> u64
    ensures { result ≡ to_unsigned 64 x }
{
    doubles::to_u64(x)
}

pub fn tridexel_inner_order_key(x: f64) -> u64
    ensures { result ≡ key_of x }
{
    doubles_bits::order_key(x)
}

pub fn tridexel_inner_total_cmp(a: f64, b: f64) -> u32
    ensures { result ≡ ordering_code (total_of a b) }
{
    let o = doubles_bits::total_cmp(a, b);
    match o {
        std::cmp::Ordering::Less => 0,
        std::cmp::Ordering::Equal => 1,
        std::cmp::Ordering::Greater => 2,
    }
}

// The strips. An answer is 1 and the two ends, or 0.

#[repr(C)]
#[derive(Clone, Copy, Debug, PartialEq)]
pub struct StripNumbers {
    pub hit: u64,
    pub lo: f64,
    pub hi: f64,
}

#[tactic(auto, unfolding(crate::specs::Geometry::strip_as))]
fn strip_numbers(s: Strip) -> StripNumbers
    ensures { result ≡ strip_as s }
{
    match s {
        Strip::Hit(lo, hi) => StripNumbers { hit: 1, lo, hi },
        Strip::Miss => StripNumbers {
            hit: 0,
            lo: 0.0,
            hi: 0.0,
        },
    }
}

pub fn tridexel_inner_disk_strip(c: PlanePoint, rho: f64, y0: f64, y1: f64) -> StripNumbers
    ensures { result ≡ strip_as (disk_strip c rho y0 y1) }
{
    strip_numbers(strips::disk_strip(c, rho, y0, y1))
}

pub fn tridexel_inner_polygon_strip(
    p: PlanePoint,
    q: PlanePoint,
    r: PlanePoint,
    s: PlanePoint,
    y0: f64,
    y1: f64,
) -> StripNumbers
    ensures { result ≡ strip_as (polygon_strip p q r s y0 y1) }
{
    strip_numbers(strips::polygon_strip(p, q, r, s, y0, y1))
}

pub fn tridexel_inner_stadium_strip(
    a: PlanePoint,
    b: PlanePoint,
    length: f64,
    rho: f64,
    y0: f64,
    y1: f64,
) -> StripNumbers
    ensures { result ≡ strip_as (stadium_strip a b length rho y0 y1) }
{
    strip_numbers(strips::stadium_strip(a, b, length, rho, y0, y1))
}

// The cutter. A shape goes in as its number and its own numbers.

#[repr(C)]
#[derive(Clone, Copy, Debug, PartialEq)]
pub struct RadiusNumbers {
    pub kind: u64,
    pub radius: f64,
}

#[tactic(auto, unfolding(crate::specs::Geometry::slice_as))]
fn slice_numbers(s: ProfileSlice) -> RadiusNumbers
    ensures { result ≡ slice_as s }
{
    match s {
        ProfileSlice::Cutting(x) => RadiusNumbers { kind: 1, radius: x },
        ProfileSlice::NonCutting(x) => RadiusNumbers { kind: 2, radius: x },
        ProfileSlice::Outside => RadiusNumbers {
            kind: 0,
            radius: 0.0,
        },
    }
}

#[tactic(auto, unfolding(crate::specs::Geometry::radius_as))]
fn radius_numbers(r: Option<f64>) -> RadiusNumbers
    ensures { result ≡ radius_as r }
{
    match r {
        Some(x) => RadiusNumbers { kind: 1, radius: x },
        None => RadiusNumbers {
            kind: 0,
            radius: 0.0,
        },
    }
}

// 0 no section, 1 a cutting one, 2 one that does not cut.
pub fn tridexel_inner_radius_at(
    kind: u64,
    m: f64,
    n: f64,
    c: PreparedCutter,
    z: f64,
) -> RadiusNumbers
    ensures { result ≡ slice_as (radius_at (named_shape kind m n) c z) }
{
    slice_numbers(cutter::radius_at(enum_codes::named_shape(kind, m, n), c, z))
}

pub fn tridexel_inner_widest_height(c: PreparedCutter) -> f64
    ensures { result ≡ c.tip_height }
{
    cutter::widest_height(c)
}

pub fn tridexel_inner_cut_radius(kind: u64, m: f64, n: f64, c: PreparedCutter, h: f64) -> f64
    ensures { result ≡ cut_radius (named_shape kind m n) c h }
{
    cutter::cut_radius(enum_codes::named_shape(kind, m, n), c, h)
}

// 0 none, 1 a radius.
pub fn tridexel_inner_cut_max(
    kind: u64,
    m: f64,
    n: f64,
    c: PreparedCutter,
    h0: f64,
    h1: f64,
) -> RadiusNumbers
    ensures { result ≡ radius_as (cut_max (named_shape kind m n) c h0 h1) }
{
    radius_numbers(cutter::cut_max(enum_codes::named_shape(kind, m, n), c, h0, h1))
}

// 0 none, 1 a radius.
pub fn tridexel_inner_cut_min(
    kind: u64,
    m: f64,
    n: f64,
    c: PreparedCutter,
    h0: f64,
    h1: f64,
) -> RadiusNumbers
    ensures { result ≡ radius_as (cut_min (named_shape kind m n) c h0 h1) }
{
    radius_numbers(cutter::cut_min(enum_codes::named_shape(kind, m, n), c, h0, h1))
}

// Document 01's refusal number, or 0.
pub fn tridexel_inner_check_tool(kind: u64, m: f64, n: f64, c: PreparedCutter) -> u32
    ensures { CheckedAs (ToolCheckPost (named_shape kind m n) c) result }
{
    match cutter_check::check_tool(enum_codes::named_shape(kind, m, n), c) {
        Ok(()) => 0,
        Err(e) => u32::from(e),
    }
}

// The blank's rays and cells.

pub fn tridexel_inner_rays(g: DexelGrid, axis: u8) -> u64
    requires { ray_count g < 2 ^ 64 }
    ensures { result ≡ rays_along g (world_axis axis) }
{
    grid_rays::rays(g, WorldAxis(axis))
}

pub fn tridexel_inner_total_rays(g: DexelGrid) -> u64
    requires { ray_count g < 2 ^ 64 }
    ensures { result ≡ ray_count g }
{
    grid_rays::total_rays(g)
}

pub fn tridexel_inner_ray_number(g: DexelGrid, axis: u8, index: u64) -> u64
    requires { (ray_count g < 2 ^ 64) × (index < rays_along g (world_axis axis)) }
    ensures { result ≡ ray_number g (world_axis axis) index }
{
    grid_rays::ray_number(g, WorldAxis(axis), index)
}

pub fn tridexel_inner_ray_center(
    spec: DexelStockSpec,
    g: DexelGrid,
    axis: u8,
    index: u64,
) -> RayCenter
    requires { 0 < cells_along g (cross_of (world_axis axis)).u }
    ensures { result ≡ ray_center_of spec g (world_axis axis) index }
{
    grid_cells::ray_center(spec, g, WorldAxis(axis), index)
}

pub fn tridexel_inner_cell_bound(spec: DexelStockSpec, g: DexelGrid, axis: u8, i: u64) -> f64
    ensures { result ≡ cell_bound_of spec g (world_axis axis) i }
{
    grid_cells::cell_bound(spec, g, WorldAxis(axis), i)
}

pub fn tridexel_inner_cell_at(spec: DexelStockSpec, g: DexelGrid, axis: u8, x: f64) -> u64
    requires { 0 < cells_along g (world_axis axis) }
    ensures { result ≡ cell_at spec g (world_axis axis) x }
{
    grid_cells::cell_at(spec, g, WorldAxis(axis), x)
}

// The stock.

pub fn tridexel_inner_check_stock(
    spec: DexelStockSpec,
    g: DexelGrid,
    spans: &[f64],
    links: &[u64],
    heads: &[u64],
    intervals: u64,
) -> bool
    requires { StockRoom spec g (cells spans.now links.now heads.now) }
    ensures { Decides (SoundCells spec g (cells spans.now links.now heads.now) intervals) result }
{
    stock::check_stock(spec, g, spans, links, heads, intervals)
}

// The text of a ray: `ray_text::run`.

pub fn tridexel_inner_merge_ray(s: &[u8], out: &mut [u8; 65536]) -> usize
    ensures { ProgramRan s.now out.old out.new result }
{
    ray_text::run(s, out)
}
