// Inner functions under C names, for the oracle and the benchmark only: each is its crate's function of the same name, and asks what
// that asks. An answer that is an enum comes back as a number or as a struct of numbers.
#![tactic(auto)]

ghost use Rattle.std.specs.Prelude.{◌≡◌, ◌<◌, ◌^◌};
ghost use Rattle.std.specs.Float.{binary64};
ghost use Rattle.std.specs.Float.Ieee.{of_bits, to_bits, to_unsigned};
ghost use Rattle.logic.specs.Logic.{Decides};
ghost use Rattle.doubles.specs.Doubles.{larger_of, smaller_of, clamp_of, floor_of, ceil_of, abs_of};
ghost use Rattle.doubles.specs.TotalOrder.{key_of, total_of};
ghost use Rattle.doubles_sqrt.specs.Root.{square_root};
ghost use Rattle.inner.specs.Orderings.{ordering_code};
ghost use Rattle.strips.specs.Strip.{disk_strip, stadium_strip};
ghost use Rattle.strips.specs.Polygon.{polygon_strip};
ghost use Rattle.enum_codes.specs.Codes.{named_shape};
ghost use Rattle.cutter.specs.Cutter.{radius_at, cut_radius, cut_max, cut_min};
ghost use Rattle.cutter_check.specs.Steps.{ToolCheckPost};
ghost use Rattle.inner.specs.Geometry.{strip_as, slice_as, radius_as, CheckedAs};
ghost use Rattle.grid.specs.Axes.{world_axis, cells_along, cross_of};
ghost use Rattle.grid.specs.Rays.{ray_count, rays_along, ray_number, cell_at};
ghost use Rattle.grid.specs.Centers.{ray_center_of, cell_bound_of};
ghost use Rattle.stock.specs.Steps.{StockRoom};
ghost use Rattle.store.specs.Store.{cells};
ghost use Rattle.stock.specs.Stock.{SoundCells};
ghost use Rattle.ray_text.specs.Run.{ProgramRan};

use cutter::PreparedCutter;
use grid::{DexelGrid, DexelStockSpec, RayCenter, WorldAxis};
use inner::{RadiusNumbers, StripNumbers};
use strips::PlanePoint;

// Doubles.

#[unsafe(no_mangle)]
pub extern "C" fn tridexel_inner_larger(a: f64, b: f64) -> f64
    ensures { result ≡ larger_of a b }
{
    inner::tridexel_inner_larger(a, b)
}

#[unsafe(no_mangle)]
pub extern "C" fn tridexel_inner_smaller(a: f64, b: f64) -> f64
    ensures { result ≡ smaller_of a b }
{
    inner::tridexel_inner_smaller(a, b)
}

#[unsafe(no_mangle)]
pub extern "C" fn tridexel_inner_clamp(x: f64, lo: f64, hi: f64) -> f64
    ensures { result ≡ clamp_of x lo hi }
{
    inner::tridexel_inner_clamp(x, lo, hi)
}

#[unsafe(no_mangle)]
pub extern "C" fn tridexel_inner_floor(x: f64) -> f64
    ensures { result ≡ floor_of x }
{
    inner::tridexel_inner_floor(x)
}

#[unsafe(no_mangle)]
pub extern "C" fn tridexel_inner_ceil(x: f64) -> f64
    ensures { result ≡ ceil_of x }
{
    inner::tridexel_inner_ceil(x)
}

#[unsafe(no_mangle)]
pub extern "C" fn tridexel_inner_abs(x: f64) -> f64
    ensures { result ≡ abs_of x }
{
    inner::tridexel_inner_abs(x)
}

#[unsafe(no_mangle)]
pub extern "C" fn tridexel_inner_sqrt(x: f64) -> f64
    ensures { result ≡ square_root binary64 x }
{
    inner::tridexel_inner_sqrt(x)
}

#[unsafe(no_mangle)]
pub extern "C" fn tridexel_inner_of_bits(bits: u64) -> f64
    ensures { result ≡ of_bits binary64 bits }
{
    inner::tridexel_inner_of_bits(bits)
}

#[unsafe(no_mangle)]
pub extern "C" fn tridexel_inner_bits_of(x: f64) -> u64
    ensures { result ≡ to_bits binary64 x }
{
    inner::tridexel_inner_bits_of(x)
}

#[unsafe(no_mangle)]
pub extern "C" fn tridexel_inner_to_u64(x: f64) -> u64
    ensures { result ≡ to_unsigned 64 x }
{
    inner::tridexel_inner_to_u64(x)
}

#[unsafe(no_mangle)]
pub extern "C" fn tridexel_inner_order_key(x: f64) -> u64
    ensures { result ≡ key_of x }
{
    inner::tridexel_inner_order_key(x)
}

#[unsafe(no_mangle)]
pub extern "C" fn tridexel_inner_total_cmp(a: f64, b: f64) -> u32
    ensures { result ≡ ordering_code (total_of a b) }
{
    inner::tridexel_inner_total_cmp(a, b)
}

// The strips. An answer is 1 and the two ends, or 0.

#[unsafe(no_mangle)]
pub extern "C" fn tridexel_inner_disk_strip(
    c: PlanePoint,
    rho: f64,
    y0: f64,
    y1: f64,
) -> StripNumbers
    ensures { result ≡ strip_as (disk_strip c rho y0 y1) }
{
    inner::tridexel_inner_disk_strip(c, rho, y0, y1)
}

#[unsafe(no_mangle)]
pub extern "C" fn tridexel_inner_polygon_strip(
    p: PlanePoint,
    q: PlanePoint,
    r: PlanePoint,
    s: PlanePoint,
    y0: f64,
    y1: f64,
) -> StripNumbers
    ensures { result ≡ strip_as (polygon_strip p q r s y0 y1) }
{
    inner::tridexel_inner_polygon_strip(p, q, r, s, y0, y1)
}

#[unsafe(no_mangle)]
pub extern "C" fn tridexel_inner_stadium_strip(
    a: PlanePoint,
    b: PlanePoint,
    length: f64,
    rho: f64,
    y0: f64,
    y1: f64,
) -> StripNumbers
    ensures { result ≡ strip_as (stadium_strip a b length rho y0 y1) }
{
    inner::tridexel_inner_stadium_strip(a, b, length, rho, y0, y1)
}

// The cutter. A shape goes in as its number and its own numbers.

// 0 no section, 1 a cutting one, 2 one that does not cut.
#[unsafe(no_mangle)]
pub extern "C" fn tridexel_inner_radius_at(
    kind: u64,
    m: f64,
    n: f64,
    c: PreparedCutter,
    z: f64,
) -> RadiusNumbers
    ensures { result ≡ slice_as (radius_at (named_shape kind m n) c z) }
{
    inner::tridexel_inner_radius_at(kind, m, n, c, z)
}

#[unsafe(no_mangle)]
pub extern "C" fn tridexel_inner_widest_height(c: PreparedCutter) -> f64
    ensures { result ≡ c.tip_height }
{
    inner::tridexel_inner_widest_height(c)
}

#[unsafe(no_mangle)]
pub extern "C" fn tridexel_inner_cut_radius(
    kind: u64,
    m: f64,
    n: f64,
    c: PreparedCutter,
    h: f64,
) -> f64
    ensures { result ≡ cut_radius (named_shape kind m n) c h }
{
    inner::tridexel_inner_cut_radius(kind, m, n, c, h)
}

// 0 none, 1 a radius.
#[unsafe(no_mangle)]
pub extern "C" fn tridexel_inner_cut_max(
    kind: u64,
    m: f64,
    n: f64,
    c: PreparedCutter,
    h0: f64,
    h1: f64,
) -> RadiusNumbers
    ensures { result ≡ radius_as (cut_max (named_shape kind m n) c h0 h1) }
{
    inner::tridexel_inner_cut_max(kind, m, n, c, h0, h1)
}

// 0 none, 1 a radius.
#[unsafe(no_mangle)]
pub extern "C" fn tridexel_inner_cut_min(
    kind: u64,
    m: f64,
    n: f64,
    c: PreparedCutter,
    h0: f64,
    h1: f64,
) -> RadiusNumbers
    ensures { result ≡ radius_as (cut_min (named_shape kind m n) c h0 h1) }
{
    inner::tridexel_inner_cut_min(kind, m, n, c, h0, h1)
}

// Document 01's refusal number, or 0.
#[unsafe(no_mangle)]
pub extern "C" fn tridexel_inner_check_tool(kind: u64, m: f64, n: f64, c: PreparedCutter) -> u32
    ensures { CheckedAs (ToolCheckPost (named_shape kind m n) c) result }
{
    inner::tridexel_inner_check_tool(kind, m, n, c)
}

// The blank's rays and cells.

#[unsafe(no_mangle)]
pub extern "C" fn tridexel_inner_rays(g: DexelGrid, axis: u8) -> u64
    requires { ray_count g < 2 ^ 64 }
    ensures { result ≡ rays_along g (world_axis axis) }
{
    inner::tridexel_inner_rays(g, axis)
}

#[unsafe(no_mangle)]
pub extern "C" fn tridexel_inner_total_rays(g: DexelGrid) -> u64
    requires { ray_count g < 2 ^ 64 }
    ensures { result ≡ ray_count g }
{
    inner::tridexel_inner_total_rays(g)
}

#[unsafe(no_mangle)]
pub extern "C" fn tridexel_inner_ray_number(g: DexelGrid, axis: u8, index: u64) -> u64
    requires { (ray_count g < 2 ^ 64) × (index < rays_along g (world_axis axis)) }
    ensures { result ≡ ray_number g (world_axis axis) index }
{
    inner::tridexel_inner_ray_number(g, axis, index)
}

#[unsafe(no_mangle)]
pub extern "C" fn tridexel_inner_ray_center(
    spec: DexelStockSpec,
    g: DexelGrid,
    axis: u8,
    index: u64,
) -> RayCenter
    requires { 0 < cells_along g (cross_of (world_axis axis)).u }
    ensures { result ≡ ray_center_of spec g (world_axis axis) index }
{
    inner::tridexel_inner_ray_center(spec, g, axis, index)
}

#[unsafe(no_mangle)]
pub extern "C" fn tridexel_inner_cell_bound(
    spec: DexelStockSpec,
    g: DexelGrid,
    axis: u8,
    i: u64,
) -> f64
    ensures { result ≡ cell_bound_of spec g (world_axis axis) i }
{
    inner::tridexel_inner_cell_bound(spec, g, axis, i)
}

#[unsafe(no_mangle)]
pub extern "C" fn tridexel_inner_cell_at(
    spec: DexelStockSpec,
    g: DexelGrid,
    axis: u8,
    x: f64,
) -> u64
    requires { 0 < cells_along g (world_axis axis) }
    ensures { result ≡ cell_at spec g (world_axis axis) x }
{
    inner::tridexel_inner_cell_at(spec, g, axis, x)
}

// The stock.

#[unsafe(no_mangle)]
pub extern "C" fn tridexel_inner_check_stock(
    spec: DexelStockSpec,
    g: DexelGrid,
    spans: &[f64],
    links: &[u64],
    heads: &[u64],
    intervals: u64,
) -> bool
    requires { StockRoom spec g (cells spans.now links.now heads.now) }
    ensures { Decides (SoundCells spec g (cells spans.now links.now heads.now) intervals) result }
{
    inner::tridexel_inner_check_stock(spec, g, spans, links, heads, intervals)
}

// The text of a ray: `ray_text::run`.

#[unsafe(no_mangle)]
pub extern "C" fn tridexel_inner_merge_ray(s: &[u8], out: &mut [u8; 65536]) -> usize
    ensures { ProgramRan s.now out.old out.new result }
{
    inner::tridexel_inner_merge_ray(s, out)
}
