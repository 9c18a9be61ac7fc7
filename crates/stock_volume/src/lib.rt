// The volume of a stock.
#![tactic(auto)]

ghost use Rattle.std.specs.Prelude.{◌≡◌, ◌<◌};
ghost use Rattle.grid.specs.Rays.{ray_count, offset};
ghost use Rattle.grid.specs.Causes.{grid_in};
ghost use Rattle.stock.specs.Stock.{ValidTo};
ghost use Rattle.stock_volume.specs.Volume.{box_volume, bounds_by, VolumePost, store_causes, volume_causes};
ghost use Rattle.grid.specs.Facts.{GridFacts};
ghost use Rattle.stock.specs.Steps.{ChainsInRoom};
ghost use Rattle.stock_volume.specs.Steps.{AddVolumePost, AxisVolumePost, VolumeRaysPost};
ghost use Rattle.store.specs.Store.{cells};

use grid::{DexelGrid, DexelStockSpec, WorldAxis};
use refusal::Refusal;

// What one grid says of the remaining material.
#[derive(Clone, Copy, Debug, PartialEq)]
pub struct AxisVolume {
    pub certain: f64,
    pub possible: f64,
}

// The Rust's `DexelVolume`: for each grid the certain and the possible remaining material, and what the three say together.
#[derive(Clone, Copy, Debug, PartialEq)]
pub struct DexelVolume {
    pub x_certain_mm3: f64,
    pub x_possible_mm3: f64,
    pub y_certain_mm3: f64,
    pub y_possible_mm3: f64,
    pub z_certain_mm3: f64,
    pub z_possible_mm3: f64,
    pub remaining_lower_mm3: f64,
    pub remaining_upper_mm3: f64,
    pub removed_lower_mm3: f64,
    pub removed_upper_mm3: f64,
}

// The sums with a ray's lengths, times its cell's area, added, where the ray is valid.
fn add_ray(
    spec: DexelStockSpec,
    g: DexelGrid,
    spans: &[f64],
    links: &[u64],
    heads: &[u64],
    area: f64,
    ray: u64,
    v: AxisVolume,
) -> Option<AxisVolume>
    requires { ChainsInRoom spec g (cells spans.now links.now heads.now) × (ray < ray_count g) }
    ensures { AddVolumePost spec g (cells spans.now links.now heads.now) area ray v result }
{
    let n = spec.max_intervals as usize;
    let head = store::ray_heads(heads, ray as usize);
    let bounds = grid_rays::ray_bounds(spec, g, ray);
    let Some(r) = store_read::measure_ray(
        spans,
        links,
        n,
        head.possible,
        head.certain,
        bounds.lo,
        bounds.hi,
    ) else {
        return None;
    };
    Some(AxisVolume {
        certain: v.certain + r.certain * area,
        possible: v.possible + r.possible * area,
    })
}

// The sums over the rays along an axis, in order, where all of them are valid. The rays before them are valid.
fn axis_volume(
    spec: DexelStockSpec,
    g: DexelGrid,
    spans: &[f64],
    links: &[u64],
    heads: &[u64],
    axis: WorldAxis,
) -> Option<AxisVolume>
    requires { ChainsInRoom spec g (cells spans.now links.now heads.now)
        × ValidTo spec g (cells spans.now links.now heads.now) (offset g axis) }
    ensures { AxisVolumePost spec g (cells spans.now links.now heads.now) axis result }
{
    let across = grid::cross(axis);
    let area = grid::step_along(g, across.u) * grid::step_along(g, across.v);
    let first = grid_rays::ray_offset(g, axis);
    let count = grid_rays::rays(g, axis);
    let mut v = AxisVolume {
        certain: 0.0,
        possible: 0.0,
    };
    for k in 0..count {
        v = add_ray(spec, g, spans, links, heads, area, first + k, v)?;
    }
    Some(v)
}

// The volume of the box.
fn box_volume(spec: DexelStockSpec) -> f64
    ensures { result ≡ box_volume spec }
{
    let min = spec.min_mm;
    let max = spec.max_mm;
    1.0 * (max.x - min.x) * (max.y - min.y) * (max.z - min.z)
}

// What three grids say together of a box with this volume.
fn bounds_by(total: f64, x: AxisVolume, y: AxisVolume, z: AxisVolume) -> DexelVolume
    ensures { result ≡ bounds_by total x y z }
{
    let lower = doubles_minmax::larger(
        doubles_minmax::larger(doubles_minmax::larger(0.0, x.certain), y.certain),
        z.certain,
    );
    let upper = doubles_minmax::smaller(
        doubles_minmax::smaller(
            doubles_minmax::smaller(f64::INFINITY, x.possible),
            y.possible,
        ),
        z.possible,
    );
    DexelVolume {
        x_certain_mm3: x.certain,
        x_possible_mm3: x.possible,
        y_certain_mm3: y.certain,
        y_possible_mm3: y.possible,
        z_certain_mm3: z.certain,
        z_possible_mm3: z.possible,
        remaining_lower_mm3: lower,
        remaining_upper_mm3: upper,
        removed_lower_mm3: doubles_minmax::larger(total - upper, 0.0),
        removed_upper_mm3: doubles_minmax::larger(total - lower, 0.0),
    }
}

// The volume of a store that is sound but for the validity of its rays: 11 where a ray is not valid.
fn measure_rays(
    spec: DexelStockSpec,
    g: DexelGrid,
    spans: &[f64],
    links: &[u64],
    heads: &[u64],
) -> Result<DexelVolume, Refusal>
    requires { ChainsInRoom spec g (cells spans.now links.now heads.now) }
    ensures { VolumeRaysPost spec g (cells spans.now links.now heads.now) result }
{
    let x = axis_volume(spec, g, spans, links, heads, WorldAxis(0)).ok_or(Refusal::Unsound)?;
    let y = axis_volume(spec, g, spans, links, heads, WorldAxis(1)).ok_or(Refusal::Unsound)?;
    let z = axis_volume(spec, g, spans, links, heads, WorldAxis(2)).ok_or(Refusal::Unsound)?;
    Ok(bounds_by(box_volume(spec), x, y, z))
}

// The volume, over a grid that is accepted. The rays are tested and summed in one pass.
fn measure(
    spec: DexelStockSpec,
    g: DexelGrid,
    spans: &[f64],
    links: &[u64],
    heads: &[u64],
    intervals: u64,
) -> Result<DexelVolume, Refusal>
    requires { GridFacts spec g }
    ensures { VolumePost (store_causes spec g (cells spans.now links.now heads.now) intervals)
        spec g (cells spans.now links.now heads.now) intervals result }
{
    if stock::is_short(spec, g, spans, links, heads) {
        return Err(Refusal::ShortBuffer);
    }
    if !stock::is_chained(spec, g, spans, links, heads, intervals) {
        return Err(Refusal::Unsound);
    }
    measure_rays(spec, g, spans, links, heads)
}

// The volume of a stock. Refusals: 1, 2, 3, 12, 11.
pub fn volume(
    spec: DexelStockSpec,
    units: &[u8],
    spans: &[f64],
    links: &[u64],
    heads: &[u64],
    intervals: u64,
) -> Result<DexelVolume, Refusal>
    ensures { VolumePost (volume_causes spec units.now
        (cells spans.now links.now heads.now) intervals)
        spec (grid_in spec) (cells spans.now links.now heads.now) intervals result }
{
    let g = grid_from_spec::grid(spec, units)?;
    measure(spec, g, spans, links, heads, intervals)
}
