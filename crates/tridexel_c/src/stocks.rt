// The grid of a blank and its stock. A store is three slices: the ends of the records, their links, and the heads.
ghost use Rattle.grid.specs.Causes.{grid_in, GridPost};
ghost use Rattle.stock_fill.specs.Uncut.{FillPost, fill_causes};
ghost use Rattle.stock_volume.specs.Volume.{VolumePost, volume_causes};
ghost use Rattle.c_results.specs.Numbers.{AnsweredBy, grid_numbers, grid_cells, fill_numbers, tally, volume_numbers};
ghost use Rattle.store.specs.Store.{cells};

use grid::DexelStockSpec;

// `grid_from_spec::grid`; `counts` and `steps` become the cells along x, y and z and their widths.
#[unsafe(no_mangle)]
pub extern "C" fn tridexel_grid(
    spec: DexelStockSpec,
    units: &[u8],
    counts: &mut [u64; 3],
    steps: &mut [f64; 3],
) -> u32
    ensures { AnsweredBy grid_numbers (GridPost spec units.now) result
        (grid_cells counts.old steps.old) (grid_cells counts.new steps.new) }
{
    tridexel::stocks::tridexel_grid(spec, units, counts, steps)
}

// `stock_fill::fill`; `generation` and `intervals` become the small record of the stock.
#[unsafe(no_mangle)]
pub extern "C" fn tridexel_fill(
    spec: DexelStockSpec,
    units: &[u8],
    spans: &mut [f64],
    links: &mut [u64],
    heads: &mut [u64],
    generation: &mut u64,
    intervals: &mut u64,
) -> u32
    ensures { AnsweredBy fill_numbers
        (FillPost (fill_causes spec units.now (cells spans.old links.old heads.old))
        spec (grid_in spec) (cells spans.old links.old heads.old)
        (cells spans.new links.new heads.new)) result
        (tally generation.old intervals.old) (tally generation.new intervals.new) }
{
    tridexel::stocks::tridexel_fill(spec, units, spans, links, heads, generation, intervals)
}

// `stock_volume::volume`; `volume` becomes the ten numbers of the Rust's `DexelVolume`, in its order.
#[unsafe(no_mangle)]
pub extern "C" fn tridexel_volume(
    spec: DexelStockSpec,
    units: &[u8],
    spans: &[f64],
    links: &[u64],
    heads: &[u64],
    intervals: u64,
    volume: &mut [f64; 10],
) -> u32
    ensures { AnsweredBy volume_numbers
        (VolumePost (volume_causes spec units.now
        (cells spans.now links.now heads.now) intervals)
        spec (grid_in spec) (cells spans.now links.now heads.now) intervals) result
        volume.old volume.new }
{
    tridexel::stocks::tridexel_volume(spec, units, spans, links, heads, intervals, volume)
}
