// The sweep. An axis and a shape go in as numbers, in the order of their declarations from 0; a number that names none is refusal 6.
ghost use Rattle.std.specs.Prelude.{length};
ghost use Rattle.sweep.specs.Answer.{setting_of, sweep_causes, SweepPost};
ghost use Rattle.enum_codes.specs.Codes.{axis_of, shape_of};
ghost use Rattle.c_results.specs.Numbers.{AnsweredBy, sweep_numbers, totals};
ghost use Rattle.store.specs.Store.{cells};

use cutter::PreparedCutter;
use grid::DexelStockSpec;

// `sweep::sweep`; `entries` and `visits` become the totals.
#[unsafe(no_mangle)]
pub extern "C" fn tridexel_sweep(
    spec: DexelStockSpec,
    units: &[u8],
    spans: &[f64],
    links: &[u64],
    heads: &[u64],
    intervals: u64,
    axis: u64,
    kind: u64,
    m: f64,
    n: f64,
    cutter: PreparedCutter,
    guard: f64,
    chords: &[f64],
    budget: u64,
    log: &mut [f64],
    entries: &mut usize,
    visits: &mut u64,
) -> u32
    ensures { AnsweredBy sweep_numbers
        (SweepPost (sweep_causes units.now
        (setting_of spec (axis_of axis) (shape_of axis kind m n) cutter guard
        (cells spans.now links.now heads.now)) intervals chords.now budget
        (length log.old))
        (setting_of spec (axis_of axis) (shape_of axis kind m n) cutter guard
        (cells spans.now links.now heads.now)) intervals chords.now
        log.old log.new) result
        (totals entries.old visits.old) (totals entries.new visits.new) }
{
    tridexel::sweeps::tridexel_sweep(
        spec, units, spans, links, heads, intervals, axis, kind, m, n, cutter, guard, chords,
        budget, log, entries, visits,
    )
}
