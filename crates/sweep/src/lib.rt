// Document 01's lateral sweep: its tests, its walk over the chords, and the end of its log.
#![tactic(auto)]

ghost use Rattle.std.specs.Prelude.{◌≡◌, ◌≤◌, length};
ghost use Rattle.sweep_model.specs.SweepEntries.{setting};
ghost use Rattle.sweep.specs.Answer.{setting_of, causes_in, sweep_causes, SweepPost};
ghost use Rattle.grid.specs.Facts.{GridFacts};
ghost use Rattle.sweep.specs.Steps.{SweepCheckPost, end_of, logged_by, end_log};
ghost use Rattle.store.specs.Store.{cells};

use cutter::{CutterShape, PreparedCutter};
use frame::Axis;
use grid::{DexelGrid, DexelStockSpec};
use refusal::Refusal;
use sweep_model::{Kernel, Profile};
use sweep_visits::VisitCursor;

// The number of entries in the log, and document 01's visit total.
#[derive(Clone, Copy, Debug, PartialEq, Eq)]
pub struct Totals {
    pub entries: usize,
    pub visits: u64,
}

// Ends a walk: its answer, and zeros in every cell of the log that is not of an entry.
fn end_log(x: Result<VisitCursor, Refusal>, log: &mut [f64]) -> Result<Totals, Refusal>
    requires { logged_by x ≤ length log.old }
    ensures { (result ≡ end_of x) × (log.new ≡ end_log x log.old) }
{
    match x {
        Err(e) => {
            spans::clear_from(log, 0);
            Err(e)
        }
        Ok(c) => {
            spans::clear_from(log, c.at);
            Ok(Totals {
                entries: c.at / 6,
                visits: c.visits,
            })
        }
    }
}

// Refusals 12, 11, 5, 6 and 7.
fn check_sweep(
    spec: DexelStockSpec,
    g: DexelGrid,
    k: Kernel,
    p: Profile,
    chords: &[f64],
    spans: &[f64],
    links: &[u64],
    heads: &[u64],
    intervals: u64,
) -> Result<(), Refusal>
    requires { GridFacts spec g }
    ensures { SweepCheckPost
        (setting spec g k p (cells spans.now links.now heads.now)) intervals
        chords.now result }
{
    if stock::is_short(spec, g, spans, links, heads) {
        return Err(Refusal::ShortBuffer);
    }
    if chords.len() % 8 != 0 {
        return Err(Refusal::Unsound);
    }
    if !stock::check_stock(spec, g, spans, links, heads, intervals) {
        return Err(Refusal::Unsound);
    }
    cutter_check::check_tool(p.shape, p.cutter)?;
    if !chords::check_chords(k.frame, k.guard, chords) {
        return Err(Refusal::Chord);
    }
    Ok(())
}

// The sweep, over a grid that is accepted.
fn sweep_grid(
    spec: DexelStockSpec,
    g: DexelGrid,
    k: Kernel,
    p: Profile,
    chords: &[f64],
    budget: u64,
    spans: &[f64],
    links: &[u64],
    heads: &[u64],
    intervals: u64,
    log: &mut [f64],
) -> Result<Totals, Refusal>
    requires { GridFacts spec g }
    ensures { SweepPost (causes_in
        (setting spec g k p (cells spans.now links.now heads.now)) intervals
        chords.now budget (length log.old))
        (setting spec g k p (cells spans.now links.now heads.now)) intervals
        chords.now log.old log.new result }
{
    check_sweep(spec, g, k, p, chords, spans, links, heads, intervals)?;
    let x = sweep_walk::sweep_chords(spec, g, k, p, chords, budget, spans, links, heads, log);
    end_log(x, log)
}

// The rays across the tool that a swept cutter meets, as a log. Refusals: 1, 2, 3, 12, 11, 5, 6, 7, then per visit 8 before 16.
pub fn sweep(
    spec: DexelStockSpec,
    units: &[u8],
    spans: &[f64],
    links: &[u64],
    heads: &[u64],
    intervals: u64,
    axis: Axis,
    shape: CutterShape,
    cutter: PreparedCutter,
    guard: f64,
    chords: &[f64],
    budget: u64,
    log: &mut [f64],
) -> Result<Totals, Refusal>
    ensures { SweepPost (sweep_causes units.now
        (setting_of spec axis shape cutter guard
        (cells spans.now links.now heads.now)) intervals chords.now budget
        (length log.old))
        (setting_of spec axis shape cutter guard
        (cells spans.now links.now heads.now)) intervals chords.now
        log.old log.new result }
{
    let g = grid_from_spec::grid(spec, units)?;
    let k = Kernel {
        frame: axis.frame(),
        guard,
    };
    let p = sweep_kernel::profile_of(shape, cutter);
    sweep_grid(
        spec, g, k, p, chords, budget, spans, links, heads, intervals, log,
    )
}
