// Which refusal a log commit gets from its tests, or none.
#![tactic(auto)]

ghost use Rattle.std.specs.Prelude.{◌≡◌, ◌*◌, ◌/◌, ◌^◌, ◌<◌, ltb, length};
ghost use Rattle.log_model.specs.Logs.{work_needed};
ghost use Rattle.commit_check.specs.Tests.{LogCheckPost};
ghost use Rattle.stock.specs.Stock.{stock};
ghost use Rattle.grid.specs.Facts.{GridFacts};

use grid::{DexelGrid, DexelStockSpec};
use refusal::Refusal;

// Refusal 12 for the work buffer.
fn is_work_short(n: usize, log: &[f64], work: &[f64]) -> bool
    requires { 16 * n < 2 ^ 64 }
    ensures { result ≡ ltb (length work.now / 2) (work_needed n log.now) }
{
    work.len() / 2 < 6 * n + 18 * log_entries::entry_count(log)
}

// The highest generation: a commit could not step it.
const LAST_GENERATION: u64 = 0xffff_ffff_ffff_ffff;

// Refuses a log by the first cause that is present: 12, 11, 15, 17, 9, 10. It writes nothing, so that a refused commit leaves every cell.
pub fn check_log(
    spec: DexelStockSpec,
    g: DexelGrid,
    spans: &[f64],
    links: &[u64],
    heads: &[u64],
    generation: u64,
    intervals: u64,
    log: &[f64],
    allowance: u64,
    work: &[f64],
) -> Result<(), Refusal>
    requires { GridFacts spec g }
    ensures { LogCheckPost spec g
        (stock spans.now links.now heads.now generation intervals) log.now
        allowance work.now result }
{
    if stock::is_short(spec, g, spans, links, heads) {
        return Err(Refusal::ShortBuffer);
    }
    if is_work_short(spec.max_intervals as usize, log, work) {
        return Err(Refusal::ShortBuffer);
    }
    if !log_entries::is_whole_log(log) {
        return Err(Refusal::Unsound);
    }
    if !stock::check_stock(spec, g, spans, links, heads, intervals) {
        return Err(Refusal::Unsound);
    }
    if generation == LAST_GENERATION {
        return Err(Refusal::LastGeneration);
    }
    if !log_entries::names_all(g, log) {
        return Err(Refusal::NoRay);
    }
    log_budget::budget(spec, g, spans, links, heads, intervals, log, allowance)?;
    Ok(())
}
