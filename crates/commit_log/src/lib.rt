// The log commit: merge and commit at once.
#![tactic(auto)]

ghost use Rattle.std.specs.Prelude.{MatchResult, Ok, Err};
ghost use Rattle.commit_log.specs.LogCommit.{LogCommitPost};
ghost use Rattle.stock.specs.Stock.{stock};

use grid::DexelStockSpec;
use refusal::Refusal;
use stock::{Outcome, Tally};

// The log commit: how many rays changed and what the small record then holds, or why it is refused.
fn commit_grid(
    spec: DexelStockSpec,
    units: &[u8],
    spans: &mut [f64],
    links: &mut [u64],
    heads: &mut [u64],
    generation: u64,
    intervals: u64,
    log: &[f64],
    allowance: u64,
    work: &mut [f64],
) -> Result<(u64, Tally), Refusal>
    ensures { MatchResult result
        (λ done. LogCommitPost spec units.now
        (stock spans.old links.old heads.old generation intervals) log.now
        allowance work.old (Ok done.0)
        (stock spans.new links.new heads.new done.1.generation done.1.intervals) work.new)
        (λ e. LogCommitPost spec units.now
        (stock spans.old links.old heads.old generation intervals) log.now
        allowance work.old (Err e)
        (stock spans.new links.new heads.new generation intervals) work.new) }
{
    let g = grid_from_spec::grid(spec, units)?;
    commit_check::check_log(
        spec, g, spans, links, heads, generation, intervals, log, allowance, work,
    )?;
    let changed = commit_apply::apply_log(spec, g, spans, links, heads, log, work);
    let total = store::count_used(spans, links, spec.max_intervals as usize) as u64;
    let left = Tally {
        generation: generation + 1,
        intervals: total,
    };
    Ok((changed, left))
}

// The log commit on the numbers of the small record. Refusals: 1, 2, 3, 12, 11, 15, 17, 9, 10.
pub fn commit_log_on(
    generation: u64,
    intervals: u64,
    spec: DexelStockSpec,
    units: &[u8],
    spans: &mut [f64],
    links: &mut [u64],
    heads: &mut [u64],
    log: &[f64],
    allowance: u64,
    work: &mut [f64],
) -> Outcome
    ensures { LogCommitPost spec units.now
        (stock spans.old links.old heads.old generation intervals) log.now
        allowance
        work.old result.answer
        (stock spans.new links.new heads.new result.generation result.intervals)
        work.new }
{
    match commit_grid(
        spec, units, spans, links, heads, generation, intervals, log, allowance, work,
    ) {
        Ok((changed, left)) => Outcome {
            answer: Ok(changed),
            generation: left.generation,
            intervals: left.intervals,
        },
        Err(e) => Outcome {
            answer: Err(e),
            generation,
            intervals,
        },
    }
}

// Merges a log into a stock and commits it. The small record is taken apart, and both its fields are stored, refused or not.
pub fn commit_log(
    tally: &mut Tally,
    spec: DexelStockSpec,
    units: &[u8],
    spans: &mut [f64],
    links: &mut [u64],
    heads: &mut [u64],
    log: &[f64],
    allowance: u64,
    work: &mut [f64],
) -> Result<u64, Refusal>
    ensures { LogCommitPost spec units.now
        (stock spans.old links.old heads.old tally.old.generation
        tally.old.intervals)
        log.now allowance work.old result
        (stock spans.new links.new heads.new tally.new.generation
        tally.new.intervals) work.new }
{
    let done = commit_log_on(
        tally.generation,
        tally.intervals,
        spec,
        units,
        spans,
        links,
        heads,
        log,
        allowance,
        work,
    );
    tally.generation = done.generation;
    tally.intervals = done.intervals;
    done.answer
}
