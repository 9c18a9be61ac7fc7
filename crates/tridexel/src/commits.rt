// The two commits. The small record is two numbers that the caller keeps; a refused commit leaves both as they were.
ghost use Rattle.commit_changes.specs.ChangeCommit.{ChangesPost};
ghost use Rattle.commit_log.specs.LogCommit.{LogCommitPost};
ghost use Rattle.c_results.specs.Numbers.{AnsweredBy, commit_numbers};
ghost use Rattle.stock.specs.Stock.{stock};

use grid::DexelStockSpec;

// `commit_changes::commit_changes`; `changed` becomes the number of changed rays.
pub fn tridexel_commit_changes(
    spec: DexelStockSpec,
    units: &[u8],
    spans: &mut [f64],
    links: &mut [u64],
    heads: &mut [u64],
    generation: &mut u64,
    intervals: &mut u64,
    base: u64,
    changes: &[u64],
    pairs: &[f64],
    changed: &mut u64,
) -> u32
    ensures { AnsweredBy commit_numbers
        (ChangesPost spec units.now base changes.now pairs.now
        (stock spans.old links.old heads.old generation.old intervals.old)
        (stock spans.new links.new heads.new generation.new intervals.new)) result
        changed.old changed.new }
{
    let done = commit_changes::commit_changes_on(
        *generation,
        *intervals,
        spec,
        units,
        spans,
        links,
        heads,
        base,
        changes,
        pairs,
    );
    *generation = done.generation;
    *intervals = done.intervals;
    let a = done.answer;
    c_results::hand_commit(a, changed)
}

// `commit_log::commit_log`; `changed` becomes the number of changed rays.
pub fn tridexel_commit_log(
    spec: DexelStockSpec,
    units: &[u8],
    spans: &mut [f64],
    links: &mut [u64],
    heads: &mut [u64],
    generation: &mut u64,
    intervals: &mut u64,
    log: &[f64],
    allowance: u64,
    work: &mut [f64],
    changed: &mut u64,
) -> u32
    ensures { AnsweredBy commit_numbers (λ a. LogCommitPost spec units.now
        (stock spans.old links.old heads.old generation.old intervals.old)
        log.now allowance work.old a
        (stock spans.new links.new heads.new generation.new intervals.new)
        work.new) result changed.old changed.new }
{
    let done = commit_log::commit_log_on(
        *generation,
        *intervals,
        spec,
        units,
        spans,
        links,
        heads,
        log,
        allowance,
        work,
    );
    *generation = done.generation;
    *intervals = done.intervals;
    let a = done.answer;
    c_results::hand_commit(a, changed)
}
