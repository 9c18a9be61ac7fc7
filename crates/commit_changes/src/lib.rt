// The commit of a change list.
#![tactic(auto)]

ghost use Rattle.std.specs.Prelude.{◌≡◌, ◌*◌, ◌%◌, length, MatchResult, Ok, Err};
ghost use Rattle.grid.specs.Rays.{ray_count};
ghost use Rattle.stock.specs.Stock.{SoundCells, stock};
ghost use Rattle.commit_changes.specs.ChangeCommit.{ChangesPost};
ghost use Rattle.commit_changes.specs.Verdicts.{ListVerdict, GridVerdict};
ghost use Rattle.grid.specs.Facts.{GridFacts};
ghost use Rattle.store.specs.Steps.{Room};
ghost use Rattle.store.specs.Store.{cells};

use grid::{DexelGrid, DexelStockSpec};
use refusal::Refusal;
use stock::{Outcome, Tally};

// The interval total that changes of a sound store leave, or why they are refused: 13, 10, 15.
fn list_verdict(
    generation: u64,
    intervals: u64,
    spec: DexelStockSpec,
    g: DexelGrid,
    spans: &[f64],
    links: &[u64],
    heads: &[u64],
    changes: &[u64],
    pairs: &[f64],
) -> Result<u64, Refusal>
    requires { Room spec.max_intervals (2 * ray_count g) (cells spans.now links.now heads.now)
        × SoundCells spec g (cells spans.now links.now heads.now) intervals × (length pairs.now % 2 ≡ 0) }
    ensures { ListVerdict spec g
        (stock spans.now links.now heads.now generation intervals)
        changes.now pairs.now result }
{
    let checked = change_list::check_changes(spec, g, spans, links, heads, changes, pairs);
    let cur = checked.ok_or(Refusal::Change)?;
    let total = intervals - (cur.before as u64) + (cur.after as u64);
    if spec.max_intervals < total {
        return Err(Refusal::IntervalBudget);
    }
    if generation == u64::MAX {
        return Err(Refusal::LastGeneration);
    }
    Ok(total)
}

// The interval total that a change list leaves, or why it is refused, once the grid is accepted: 12, 11, 14, 13, 10, 15.
fn grid_verdict(
    generation: u64,
    intervals: u64,
    spec: DexelStockSpec,
    g: DexelGrid,
    spans: &[f64],
    links: &[u64],
    heads: &[u64],
    base: u64,
    changes: &[u64],
    pairs: &[f64],
) -> Result<u64, Refusal>
    requires { GridFacts spec g }
    ensures { GridVerdict spec g base
        (stock spans.now links.now heads.now generation intervals)
        changes.now pairs.now result }
{
    if stock::is_short(spec, g, spans, links, heads) {
        return Err(Refusal::ShortBuffer);
    }
    if !stock::check_stock(spec, g, spans, links, heads, intervals) {
        return Err(Refusal::Unsound);
    }
    if changes.len() % 6 != 0 {
        return Err(Refusal::Unsound);
    }
    if pairs.len() % 2 != 0 {
        return Err(Refusal::Unsound);
    }
    if base != generation {
        return Err(Refusal::BaseGeneration);
    }
    list_verdict(
        generation, intervals, spec, g, spans, links, heads, changes, pairs,
    )
}

// The commit: how many rays changed and what the small record then holds, or why it is refused.
fn commit_grid(
    generation: u64,
    intervals: u64,
    spec: DexelStockSpec,
    units: &[u8],
    spans: &mut [f64],
    links: &mut [u64],
    heads: &mut [u64],
    base: u64,
    changes: &[u64],
    pairs: &[f64],
) -> Result<(u64, Tally), Refusal>
    ensures { MatchResult result
        (λ done. ChangesPost spec units.now base changes.now pairs.now
        (stock spans.old links.old heads.old generation intervals)
        (stock spans.new links.new heads.new done.1.generation done.1.intervals) (Ok done.0))
        (λ e. ChangesPost spec units.now base changes.now pairs.now
        (stock spans.old links.old heads.old generation intervals)
        (stock spans.new links.new heads.new generation intervals) (Err e)) }
{
    let g = grid_from_spec::grid(spec, units)?;
    let total = grid_verdict(
        generation, intervals, spec, g, spans, links, heads, base, changes, pairs,
    )?;
    change_apply::apply_changes(spec, g, spans, links, heads, changes, pairs);
    let left = Tally {
        generation: generation + 1,
        intervals: total,
    };
    Ok(((changes.len() / 6) as u64, left))
}

// The commit of a change list on plain numbers and slices. Refusals: 1, 2, 3, 12, 11, 14, 13, 10, 15.
pub fn commit_changes_on(
    generation: u64,
    intervals: u64,
    spec: DexelStockSpec,
    units: &[u8],
    spans: &mut [f64],
    links: &mut [u64],
    heads: &mut [u64],
    base: u64,
    changes: &[u64],
    pairs: &[f64],
) -> Outcome
    ensures { ChangesPost spec units.now base changes.now pairs.now
        (stock spans.old links.old heads.old generation intervals)
        (stock spans.new links.new heads.new result.generation result.intervals) result.answer }
{
    match commit_grid(
        generation, intervals, spec, units, spans, links, heads, base, changes, pairs,
    ) {
        Ok((changed, left)) => Outcome {
            answer: Ok(changed),
            generation: left.generation,
            intervals: left.intervals,
        },
        Err(e) => Outcome {
            answer: Err(e),
            generation,
            intervals,
        },
    }
}

// Commits a change list to a stock. The small record is taken apart, and both its fields are stored, refused or not.
pub fn commit_changes(
    tally: &mut Tally,
    spec: DexelStockSpec,
    units: &[u8],
    spans: &mut [f64],
    links: &mut [u64],
    heads: &mut [u64],
    base: u64,
    changes: &[u64],
    pairs: &[f64],
) -> Result<u64, Refusal>
    ensures { ChangesPost spec units.now base changes.now pairs.now
        (stock spans.old links.old heads.old tally.old.generation
        tally.old.intervals)
        (stock spans.new links.new heads.new tally.new.generation
        tally.new.intervals) result }
{
    let done = commit_changes_on(
        tally.generation,
        tally.intervals,
        spec,
        units,
        spans,
        links,
        heads,
        base,
        changes,
        pairs,
    );
    tally.generation = done.generation;
    tally.intervals = done.intervals;
    done.answer
}
