// Whether a log commit keeps its two budgets, found out before anything is written: the rays that would change, and the pairs that all
// lists would have. The entries are taken in batches of rays that fit local arrays, and a ray whose own entries do not fit in stretches of
// numbers.
#![tactic(auto)]

ghost use Rattle.std.specs.Prelude.{◌≡◌, true, ◌⊎◌, ◌+◌, ◌*◌, ◌^◌, ◌≤◌, ◌<◌, length};
ghost use Rattle.grid.specs.Rays.{ray_count};
ghost use Rattle.log_model.specs.Logs.{entry_count};
ghost use Rattle.log_entries.specs.Named.{EachNamed};
ghost use Rattle.log_gather.specs.Gathering.{Shaped};
ghost use Rattle.log_count.specs.Totals.{Countable, CountPost};
ghost use Rattle.log_count.specs.Steps.{CountPre};
ghost use Rattle.log_budget.specs.Answer.{budget_number, budget_in};
ghost use Rattle.log_budget.specs.Steps.{BatchKeys, RunEnd, NextBatchPre, NextBatchPost, CountNextPost};
ghost use Rattle.store.specs.Store.{cells};

use grid::{DexelGrid, DexelStockSpec};
use log_batches::Batch;
use log_count::RayTotals;
use refusal::Refusal;

// As many keys of entries as a batch holds, and as many cells for the hits of a list.
const KEYS: usize = 3072;

const CELLS: usize = 1024;

// The first ray that is not counted, how many rays to try next, and the totals.
#[derive(Clone, Copy, Debug, PartialEq, Eq)]
pub struct CountNextAnswer {
    pub next: usize,
    pub guess: usize,
    pub totals: RayTotals,
}

// Where the keys of one ray end that begin at place i of the first m.
fn end_of_ray(keys: &[u64], m: usize, i: usize, n: u64) -> usize
    requires { (i < m) × (m ≤ length keys.now) × (0 < n) }
    ensures { RunEnd keys.now m i n result }
{
    let d = keys[i] / n;
    for j in i + 1..m {
        if keys[j] / n != d {
            return j;
        }
    }
    m
}

// The totals with the rays of a batch, whose first m keys ascend.
fn count_batch(
    spec: DexelStockSpec,
    g: DexelGrid,
    spans: &[f64],
    links: &[u64],
    heads: &[u64],
    log: &[f64],
    first: usize,
    width: usize,
    keys: &[u64],
    m: usize,
    buffer: &mut [f64],
    totals: RayTotals,
) -> RayTotals
    requires { CountPre spec g (cells spans.now links.now heads.now) log.now first totals buffer.old
        × BatchKeys g log.now first width keys.now m }
    ensures { CountPost spec g (cells spans.now links.now heads.now) log.now
        (first + width) buffer.old buffer.new result }
{
    let n = log_entries::entry_count(log) as u64;
    let mut t = totals;
    let mut i: usize = 0;
    while i < m {
        let ray = first + (keys[i] / n) as usize;
        let j = end_of_ray(keys, m, i, n);
        t = log_count::count_ray(
            spec,
            g,
            spans,
            links,
            heads,
            log,
            ray,
            &keys[i..j],
            buffer,
            t,
        );
        i = j;
    }
    t
}

// How many rays to try next, after a batch of `width` rays with `count` entries: a quarter more than would fill the buffer, at most
// twenty times as many.
fn guess(width: usize, count: usize, room: usize) -> usize
    requires { (count ≤ room) × (room ≤ 2 ^ 16) }
{
    let w = width.min(0x100_0000_0000);
    let next = if room < 16 * count {
        w * room / count
    } else {
        16 * w
    };
    next + next / 4
}

// The guess within what is left, and so that the keys fit the machine's numbers.
fn fit_width(guess: usize, most: usize, n: usize) -> usize
    requires { (0 < most) × (0 < n) }
    ensures { (0 < result) × (result ≤ most) × (result * n < 2 ^ 64) }
{
    guess.min(most).min(usize::MAX / n).max(1)
}

// Gathers the entries of the next rays and sorts their keys. There is no batch where its first ray alone does not fit.
fn next_batch(
    g: DexelGrid,
    log: &[f64],
    first: usize,
    width: usize,
    keys: &mut [u64],
) -> Option<Batch>
    requires { (ray_count g ≤ 2 ^ 53) × EachNamed g log.now × NextBatchPre g log.now first width keys.old }
    ensures { NextBatchPost g log.now first keys.old keys.new result }
{
    let w = log_batches::gather_rays(g, log, first, width, keys)?;
    log_batches::sort_keys(keys, w.count);
    Some(w)
}

// Counts the rays of the next batch, or the first of them alone where there is none.
fn count_next(
    spec: DexelStockSpec,
    g: DexelGrid,
    spans: &[f64],
    links: &[u64],
    heads: &[u64],
    log: &[f64],
    first: usize,
    width: usize,
    keys: &mut [u64],
    buffer: &mut [f64],
    t: RayTotals,
) -> CountNextAnswer
    requires { CountPre spec g (cells spans.now links.now heads.now) log.now first t buffer.old
        × NextBatchPre g log.now first width keys.old }
    ensures { CountNextPost spec g (cells spans.now links.now heads.now) log.now first
        keys.old keys.new buffer.old buffer.new result }
{
    let Some(w) = next_batch(g, log, first, width, keys) else {
        let alone = log_count::count_long(
            spec, g, spans, links, heads, log, first, keys, buffer, t,
        );
        return CountNextAnswer {
            next: first + 1,
            guess: width,
            totals: alone,
        };
    };
    let totals = count_batch(
        spec, g, spans, links, heads, log, first, w.width, keys, w.count, buffer, t,
    );
    CountNextAnswer {
        next: first + w.width,
        guess: guess(w.width, w.count, keys.len()),
        totals,
    }
}

// The exact count, batch by batch. It stops where more rays changed than allowed.
fn count_all(
    spec: DexelStockSpec,
    g: DexelGrid,
    spans: &[f64],
    links: &[u64],
    heads: &[u64],
    intervals: u64,
    log: &[f64],
    allowance: u64,
    keys: &mut [u64],
    buffer: &mut [f64],
) -> Result<(), Refusal>
    requires { Countable spec g (cells spans.now links.now heads.now) intervals log.now × (0 < entry_count log.now)
        × (0 < length keys.old) × (length keys.old ≤ 2 ^ 16) × Shaped buffer.old }
    ensures { budget_number result ≡ budget_in spec g (cells spans.now links.now heads.now)
        log.now allowance }
{
    let rays = grid_rays::total_rays(g) as usize;
    let n = log_entries::entry_count(log);
    let mut t = RayTotals {
        changed: 0,
        pairs: intervals,
    };
    let mut first: usize = 0;
    let mut wanted = rays;
    while first < rays {
        let width = fit_width(wanted, rays - first, n);
        let s = count_next(
            spec, g, spans, links, heads, log, first, width, keys, buffer, t,
        );
        t = s.totals;
        if t.changed > allowance {
            return Err(Refusal::RayBudget);
        }
        first = s.next;
        wanted = s.guess;
    }
    if t.pairs > spec.max_intervals {
        return Err(Refusal::IntervalBudget);
    }
    Ok(())
}

// Whether no log with so many entries can change more rays than the allowance: it has no more entries, or the grid no more rays.
fn allows_all(g: DexelGrid, entries: u64, allowance: u64) -> bool
    requires { ray_count g < 2 ^ 64 }
    ensures { result ≡ true → (entries ≤ allowance) ⊎ (ray_count g ≤ allowance) }
{
    entries <= allowance || grid_rays::total_rays(g) <= allowance
}

// Whether a log commit keeps the allowance of changed rays and the interval budget. Where neither is within reach of the log, no ray is
// looked at.
pub fn budget(
    spec: DexelStockSpec,
    g: DexelGrid,
    spans: &[f64],
    links: &[u64],
    heads: &[u64],
    intervals: u64,
    log: &[f64],
    allowance: u64,
) -> Result<(), Refusal>
    requires { Countable spec g (cells spans.now links.now heads.now) intervals log.now }
    ensures { budget_number result ≡ budget_in spec g (cells spans.now links.now heads.now)
        log.now allowance }
{
    let entries = log_entries::entry_count(log) as u64;
    if allows_all(g, entries, allowance) && intervals + 3 * entries <= spec.max_intervals {
        return Ok(());
    }
    if entries == 0 {
        return Ok(());
    }
    let mut keys = [0; KEYS];
    let mut buffer = [0.0; CELLS];
    count_all(
        spec,
        g,
        spans,
        links,
        heads,
        intervals,
        log,
        allowance,
        &mut keys,
        &mut buffer,
    )
}
