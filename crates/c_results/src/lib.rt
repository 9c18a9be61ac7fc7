// Answers handed back as C has them: the refusal's number, 0 where the call is accepted, and numbers in cells that the caller lends.
#![tactic(auto)]

ghost use Rattle.std.specs.Prelude.{◌≡◌};
ghost use Rattle.c_results.specs.Numbers.{HandedBy, list_numbers, bool_numbers, merge_numbers, part_cells};
ghost use Rattle.c_results.specs.Numbers.{grid_numbers, grid_cells, fill_numbers, tally, volume_numbers};
ghost use Rattle.c_results.specs.Numbers.{commit_numbers, sweep_numbers, totals, trace_numbers, trace_cells};

use grid::DexelGrid;
use ray_subtract::MergedLists;
use ray_trace::Reason;
use stock::Tally;
use stock_volume::DexelVolume;
use sweep::Totals;

// Hands a value back in the one cell that holds it.
pub fn hand<T: Copy, E: Into<u32>>(answer: Result<T, E>, cell: &mut T) -> u32
    ensures { HandedBy E.converts (λ value after. after ≡ value) answer result cell.old cell.new }
{
    match answer {
        Ok(value) => {
            *cell = value;
            0
        }
        Err(refusal) => refusal.into(),
    }
}

// Hands the answer of a list function back as numbers.
pub fn hand_list<E: Into<u32>>(pairs: Result<usize, E>, cell: &mut usize) -> u32
    ensures { HandedBy E.converts list_numbers pairs result cell.old cell.new }
{
    hand(pairs, cell)
}

// Hands a yes or a no back as a number. With `u32::from` the loop of `tridexel_overlaps` would clear the number at each step.
pub fn hand_bool<E: Into<u32>>(answer: Result<bool, E>, yes: &mut u32) -> u32
    ensures { HandedBy E.converts bool_numbers answer result yes.old yes.new }
{
    match answer {
        Ok(true) => {
            *yes = 1;
            0
        }
        Ok(false) => {
            *yes = 0;
            0
        }
        Err(refusal) => refusal.into(),
    }
}

// Hands what became of both lists back as numbers.
pub fn hand_merge<E: Into<u32>>(
    merged: Result<MergedLists, E>,
    moved: &mut [u32; 2],
    pairs: &mut [usize; 2],
) -> u32
    ensures { HandedBy E.converts merge_numbers merged result
        (part_cells moved.old pairs.old) (part_cells moved.new pairs.new) }
{
    match merged {
        Ok(
            MergedLists {
                possible: p,
                certain: c,
            },
        ) => {
            *moved = [u32::from(p.moved), u32::from(c.moved)];
            *pairs = [p.pairs, c.pairs];
            0
        }
        Err(refusal) => refusal.into(),
    }
}

// Hands the grid back as numbers.
pub fn hand_grid<E: Into<u32>>(
    grid: Result<DexelGrid, E>,
    counts: &mut [u64; 3],
    steps: &mut [f64; 3],
) -> u32
    ensures { HandedBy E.converts grid_numbers grid result
        (grid_cells counts.old steps.old) (grid_cells counts.new steps.new) }
{
    match grid {
        Ok(g) => {
            *counts = [g.c0, g.c1, g.c2];
            *steps = [g.s0, g.s1, g.s2];
            0
        }
        Err(refusal) => refusal.into(),
    }
}

// Hands the small record of a stock back as numbers.
pub fn hand_fill<E: Into<u32>>(
    filled: Result<Tally, E>,
    generation: &mut u64,
    intervals: &mut u64,
) -> u32
    ensures { HandedBy E.converts fill_numbers filled result
        (tally generation.old intervals.old) (tally generation.new intervals.new) }
{
    match filled {
        Ok(t) => {
            *generation = t.generation;
            *intervals = t.intervals;
            0
        }
        Err(refusal) => refusal.into(),
    }
}

// Hands a volume back as its ten numbers.
pub fn hand_volume<E: Into<u32>>(measured: Result<DexelVolume, E>, volume: &mut [f64; 10]) -> u32
    ensures { HandedBy E.converts volume_numbers measured result volume.old volume.new }
{
    match measured {
        Ok(v) => {
            *volume = [
                v.x_certain_mm3,
                v.x_possible_mm3,
                v.y_certain_mm3,
                v.y_possible_mm3,
                v.z_certain_mm3,
                v.z_possible_mm3,
                v.remaining_lower_mm3,
                v.remaining_upper_mm3,
                v.removed_lower_mm3,
                v.removed_upper_mm3,
            ];
            0
        }
        Err(refusal) => refusal.into(),
    }
}

// Hands the number of changed rays back.
pub fn hand_commit<E: Into<u32>>(changed: Result<u64, E>, cell: &mut u64) -> u32
    ensures { HandedBy E.converts commit_numbers changed result cell.old cell.new }
{
    hand(changed, cell)
}

// Hands the totals of a sweep back as numbers.
pub fn hand_sweep<E: Into<u32>>(
    swept: Result<Totals, E>,
    entries: &mut usize,
    visits: &mut u64,
) -> u32
    ensures { HandedBy E.converts sweep_numbers swept result
        (totals entries.old visits.old) (totals entries.new visits.new) }
{
    match swept {
        Ok(t) => {
            *entries = t.entries;
            *visits = t.visits;
            0
        }
        Err(refusal) => refusal.into(),
    }
}

// The number of a reason, and the number of the entry that it names, 0 for none.
fn reason_numbers(why: Reason) -> (u32, usize)
    ensures { trace_numbers why (trace_cells result.0 result.1) }
{
    match why {
        Reason::NotPossible => (1, 0),
        Reason::RemovedBy(k) => (2, k),
        Reason::UncertainBy(k) => (3, k),
        Reason::NotCertain => (4, 0),
        Reason::StillCertain => (5, 0),
    }
}

// Hands the reason of a place back as numbers.
pub fn hand_trace<E: Into<u32>>(
    traced: Result<Reason, E>,
    reason: &mut u32,
    by_entry: &mut usize,
) -> u32
    ensures { HandedBy E.converts trace_numbers traced result
        (trace_cells reason.old by_entry.old) (trace_cells reason.new by_entry.new) }
{
    match traced {
        Ok(why) => {
            let (number, entry) = reason_numbers(why);
            *reason = number;
            *by_entry = entry;
            0
        }
        Err(refusal) => refusal.into(),
    }
}
