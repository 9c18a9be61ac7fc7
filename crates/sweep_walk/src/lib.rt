// The walk of a sweep: chords in order, for each the two world axes other than the tool's, and the rays of each clamped rectangle.
#![tactic(auto)]

ghost use Rattle.std.specs.Prelude.{◌≡◌, ◌+◌, ◌<◌, ◌≤◌, ◌^◌, length};
ghost use Rattle.grid.specs.Rays.{ray_count};
ghost use Rattle.sweep_model.specs.SweepEntries.{axis_rays_of, setting, axis_entries, first_axis, second_axis, chord_entries, sweep_entries};
ghost use Rattle.sweep_visits.specs.Steps.{WalkPost};
ghost use Rattle.sweep_walk.specs.Steps.{Sweepable};
ghost use Rattle.store.specs.Store.{cells};

use frame::{Frame, LocalAxis};
use grid::{DexelGrid, DexelStockSpec, WorldAxis};
use refusal::Refusal;
use sweep_model::{AxisRays, Chord, Kernel, Profile};
use sweep_visits::VisitCursor;

fn axis_rays(g: DexelGrid, axis: WorldAxis) -> AxisRays
    requires { ray_count g < 2 ^ 64 }
    ensures { result ≡ axis_rays_of g axis }
{
    let w = grid::cross(axis);
    AxisRays {
        axis,
        first: grid_rays::ray_offset(g, axis),
        row: grid::cells_along(g, w.u),
        rows: grid::cells_along(g, w.v),
    }
}

// The rays along a world axis that a chord visits.
fn sweep_axis(
    spec: DexelStockSpec,
    g: DexelGrid,
    k: Kernel,
    p: Profile,
    chord: Chord,
    axis: WorldAxis,
    budget: u64,
    start: VisitCursor,
    spans: &[f64],
    links: &[u64],
    heads: &[u64],
    log: &mut [f64],
) -> Result<VisitCursor, Refusal>
    requires { Sweepable spec g (cells spans.now links.now heads.now) × (start.at ≤ length log.old) }
    ensures { WalkPost budget
        (axis_entries (setting spec g k p (cells spans.now links.now heads.now))
        chord axis) start log.old result log.new }
{
    let l = sweep_kernel::chord_on_axis(spec, g, k, p, chord, axis);
    let n = spec.max_intervals as usize;
    let t = axis_rays(g, axis);
    let rect = sweep_kernel::rectangle_of(spec, g, p, l, axis);
    match rect {
        None => Ok(start),
        Some(r) => sweep_visits::sweep_rect(n, t, r, p, l, budget, start, spans, links, heads, log),
    }
}

// The lower of the two world axes other than the tool's.
fn first_axis(f: Frame) -> WorldAxis
    ensures { result ≡ first_axis f }
{
    let tool = frame::world_axis(f, LocalAxis(2));
    if tool.0 == 0 {
        WorldAxis(1)
    } else {
        WorldAxis(0)
    }
}

// The higher of the two.
fn second_axis(f: Frame) -> WorldAxis
    ensures { result ≡ second_axis f }
{
    let tool = frame::world_axis(f, LocalAxis(2));
    if tool.0 == 0 || tool.0 == 1 {
        WorldAxis(2)
    } else {
        WorldAxis(1)
    }
}

// The rays across the tool that a chord visits.
fn sweep_chord(
    spec: DexelStockSpec,
    g: DexelGrid,
    k: Kernel,
    p: Profile,
    chord: Chord,
    budget: u64,
    start: VisitCursor,
    spans: &[f64],
    links: &[u64],
    heads: &[u64],
    log: &mut [f64],
) -> Result<VisitCursor, Refusal>
    requires { Sweepable spec g (cells spans.now links.now heads.now) × (start.at ≤ length log.old) }
    ensures { WalkPost budget
        (chord_entries (setting spec g k p (cells spans.now links.now heads.now))
        chord) start log.old result log.new }
{
    let first = first_axis(k.frame);
    let second = second_axis(k.frame);
    let c = sweep_axis(
        spec, g, k, p, chord, first, budget, start, spans, links, heads, log,
    )?;
    sweep_axis(
        spec, g, k, p, chord, second, budget, c, spans, links, heads, log,
    )
}

// All chords, in order.
pub fn sweep_chords(
    spec: DexelStockSpec,
    g: DexelGrid,
    k: Kernel,
    p: Profile,
    chords: &[f64],
    budget: u64,
    spans: &[f64],
    links: &[u64],
    heads: &[u64],
    log: &mut [f64],
) -> Result<VisitCursor, Refusal>
    requires { Sweepable spec g (cells spans.now links.now heads.now) }
    ensures { WalkPost budget
        (sweep_entries (setting spec g k p (cells spans.now links.now heads.now))
        chords.now)
        (record { visits = 0; at = 0 }) log.old result log.new }
{
    let mut c = VisitCursor { visits: 0, at: 0 };
    for i in 0..chords.len() / 8 {
        let chord = chords::chord_at(k.frame, chords, i);
        c = sweep_chord(spec, g, k, p, chord, budget, c, spans, links, heads, log)?;
    }
    Ok(c)
}
