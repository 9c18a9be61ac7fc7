// What a chord has in common for all rays of a world axis, and the rectangle of rays that it visits (sweep.rs: `Kernel::rays`).
#![tactic(auto)]

ghost use Rattle.std.specs.Prelude.{◌≡◌};
ghost use Rattle.sweep_model.specs.Kernel.{profile_of, plan_point, reach_of, axis_scale_of, chord_on_axis_of};
ghost use Rattle.sweep_model.specs.Kernel.{span_over, cells_met, cells_across, rectangle_of};
ghost use Rattle.grid.specs.Facts.{GridFacts};

use cutter::{CutterShape, PreparedCutter};
use frame::{Frame, LocalAxis, Pair};
use grid::{DexelGrid, DexelStockSpec, Vec3, WorldAxis};
use strips::PlanePoint;
use sweep_model::{AxisScale, CellRange, Chord, ChordOnAxis, Kernel, Profile, RayRange};

pub fn profile_of(shape: CutterShape, cutter: PreparedCutter) -> Profile
    ensures { result ≡ profile_of shape cutter }
{
    Profile {
        shape,
        cutter,
        radius: cutter.diameter_mm / 2.0,
    }
}

// A point of a chord as rays along the local axis la see it: x along the ray, y across it.
#[tactic(auto, unfolding(sweep_model::specs::Kernel::plan_point))]
fn plan_point(p: Vec3, la: LocalAxis) -> PlanePoint
    ensures { result ≡ plan_point p la }
{
    if la.0 == 0 {
        PlanePoint { x: p.x, y: p.y }
    } else {
        PlanePoint { x: p.y, y: p.x }
    }
}

// A superset of every outer interval along the rays, in world coordinates.
#[tactic(auto, unfolding(sweep_model::specs::Kernel::reach_of))]
fn reach_of(k: Kernel, la: LocalAxis, pad: f64, a: PlanePoint, b: PlanePoint) -> Pair
    ensures { result ≡ reach_of k la pad a b }
{
    let s = Pair {
        lo: doubles_minmax::smaller(a.x, b.x) - pad - k.guard,
        hi: doubles_minmax::larger(a.x, b.x) + pad + k.guard,
    };
    frame::world(k.frame, la, s)
}

#[tactic(auto, unfolding(sweep_model::specs::Kernel::axis_scale_of))]
fn axis_scale(spec: DexelStockSpec, g: DexelGrid, f: Frame, w: WorldAxis) -> AxisScale
    ensures { result ≡ axis_scale_of spec g f w }
{
    AxisScale {
        sign: frame::sign_along(f, frame::local_axis(f, w)),
        min: grid::along(spec.min_mm, w),
        step: grid::step_along(g, w),
    }
}

#[tactic(auto, unfolding(sweep_model::specs::Kernel::chord_on_axis_of))]
pub fn chord_on_axis(
    spec: DexelStockSpec,
    g: DexelGrid,
    k: Kernel,
    p: Profile,
    c: Chord,
    axis: WorldAxis,
) -> ChordOnAxis
    ensures { result ≡ chord_on_axis_of spec g k p c axis }
{
    let f = k.frame;
    let la = frame::local_axis(f, axis);
    let a = plan_point(c.a, la);
    let b = plan_point(c.b, la);
    let w = grid::cross(axis);
    let lu = frame::local_axis(f, w.u);
    ChordOnAxis {
        frame: f,
        la,
        guard: k.guard,
        a,
        b,
        length: c.length,
        e: c.e,
        z_lo: doubles_minmax::smaller(c.a.z, c.b.z),
        z_hi: doubles_minmax::larger(c.a.z, c.b.z),
        reach: reach_of(k, la, p.radius + c.e, a, b),
        u: axis_scale(spec, g, f, w.u),
        v: axis_scale(spec, g, f, w.v),
        u_is_tool: lu.0 == 2,
    }
}

// The local range of a chord's rays along a local axis that crosses them.
#[tactic(auto, unfolding(sweep_model::specs::Kernel::span_over))]
fn span_over(p: Profile, l: ChordOnAxis, i: LocalAxis) -> Pair
    ensures { result ≡ span_over p l i }
{
    if i.0 == 2 {
        return Pair {
            lo: l.z_lo - l.e,
            hi: l.z_hi + p.cutter.cutting_length_mm + l.e,
        };
    }
    let pad = p.radius + l.e;
    Pair {
        lo: doubles_minmax::smaller(l.a.y, l.b.y) - pad,
        hi: doubles_minmax::larger(l.a.y, l.b.y) + pad,
    }
}

// The cells along a world axis that the pair s meets.
#[tactic(auto, unfolding(sweep_model::specs::Kernel::cells_met))]
fn cells_met(spec: DexelStockSpec, g: DexelGrid, w: WorldAxis, s: Pair) -> Option<CellRange>
    requires { GridFacts spec g }
    ensures { result ≡ cells_met spec g w s }
{
    if s.hi < grid::along(spec.min_mm, w) || s.lo > grid::along(spec.max_mm, w) || s.lo > s.hi {
        return None;
    }
    Some(CellRange {
        first: grid_cells::cell_at(spec, g, w, s.lo),
        last: grid_cells::cell_at(spec, g, w, s.hi),
    })
}

#[tactic(auto, unfolding(sweep_model::specs::Kernel::cells_across))]
fn cells_across(
    spec: DexelStockSpec,
    g: DexelGrid,
    p: Profile,
    l: ChordOnAxis,
    w: WorldAxis,
) -> Option<CellRange>
    requires { GridFacts spec g }
    ensures { result ≡ cells_across spec g p l w }
{
    let i = frame::local_axis(l.frame, w);
    cells_met(spec, g, w, frame::world(l.frame, i, span_over(p, l, i)))
}

// The rays of an axis that a chord visits.
#[tactic(auto, unfolding(sweep_model::specs::Kernel::rectangle_of))]
pub fn rectangle_of(
    spec: DexelStockSpec,
    g: DexelGrid,
    p: Profile,
    l: ChordOnAxis,
    axis: WorldAxis,
) -> Option<RayRange>
    requires { GridFacts spec g }
    ensures { result ≡ rectangle_of spec g p l axis }
{
    let w = grid::cross(axis);
    let us = cells_across(spec, g, p, l, w.u)?;
    let vs = cells_across(spec, g, p, l, w.v)?;
    Some(RayRange {
        u0: us.first,
        u1: us.last,
        v0: vs.first,
        v1: vs.last,
    })
}
