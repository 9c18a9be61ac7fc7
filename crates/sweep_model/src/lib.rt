// The lateral sweep as document 01 and camlib's sweep.rs define it: its types here, the definitions in specs/. What a
// chord does to a ray, which rays it visits, and the log of all visits.
#![tactic(auto)]

use cutter::{CutterShape, PreparedCutter};
use frame::{Frame, LocalAxis, Pair};
use grid::{Vec3, WorldAxis};
use strips::PlanePoint;

// The cutting part (sweep.rs 114-120). The shape and the cutter's numbers give its sections; `radius`, half the
// diameter, is what visits go by.
#[derive(Clone, Copy, Debug, PartialEq)]
pub struct Profile {
    pub shape: CutterShape,
    pub cutter: PreparedCutter,
    pub radius: f64,
}

// How chords and rays are compared (sweep.rs 286-293): the tool's frame, and the guard that widens what the tool may
// touch and narrows what it certainly removes.
#[derive(Clone, Copy)]
pub struct Kernel {
    pub frame: Frame,
    pub guard: f64,
}

// A chord in the tool's frame (sweep.rs 381-386).
#[derive(Clone, Copy)]
pub struct Chord {
    // the ends, the third coordinate along the tool
    pub a: Vec3,
    pub b: Vec3,
    // how far the path may be from the chord
    pub e: f64,
    // the length in plan, an input here
    pub length: f64,
}

// The cells along a world axis across a ray, as the centres of its cells need them (sweep.rs 359-361).
#[derive(Clone, Copy, Debug, PartialEq)]
pub struct AxisScale {
    // the sign of its local axis
    pub sign: f64,
    // where the box begins, in the world
    pub min: f64,
    // the width of a cell
    pub step: f64,
}

// What a chord has in common for all rays of a world axis (sweep.rs 912-928).
#[derive(Clone, Copy)]
pub struct ChordOnAxis {
    pub frame: Frame,
    // the local axis of the rays
    pub la: LocalAxis,
    pub guard: f64,
    // the chord's ends in plan: x along the rays, y across them
    pub a: PlanePoint,
    pub b: PlanePoint,
    // the chord's plan length and its error
    pub length: f64,
    pub e: f64,
    // the lower and the higher of the tip's heights at the ends
    pub z_lo: f64,
    pub z_hi: f64,
    // a superset of every outer interval, in the world
    pub reach: Pair,
    // the two axes across the rays, in index order
    pub u: AxisScale,
    pub v: AxisScale,
    // which of the two is the tool's
    pub u_is_tool: bool,
}

// Cells from the first to the last, both met.
#[derive(Clone, Copy, Debug, PartialEq)]
pub struct CellRange {
    pub first: u64,
    pub last: u64,
}

// Document 01's clamped rectangle: rays from u0 to u1 in a row, and rows from v0 to v1, the last ones too.
#[derive(Clone, Copy, Debug, PartialEq)]
pub struct RayRange {
    pub u0: u64,
    pub u1: u64,
    pub v0: u64,
    pub v1: u64,
}

// A ray's cross-section, as the tool sees it (sweep.rs 933-935).
#[derive(Clone, Copy, Debug, PartialEq)]
pub struct Section {
    // the band across the ray, from its lower edge to its higher
    pub y0: f64,
    pub y1: f64,
    // the window of tool heights, from the lowest to the highest
    pub w0: f64,
    pub w1: f64,
}

// What a hit ray is given, in the world: where the tool may touch it, and where it certainly removes it; no inner is
// [0, 0].
#[derive(Clone, Copy)]
pub struct HitPairs {
    pub outer: Pair,
    pub inner: Pair,
}

// The rays of a world axis in the store.
#[derive(Clone, Copy)]
pub struct AxisRays {
    pub axis: WorldAxis,
    // the number of its first ray
    pub first: u64,
    // the rays of a row, and the rows
    pub row: u64,
    pub rows: u64,
}
