// Refusals 5 and 6: whether a tool is within document 01's limits.
#![tactic(auto)]

ghost use Rattle.std.specs.Prelude.{◌≡◌};
ghost use Rattle.cutter.specs.Steps.{above_zero, from_zero, sizes_fit, heights_fit, lengths_fit};
ghost use Rattle.cutter.specs.Steps.{diameters_fit, shape_fits, within_limits, is_beam};
ghost use Rattle.cutter_check.specs.Steps.{ToolCheckPost};

use cutter::{CutterShape, PreparedCutter};
use refusal::Refusal;

#[tactic(auto, unfolding(cutter::specs::Steps::above_zero))]
fn is_above_zero(x: f64) -> bool
    ensures { result ≡ above_zero x }
{
    x > 0.0 && x <= 1000000.0
}

#[tactic(auto, unfolding(cutter::specs::Steps::from_zero))]
fn is_from_zero(x: f64) -> bool
    ensures { result ≡ from_zero x }
{
    x >= 0.0 && x <= 1000000.0
}

#[tactic(auto, unfolding(cutter::specs::Steps::sizes_fit))]
fn sizes_fit(c: PreparedCutter) -> bool
    ensures { result ≡ sizes_fit c }
{
    is_above_zero(c.diameter_mm) && is_above_zero(c.cutting_length_mm) && is_above_zero(c.radius)
}

#[tactic(auto, unfolding(cutter::specs::Steps::heights_fit))]
fn heights_fit(c: PreparedCutter) -> bool
    ensures { result ≡ heights_fit c }
{
    is_from_zero(c.tip_height) && is_from_zero(c.slope) && is_from_zero(c.shoulder)
}

#[tactic(auto, unfolding(cutter::specs::Steps::lengths_fit))]
fn lengths_fit(c: PreparedCutter) -> bool
    ensures { result ≡ lengths_fit c }
{
    c.overall_length_mm >= c.cutting_length_mm && c.overall_length_mm <= 1000000.0
}

#[tactic(auto, unfolding(cutter::specs::Steps::diameters_fit, cutter::specs::Steps::is_not_nan))]
fn diameters_fit(c: PreparedCutter) -> bool
    ensures { result ≡ diameters_fit c }
{
    !c.neck_diameter_mm.is_nan() && !c.shank_diameter_mm.is_nan()
}

#[tactic(auto, unfolding(cutter::specs::Steps::shape_fits))]
fn shape_fits(shape: CutterShape, slope: f64) -> bool
    ensures { result ≡ shape_fits shape slope }
{
    match shape {
        CutterShape::Bull(corner) => is_from_zero(corner),
        CutterShape::Drill(angle) => is_from_zero(angle),
        CutterShape::Chamfer(angle, tip_diameter) => is_from_zero(angle)
            && is_from_zero(tip_diameter),
        CutterShape::Dovetail(angle) => is_from_zero(angle) && slope >= 0.000001,
        CutterShape::Flat
        | CutterShape::Ball
        | CutterShape::Beam
        | CutterShape::Probe
        | CutterShape::Lollipop => true,
    }
}

#[tactic(auto, unfolding(cutter::specs::Steps::within_limits))]
fn within_limits(shape: CutterShape, c: PreparedCutter) -> bool
    ensures { result ≡ within_limits shape c }
{
    sizes_fit(c)
        && heights_fit(c)
        && lengths_fit(c)
        && diameters_fit(c)
        && shape_fits(shape, c.slope)
}

#[tactic(auto, unfolding(cutter::specs::Steps::is_beam))]
fn is_beam(shape: CutterShape) -> bool
    ensures { result ≡ is_beam shape }
{
    matches!(shape, CutterShape::Beam)
}

// Refusals 5 and 6 of document 01.
pub fn check_tool(shape: CutterShape, c: PreparedCutter) -> Result<(), Refusal>
    ensures { ToolCheckPost shape c result }
{
    if is_beam(shape) {
        return Err(Refusal::Beam);
    }
    if !within_limits(shape, c) {
        return Err(Refusal::Tool);
    }
    Ok(())
}
