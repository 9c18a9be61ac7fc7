// Axes and cutter shapes from the numbers that name them, in the order of their declarations from 0.
#![tactic(auto)]

ghost use Rattle.std.specs.Prelude.{◌≡◌};
ghost use Rattle.enum_codes.specs.Codes.{axis_of, named_shape, shape_of};

use cutter::CutterShape;
use frame::Axis;

#[tactic(auto, unfolding(crate::specs::Codes::axis_of))]
pub fn axis_of(n: u64) -> Axis
    ensures { result ≡ axis_of n }
{
    match n {
        0 => Axis::PosX,
        1 => Axis::NegX,
        2 => Axis::PosY,
        3 => Axis::NegY,
        4 => Axis::PosZ,
        _ => Axis::NegZ,
    }
}

// A number that names no shape gives one beyond every limit.
#[tactic(auto, unfolding(crate::specs::Codes::named_shape))]
pub fn named_shape(kind: u64, m: f64, n: f64) -> CutterShape
    ensures { result ≡ named_shape kind m n }
{
    match kind {
        0 => CutterShape::Flat,
        1 => CutterShape::Ball,
        2 => CutterShape::Bull(m),
        3 => CutterShape::Drill(m),
        4 => CutterShape::Chamfer(m, n),
        5 => CutterShape::Beam,
        6 => CutterShape::Probe,
        7 => CutterShape::Lollipop,
        8 => CutterShape::Dovetail(m),
        _ => CutterShape::Dovetail(f64::NAN),
    }
}

// A number that names no axis gives a shape beyond every limit, but a beam stays one.
#[tactic(auto, unfolding(crate::specs::Codes::shape_of))]
pub fn shape_of(axis: u64, kind: u64, m: f64, n: f64) -> CutterShape
    ensures { result ≡ shape_of axis kind m n }
{
    if kind == 5 {
        return CutterShape::Beam;
    }
    if axis > 5 {
        return CutterShape::Dovetail(f64::NAN);
    }
    named_shape(kind, m, n)
}
