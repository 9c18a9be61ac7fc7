// The tool's frame: a signed permutation of the world axes whose last local axis is the tool's.
#![tactic(auto)]

ghost use Rattle.std.specs.Prelude.{◌≡◌};
ghost use Rattle.frame.specs.Frame.{axis_digit, frame_of, world_axis_of, local_axis_of, sign_along, local_at, local_of, world_of};

use grid::{Vec3, WorldAxis};

// A tool axis along a signed world axis: the direction from the tool's tip toward the spindle.
#[derive(Clone, Copy, Debug, PartialEq, Eq)]
pub enum Axis {
    PosX,
    NegX,
    PosY,
    NegY,
    PosZ,
    NegZ,
}

// Document 01's local axis, a digit 0 to 2. 2 and every larger digit is the tool's own axis, so that every function over it is total.
#[derive(Clone, Copy, Debug, PartialEq, Eq)]
pub struct LocalAxis(pub u8);

// local[0] = world[first]; the next two world axes follow in a cycle, and have the sign.
#[derive(Clone, Copy, Debug, PartialEq)]
pub struct Frame {
    pub first: WorldAxis,
    pub sign: f64,
}

// The two ends of an interval along an axis.
#[derive(Clone, Copy, Debug, PartialEq)]
pub struct Pair {
    pub lo: f64,
    pub hi: f64,
}

#[tactic(auto, unfolding(crate::specs::Frame::axis_digit))]
fn digit(n: u8) -> u8
    ensures { result ≡ axis_digit n }
{
    n.min(2)
}

impl Axis {
    pub fn frame(self) -> Frame
        ensures { result ≡ frame_of self }
    {
        let (first, sign) = match self {
            Axis::PosX => (1, 1.0),
            Axis::NegX => (1, -1.0),
            Axis::PosY => (2, 1.0),
            Axis::NegY => (2, -1.0),
            Axis::PosZ => (0, 1.0),
            Axis::NegZ => (0, -1.0),
        };
        Frame {
            first: WorldAxis(first),
            sign,
        }
    }
}

// The world axis of a local one.
#[tactic(auto, unfolding(crate::specs::Frame::world_axis_of))]
pub fn world_axis(f: Frame, i: LocalAxis) -> WorldAxis
    ensures { result ≡ world_axis_of f i }
{
    let d = digit(f.first.0);
    let k = digit(i.0);
    WorldAxis((d + k) % 3)
}

// The local axis of a world one.
#[tactic(auto, unfolding(crate::specs::Frame::local_axis_of))]
pub fn local_axis(f: Frame, a: WorldAxis) -> LocalAxis
    ensures { result ≡ local_axis_of f a }
{
    let d = digit(f.first.0);
    let k = digit(a.0);
    LocalAxis((k + 3 - d) % 3)
}

// The sign of a local axis.
#[tactic(auto, unfolding(crate::specs::Frame::sign_along))]
pub fn sign_along(f: Frame, i: LocalAxis) -> f64
    ensures { result ≡ sign_along f i }
{
    if i.0 == 0 { 1.0 } else { f.sign }
}

#[tactic(auto, unfolding(crate::specs::Frame::local_at))]
fn coordinate(f: Frame, p: Vec3, i: LocalAxis) -> f64
    ensures { result ≡ local_at f p i }
{
    sign_along(f, i) * grid::along(p, world_axis(f, i))
}

// A world point in the tool's frame.
#[tactic(auto, unfolding(crate::specs::Frame::local_of))]
pub fn local(f: Frame, p: Vec3) -> Vec3
    ensures { result ≡ local_of f p }
{
    Vec3 {
        x: coordinate(f, p, LocalAxis(0)),
        y: coordinate(f, p, LocalAxis(1)),
        z: coordinate(f, p, LocalAxis(2)),
    }
}

// The world interval of an interval along a local axis: a reversed axis negates its ends and swaps them.
#[tactic(auto, unfolding(crate::specs::Frame::world_of, crate::specs::Frame::turned))]
pub fn world(f: Frame, i: LocalAxis, s: Pair) -> Pair
    ensures { result ≡ world_of f i s }
{
    if sign_along(f, i) > 0.0 {
        s
    } else {
        Pair {
            lo: -s.hi,
            hi: -s.lo,
        }
    }
}
