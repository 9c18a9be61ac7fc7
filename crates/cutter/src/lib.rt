// The cutting part of a tool as radius by height: z = 0 is the tip, +z points toward the spindle (tool.rs; `Profile` of sweep.rs).
#![tactic(auto)]

ghost use Rattle.std.specs.Prelude.{◌≡◌};
ghost use Rattle.cutter.specs.Cutter.{arc_at, cutting_radius, off_tool, shank_diameter, radius_at, cut_radius, cut_max, cut_min};

// Document 01's `CutterShape`: Bull has the corner radius, Drill the point angle, Chamfer the included angle and the
// tip diameter, Dovetail the flank angle.
#[derive(Clone, Copy, Debug, PartialEq)]
pub enum CutterShape {
    Flat,
    Ball,
    Bull(f64),
    Drill(f64),
    Chamfer(f64, f64),
    Beam,
    Probe,
    Lollipop,
    Dovetail(f64),
}

// A cutter's numbers beside its shape. Where there is no neck its diameter is the shank's.
#[repr(C)]
#[derive(Clone, Copy, Debug, PartialEq)]
pub struct PreparedCutter {
    pub diameter_mm: f64,
    pub cutting_length_mm: f64,
    pub overall_length_mm: f64,
    pub neck_diameter_mm: f64,
    pub shank_diameter_mm: f64,
    pub radius: f64,
    pub tip_height: f64,
    pub slope: f64,
    pub shoulder: f64,
}

// A section across the tool axis: its radius and whether it cuts, or none at that height.
#[derive(Clone, Copy, Debug, PartialEq)]
pub enum ProfileSlice {
    Cutting(f64),
    NonCutting(f64),
    Outside,
}

#[tactic(auto, unfolding(crate::specs::Cutter::arc_at))]
fn arc_at(r: f64, z: f64) -> f64
    ensures { result ≡ arc_at r z }
{
    doubles_sqrt::sqrt(doubles_minmax::larger(z * (2.0 * r - z), 0.0))
}

// Within the cutting length. Shapes that widen from the tip have the full radius from the tip height on.
#[tactic(auto, unfolding(crate::specs::Cutter::cutting_radius))]
fn cutting_radius(shape: CutterShape, c: PreparedCutter, z: f64) -> f64
    ensures { result ≡ cutting_radius shape c z }
{
    let r = c.radius;
    match shape {
        CutterShape::Flat | CutterShape::Beam => r,
        CutterShape::Ball | CutterShape::Probe => {
            if z >= c.tip_height { r } else { arc_at(r, z) }
        }
        CutterShape::Bull(corner) => {
            if z >= c.tip_height {
                r
            } else {
                r - corner + arc_at(corner, z)
            }
        }
        CutterShape::Drill(_) => { if z >= c.tip_height { r } else { z * c.slope } }
        CutterShape::Chamfer(_, tip_diameter) => {
            if z >= c.tip_height {
                r
            } else {
                tip_diameter / 2.0 + z * c.slope
            }
        }
        CutterShape::Lollipop => arc_at(r, z),
        CutterShape::Dovetail(_) => r - z / c.slope,
    }
}

// The height of the cutting part's widest section.
pub fn widest_height(c: PreparedCutter) -> f64
    ensures { result ≡ c.tip_height }
{
    c.tip_height
}

#[tactic(auto, using(crate::proofs::Laws::finite), unfolding(crate::specs::Cutter::off_tool))]
fn is_off_tool(overall_length: f64, z: f64) -> bool
    ensures { result ≡ off_tool overall_length z }
{
    !z.is_finite() || z < 0.0 || z > overall_length
}

#[tactic(auto, unfolding(crate::specs::Cutter::shank_diameter))]
fn shank_diameter(c: PreparedCutter, z: f64) -> f64
    ensures { result ≡ shank_diameter c z }
{
    if z <= c.shoulder {
        c.neck_diameter_mm
    } else {
        c.shank_diameter_mm
    }
}

// The section at the height z.
#[tactic(auto, unfolding(crate::specs::Cutter::radius_at))]
pub fn radius_at(shape: CutterShape, c: PreparedCutter, z: f64) -> ProfileSlice
    ensures { result ≡ radius_at shape c z }
{
    if is_off_tool(c.overall_length_mm, z) {
        return ProfileSlice::Outside;
    }
    if z <= c.cutting_length_mm {
        return ProfileSlice::Cutting(cutting_radius(shape, c, z));
    }
    ProfileSlice::NonCutting(shank_diameter(c, z) / 2.0)
}

// The radius at the height of the cutting part that is nearest to h.
#[tactic(auto, unfolding(crate::specs::Cutter::cut_radius))]
pub fn cut_radius(shape: CutterShape, c: PreparedCutter, h: f64) -> f64
    ensures { result ≡ cut_radius shape c h }
{
    match radius_at(shape, c, doubles_minmax::clamp(h, 0.0, c.cutting_length_mm)) {
        ProfileSlice::Cutting(r) | ProfileSlice::NonCutting(r) => r,
        ProfileSlice::Outside => 0.0,
    }
}

// The largest cutting radius over the heights from h0 to h1: at the widest section where the window holds it, else at the nearer end.
#[tactic(auto, unfolding(crate::specs::Cutter::cut_max))]
pub fn cut_max(shape: CutterShape, c: PreparedCutter, h0: f64, h1: f64) -> Option<f64>
    ensures { result ≡ cut_max shape c h0 h1 }
{
    let lo = doubles_minmax::larger(h0, 0.0);
    let hi = doubles_minmax::smaller(h1, c.cutting_length_mm);
    if lo <= hi {
        Some(cut_radius(shape, c, doubles_minmax::clamp(widest_height(c), lo, hi)))
    } else {
        None
    }
}

// The smallest cutting radius over the heights from h0 to h1, where these lie within the cutting part: at one of the ends.
#[tactic(auto, unfolding(crate::specs::Cutter::cut_min))]
pub fn cut_min(shape: CutterShape, c: PreparedCutter, h0: f64, h1: f64) -> Option<f64>
    ensures { result ≡ cut_min shape c h0 h1 }
{
    if h0 >= 0.0 && h1 <= c.cutting_length_mm {
        Some(doubles_minmax::smaller(cut_radius(shape, c, h0), cut_radius(shape, c, h1)))
    } else {
        None
    }
}
