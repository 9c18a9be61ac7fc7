// Extents along x of polygons, disks and stadiums within a band of y (sweep.rs: `polygon_strip`, `disk_strip`, `stadium_strip`).
#![tactic(auto)]

ghost use Rattle.std.specs.Prelude.{◌≡◌, ◌++◌, ◌∷◌, [], ◌+◌, ◌<◌, ◌≤◌};
ghost use Rattle.strips.specs.Strip.{band_distance, half_chord, chord_strip, disk_strip, hull, side_strip, stadium_strip};
ghost use Rattle.strips.specs.Polygon.{inside, crossing, edge, clip, widen, widen_all, polygon_strip};
ghost use Rattle.strips.specs.Steps.{corners};

#[repr(C)]
#[derive(Clone, Copy, Debug, PartialEq)]
pub struct PlanePoint {
    pub x: f64,
    pub y: f64,
}

// An extent along x, from the first end to the second, or none.
#[derive(Clone, Copy, Debug, PartialEq)]
pub enum Strip {
    Hit(f64, f64),
    Miss,
}

// The corners of a clipped polygon: the first n of at.
#[derive(Clone, Copy)]
struct Points {
    n: usize,
    at: [PlanePoint; 8],
}

// The smallest and the largest x of some points, of which there is one at least.
#[derive(Clone, Copy, Debug, PartialEq)]
struct Extent {
    lo: f64,
    hi: f64,
}

#[tactic(auto, unfolding(crate::specs::Polygon::inside))]
fn is_inside(above: bool, bound: f64, p: PlanePoint) -> bool
    ensures { result ≡ inside above bound p }
{
    if above { p.y >= bound } else { p.y <= bound }
}

#[tactic(auto, unfolding(crate::specs::Polygon::crossing))]
fn cross_at(bound: f64, p: PlanePoint, q: PlanePoint) -> PlanePoint
    ensures { result ≡ crossing bound p q }
{
    let t = (bound - p.y) / (q.y - p.y);
    PlanePoint {
        x: p.x + t * (q.x - p.x),
        y: bound,
    }
}

fn push(ps: Points, p: PlanePoint) -> Points
    requires { ps.n < 8 }
    ensures { (corners result ≡ corners ps ++ (p ∷ [])) × (result.n ≡ ps.n + 1) }
{
    let n = ps.n;
    let mut r = ps;
    r.at[n] = p;
    r.n = n + 1;
    r
}

#[tactic(auto, unfolding(crate::specs::Polygon::edge))]
fn push_edge(ps: Points, above: bool, bound: f64, p: PlanePoint, q: PlanePoint) -> Points
    requires { ps.n ≤ 6 }
    ensures { (corners result ≡ corners ps ++ edge above bound p q) × (result.n ≤ ps.n + 2) }
{
    if is_inside(above, bound, p) {
        if is_inside(above, bound, q) {
            push(ps, p)
        } else {
            push(push(ps, p), cross_at(bound, p, q))
        }
    } else if is_inside(above, bound, q) {
        push(ps, cross_at(bound, p, q))
    } else {
        ps
    }
}

#[tactic(auto, unfolding(crate::specs::Polygon::clip, crate::specs::Polygon::edges))]
fn clip4(
    above: bool,
    bound: f64,
    p: PlanePoint,
    q: PlanePoint,
    r: PlanePoint,
    s: PlanePoint,
) -> Points
    ensures { (corners result ≡ clip above bound (p ∷ q ∷ r ∷ s ∷ [])) × (result.n ≤ 8) }
{
    let z = PlanePoint { x: 0.0, y: 0.0 };
    let e = Points { n: 0, at: [z; 8] };
    let e1 = push_edge(e, above, bound, p, q);
    let e2 = push_edge(e1, above, bound, q, r);
    let e3 = push_edge(e2, above, bound, r, s);
    push_edge(e3, above, bound, s, p)
}

#[tactic(auto, unfolding(crate::specs::Polygon::widen))]
fn widened(e: Option<Extent>, p: PlanePoint) -> Option<Extent>
    ensures { result ≡ widen e p }
{
    let before = e.unwrap_or(Extent {
        lo: f64::INFINITY,
        hi: f64::NEG_INFINITY,
    });
    Some(Extent {
        lo: doubles_minmax::smaller(before.lo, p.x),
        hi: doubles_minmax::larger(before.hi, p.x),
    })
}

#[tactic(auto, unfolding(crate::specs::Polygon::edge, crate::specs::Polygon::widen_all))]
fn widen_edge(
    e: Option<Extent>,
    above: bool,
    bound: f64,
    p: PlanePoint,
    q: PlanePoint,
) -> Option<Extent>
    ensures { result ≡ widen_all e (edge above bound p q) }
{
    if is_inside(above, bound, p) {
        if is_inside(above, bound, q) {
            widened(e, p)
        } else {
            widened(widened(e, p), cross_at(bound, p, q))
        }
    } else if is_inside(above, bound, q) {
        widened(e, cross_at(bound, p, q))
    } else {
        e
    }
}

// The points of the second clip go into the extent as they come, and need no places.
fn widen_clip(above: bool, bound: f64, ps: Points, e0: Option<Extent>) -> Option<Extent>
    requires { ps.n ≤ 8 }
    ensures { result ≡ widen_all e0 (clip above bound (corners ps)) }
{
    let n = ps.n;
    let mut e = e0;
    let first = ps.at[0];
    for i in 0..n {
        let j = i + 1;
        let q = if j < n { ps.at[j] } else { first };
        e = widen_edge(e, above, bound, ps.at[i], q);
    }
    e
}

// The extent of the polygon p, q, r, s within the band from y0 to y1. It need not be convex.
#[tactic(auto, unfolding(crate::specs::Polygon::polygon_strip, crate::specs::Polygon::extent_strip))]
pub fn polygon_strip(
    p: PlanePoint,
    q: PlanePoint,
    r: PlanePoint,
    s: PlanePoint,
    y0: f64,
    y1: f64,
) -> Strip
    ensures { result ≡ polygon_strip p q r s y0 y1 }
{
    let c = clip4(true, y0, p, q, r, s);
    match widen_clip(false, y1, c, None) {
        Some(e) => Strip::Hit(e.lo, e.hi),
        None => Strip::Miss,
    }
}

#[tactic(auto, unfolding(crate::specs::Strip::band_distance))]
fn band_distance(y: f64, y0: f64, y1: f64) -> f64
    ensures { result ≡ band_distance y y0 y1 }
{
    if y < y0 {
        y0 - y
    } else if y > y1 {
        y - y1
    } else {
        0.0
    }
}

#[tactic(auto, unfolding(crate::specs::Strip::half_chord))]
fn half_chord(rho: f64, dy: f64) -> f64
    ensures { result ≡ half_chord rho dy }
{
    doubles_sqrt::sqrt(doubles_minmax::larger((rho - dy) * (rho + dy), 0.0))
}

#[tactic(auto, unfolding(crate::specs::Strip::chord_strip))]
fn chord_strip(x: f64, rho: f64, dy: f64) -> Strip
    ensures { result ≡ chord_strip x rho dy }
{
    if dy <= rho {
        let half = half_chord(rho, dy);
        Strip::Hit(x - half, x + half)
    } else {
        Strip::Miss
    }
}

// The extent of a disk of radius rho around c within the band from y0 to y1.
#[tactic(auto, unfolding(crate::specs::Strip::disk_strip))]
pub fn disk_strip(c: PlanePoint, rho: f64, y0: f64, y1: f64) -> Strip
    ensures { result ≡ disk_strip c rho y0 y1 }
{
    chord_strip(c.x, rho, band_distance(c.y, y0, y1))
}

#[tactic(auto, unfolding(crate::specs::Strip::hull))]
fn hull_of(a: Strip, b: Strip) -> Strip
    ensures { result ≡ hull a b }
{
    match (a, b) {
        (Strip::Miss, _) => b,
        (_, Strip::Miss) => a,
        (Strip::Hit(lo, hi), Strip::Hit(lo2, hi2)) => {
            Strip::Hit(
                doubles_minmax::smaller(lo, lo2),
                doubles_minmax::larger(hi, hi2),
            )
        }
    }
}

// Both end disks. Where they are as far from the band the half chord is the same, and one root is enough.
#[tactic(auto, unfolding(crate::specs::Strip::disk_strip, crate::specs::Strip::chord_strip, crate::specs::Strip::hull))]
fn ends_strip(a: PlanePoint, b: PlanePoint, rho: f64, y0: f64, y1: f64) -> Strip
    ensures { result ≡ hull (disk_strip a rho y0 y1) (disk_strip b rho y0 y1) }
{
    let da = band_distance(a.y, y0, y1);
    let db = band_distance(b.y, y0, y1);
    if da <= rho {
        let half = half_chord(rho, da);
        let first = Strip::Hit(a.x - half, a.x + half);
        if doubles_bits::bits_of(da) == doubles_bits::bits_of(db) {
            return hull_of(first, Strip::Hit(b.x - half, b.x + half));
        }
        return hull_of(first, chord_strip(b.x, rho, db));
    }
    chord_strip(b.x, rho, db)
}

#[tactic(auto, unfolding(crate::specs::Strip::side_strip))]
fn side_strip(a: PlanePoint, b: PlanePoint, length: f64, rho: f64, y0: f64, y1: f64) -> Strip
    ensures { result ≡ side_strip a b length rho y0 y1 }
{
    if length > 0.0 {
        let nx = -(b.y - a.y) / length * rho;
        let ny = (b.x - a.x) / length * rho;
        let p = PlanePoint {
            x: a.x + nx,
            y: a.y + ny,
        };
        let q = PlanePoint {
            x: b.x + nx,
            y: b.y + ny,
        };
        let r = PlanePoint {
            x: b.x - nx,
            y: b.y - ny,
        };
        let s = PlanePoint {
            x: a.x - nx,
            y: a.y - ny,
        };
        polygon_strip(p, q, r, s, y0, y1)
    } else {
        Strip::Miss
    }
}

// The extent of the points within rho of the segment from a to b, in the band from y0 to y1. `length` is the segment's plan length.
#[tactic(auto, unfolding(crate::specs::Strip::stadium_strip))]
pub fn stadium_strip(a: PlanePoint, b: PlanePoint, length: f64, rho: f64, y0: f64, y1: f64) -> Strip
    ensures { result ≡ stadium_strip a b length rho y0 y1 }
{
    let ends = ends_strip(a, b, rho, y0, y1);
    hull_of(ends, side_strip(a, b, length, rho, y0, y1))
}
