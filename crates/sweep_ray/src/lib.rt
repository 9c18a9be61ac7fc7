// One ray across the tool axis: tests of its possible list, the section that a swept cutter meets, and what the ray
// adds to the log (sweep.rs: `spans_meet`, `across`; dexel.rs: `overlaps`).
#![tactic(auto)]

ghost use Rattle.std.specs.Prelude.{◌≡◌, true};
ghost use Rattle.spans.specs.Spans.{sound};
ghost use Rattle.store_read.specs.Reading.{Readable};
ghost use Rattle.sweep_model.specs.Section.{local_center, section_with, section_of};
ghost use Rattle.sweep_model.specs.Across.{outer_from, outer_of, inner_from, inner_of, ray_hit_of};
ghost use Rattle.store.specs.Store.{list_from};
ghost use Rattle.sweep_model.specs.Meets.{spans_meet, overlaps_of};
ghost use Rattle.sweep_ray.specs.Steps.{some_above};

use frame::Pair;
use strips::Strip;
use sweep_model::{AxisScale, ChordOnAxis, HitPairs, Profile, Section};

// Whether an upper end of the list is above x. In a sound list that tells whether the last one is, and most lists
// answer at their first pair.
fn some_above(spans: &[f64], links: &[u64], n: usize, head: u64, x: f64) -> bool
    requires { Readable n spans.now links.now head }
    ensures { result ≡ some_above (list_from n spans.now links.now head) x }
{
    let mut k = head;
    while k != 0 {
        let r = store::record_at(spans, links, (k - 1) as usize);
        if x < r.hi {
            return true;
        }
        k = r.next;
    }
    false
}

// Whether material may lie within s along a ray: a quick test against the whole extent of its possible list.
pub fn spans_meet(spans: &[f64], links: &[u64], n: usize, head: u64, s: Pair) -> bool
    requires { Readable n spans.now links.now head × (sound (list_from n spans.now links.now head) ≡ true) }
    ensures { result ≡ spans_meet (list_from n spans.now links.now head) s }
{
    if head == 0 {
        return false;
    }
    let first = store::record_at(spans, links, (head - 1) as usize);
    first.lo < s.hi && some_above(spans, links, n, head, s.lo)
}

// Whether the list and the pair s share a length.
pub fn overlaps_at(spans: &[f64], links: &[u64], n: usize, head: u64, s: Pair) -> bool
    requires { Readable n spans.now links.now head }
    ensures { result ≡ overlaps_of (list_from n spans.now links.now head) s }
{
    let mut k = head;
    while k != 0 {
        let r = store::record_at(spans, links, (k - 1) as usize);
        if doubles_minmax::larger(r.lo, s.lo) < doubles_minmax::smaller(r.hi, s.hi) {
            return true;
        }
        if !(r.hi < s.hi) {
            return false;
        }
        k = r.next;
    }
    false
}

#[tactic(auto, unfolding(sweep_model::specs::Section::local_center))]
fn center_of(s: AxisScale, i: u64) -> f64
    ensures { result ≡ local_center s i }
{
    s.sign * (s.min + (std::num::nearest_u64_to_f64(i) + 0.5) * s.step)
}

#[tactic(auto, unfolding(sweep_model::specs::Section::section_with))]
fn section_with(l: ChordOnAxis, yc: f64, hy: f64, zc: f64, hz: f64) -> Section
    ensures { result ≡ section_with l yc hy zc hz }
{
    Section {
        y0: yc - hy,
        y1: yc + hy,
        w0: zc - hz - l.z_hi - l.e,
        w1: zc + hz - l.z_lo + l.e,
    }
}

// The cross-section of the ray at the cells iu and iv.
#[tactic(auto, unfolding(sweep_model::specs::Section::section_of))]
fn section_of(l: ChordOnAxis, iu: u64, iv: u64) -> Section
    ensures { result ≡ section_of l iu iv }
{
    let cu = center_of(l.u, iu);
    let cv = center_of(l.v, iv);
    let hu = l.u.step / 2.0;
    let hv = l.v.step / 2.0;
    if l.u_is_tool {
        section_with(l, cv, hv, cu, hu)
    } else {
        section_with(l, cu, hu, cv, hv)
    }
}

// An extent of the largest section, widened by the guard, in world coordinates.
#[tactic(auto, unfolding(sweep_model::specs::Across::outer_from))]
fn outer_from(l: ChordOnAxis, s: Strip) -> Strip
    ensures { result ≡ outer_from l s }
{
    match s {
        Strip::Miss => Strip::Miss,
        Strip::Hit(lo, hi) => {
            let q = frame::world(
                l.frame,
                l.la,
                Pair {
                    lo: lo - l.guard,
                    hi: hi + l.guard,
                },
            );
            Strip::Hit(q.lo, q.hi)
        }
    }
}

// Where the cutter may touch the ray's cross-section.
#[tactic(auto, unfolding(sweep_model::specs::Across::outer_of))]
fn outer_of(p: Profile, l: ChordOnAxis, s: Section) -> Strip
    ensures { result ≡ outer_of p l s }
{
    match cutter::cut_max(p.shape, p.cutter, s.w0, s.w1) {
        None => Strip::Miss,
        Some(r) => {
            outer_from(
                l,
                strips::stadium_strip(l.a, l.b, l.length, r + l.e, s.y0, s.y1),
            )
        }
    }
}

// What both edges of the cross-section have in common, narrowed by the guard, in world coordinates; [0, 0] for none.
#[tactic(auto, unfolding(sweep_model::specs::Across::inner_from))]
fn inner_from(l: ChordOnAxis, s: Strip, t: Strip) -> Pair
    ensures { result ≡ inner_from l s t }
{
    let none = Pair { lo: 0.0, hi: 0.0 };
    match (s, t) {
        (Strip::Hit(lo, hi), Strip::Hit(lo2, hi2)) => {
            let q = Pair {
                lo: doubles_minmax::larger(lo, lo2) + l.guard,
                hi: doubles_minmax::smaller(hi, hi2) - l.guard,
            };
            if q.lo < q.hi {
                frame::world(l.frame, l.la, q)
            } else {
                none
            }
        }
        _ => none,
    }
}

// Where the cutter certainly covers the ray's cross-section.
#[tactic(auto, unfolding(sweep_model::specs::Across::inner_of))]
fn inner_of(p: Profile, l: ChordOnAxis, s: Section) -> Pair
    ensures { result ≡ inner_of p l s }
{
    let none = Pair { lo: 0.0, hi: 0.0 };
    match cutter::cut_min(p.shape, p.cutter, s.w0, s.w1) {
        None => none,
        Some(r) => {
            let rho = r - l.e;
            if rho > 0.0 {
                inner_from(
                    l,
                    strips::stadium_strip(l.a, l.b, l.length, rho, s.y0, s.y0),
                    strips::stadium_strip(l.a, l.b, l.length, rho, s.y1, s.y1),
                )
            } else {
                none
            }
        }
    }
}

// What the ray at the cells iu and iv, whose possible list begins at record `head`, is given.
#[tactic(auto, unfolding(sweep_model::specs::Across::ray_hit_of))]
pub fn ray_hit(
    spans: &[f64],
    links: &[u64],
    n: usize,
    head: u64,
    p: Profile,
    l: ChordOnAxis,
    iu: u64,
    iv: u64,
) -> Option<HitPairs>
    requires { Readable n spans.now links.now head × (sound (list_from n spans.now links.now head) ≡ true) }
    ensures { result ≡ ray_hit_of p l (section_of l iu iv) (list_from n spans.now links.now head) }
{
    if !spans_meet(spans, links, n, head, l.reach) {
        return None;
    }
    let s = section_of(l, iu, iv);
    let Strip::Hit(lo, hi) = outer_of(p, l, s) else {
        return None;
    };
    let outer = Pair { lo, hi };
    if overlaps_at(spans, links, n, head, outer) {
        Some(HitPairs {
            outer,
            inner: inner_of(p, l, s),
        })
    } else {
        None
    }
}
