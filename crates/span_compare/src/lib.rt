// Two span lists compared: whether one has all points of the other, and whether they have one in common.
#![tactic(auto)]

ghost use Rattle.span_compare.specs.Verdicts.{ComparePost, compare_causes, Contains, Overlaps};

use refusal::Refusal;
use spans::both_sound;

// Whether each point of inner is in outer. 11: a list is not sound.
pub fn contains(outer: &[f64], inner: &[f64]) -> Result<bool, Refusal>
    ensures { ComparePost (compare_causes outer.now inner.now)
        (Contains outer.now inner.now) result }
{
    if !both_sound(outer, inner) {
        return Err(Refusal::Unsound);
    }
    Ok(span_cover::covers(outer, inner))
}

// Whether some point is in both lists. 11: a list is not sound.
pub fn overlaps(a: &[f64], b: &[f64]) -> Result<bool, Refusal>
    ensures { ComparePost (compare_causes a.now b.now) (Overlaps a.now b.now) result }
{
    if !both_sound(a, b) {
        return Err(Refusal::Unsound);
    }
    Ok(span_cover::meets(a, b))
}
