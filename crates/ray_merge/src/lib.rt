// The one-ray merge, in which possible loses the inner hits and certain the outer and the inner ones, and a ray's lists after it.
#![tactic(auto)]

ghost use Rattle.std.specs.Prelude.{◌≡◌, ◌+◌, ◌-◌, ◌*◌, ◌/◌, ◌%◌, ◌≤◌, ◌<◌, length, false};
ghost use Rattle.ray_merge.specs.Merge.{MergePost};
ghost use Rattle.ray_subtract.specs.Steps.{PlacedAt, NormalizedAt, MergeInputs, MergeListsPost};
ghost use Rattle.ray_subtract.specs.Subtract.{handed_back};
ghost use Rattle.ray_merge.specs.Handed.{possible_handed, certain_handed, PossibleStays, CertainStays};
ghost use Rattle.ray_merge.specs.Handed.{ListMoved, PossibleMoved, CertainMoved};

use ray_subtract::{MergedList, MergedLists};
use refusal::Refusal;

// Copies a list to cell `at`.
fn place(s: &[f64], w: &mut [f64], at: usize)
    requires { at + length s.now ≤ length w.old }
    ensures { PlacedAt s.now at w.old w.new }
{
    spans::copy_to(s, &mut w[at..], 0);
}

// Writes the sound list of arbitrary pairs to cell `at`.
fn place_normalized(s: &[f64], w: &mut [f64], at: usize) -> usize
    requires { (length s.now % 2 ≡ 0) × (at + length s.now ≤ length w.old) }
    ensures { NormalizedAt s.now at w.old w.new result }
{
    span_normalize::normalize_into(s, &mut w[at..])
}

// The merge of a sound ray: its lists and the hits are brought into the work buffer first.
fn merge_lists(
    possible: &[f64],
    certain: &[f64],
    outer: &[f64],
    inner: &[f64],
    work: &mut [f64],
) -> MergedLists
    requires { MergeInputs possible.now certain.now outer.now inner.now work.old }
    ensures { MergeListsPost possible.now certain.now outer.now
        inner.now work.old work.new result }
{
    let np = possible.len();
    let nc = certain.len();
    let at = np + nc + outer.len() + 2 * inner.len();
    let c = at + np;
    let o = c + nc;
    place(possible, work, at);
    place(certain, work, c);
    let no = place_normalized(outer, work, o);
    let i = o + no;
    let ni = place_normalized(inner, work, i);
    ray_subtract::merge_within(work, at, np, nc, no, ni)
}

// Merges the hits into a ray: possible loses the points of the inner hits, certain those of the outer and the inner
// ones. Where no boundary of a list moves, the caller's own list stays the ray's, otherwise the new one stands in the
// work buffer. 12: the work buffer has fewer than 4 pairs per pair of the ray and 8 per hit pair. 11: a list has part
// of a pair over, or the ray is not valid within its bounds.
pub fn merge(
    possible: &[f64],
    certain: &[f64],
    lo: f64,
    hi: f64,
    outer: &[f64],
    inner: &[f64],
    work: &mut [f64],
) -> Result<MergedLists, Refusal>
    ensures { MergePost lo hi possible.now certain.now outer.now inner.now
        work.old work.new result }
{
    if work.len() / 2
        < 4 * (possible.len() / 2 + certain.len() / 2) + 8 * (outer.len() / 2 + inner.len() / 2)
    {
        return Err(Refusal::ShortBuffer);
    }
    if outer.len() % 2 != 0
        || inner.len() % 2 != 0
        || !ray_check::valid_ray(possible, certain, lo, hi)
    {
        return Err(Refusal::Unsound);
    }
    let lists = merge_lists(possible, certain, outer, inner, work);
    spans::clear_from(
        work,
        ray_subtract::cells(lists.possible) + ray_subtract::cells(lists.certain),
    );
    Ok(lists)
}

// The new list at cell `at` of the work buffer, or the list from before where it did not move or the buffer ends too early.
fn handed_back<'a>(before: &'a [f64], work: &'a [f64], p: MergedList, at: usize) -> &'a [f64]
    ensures { (result.now ≡ handed_back p before.now work.now at) × (p.moved ≡ false → result ≡ before.entry)
        × ListMoved p work.entry at result }
{
    if !p.moved || work.len() < at || (work.len() - at) / 2 < p.pairs {
        return before;
    }
    &work[at..at + 2 * p.pairs]
}

// The ray's possible list after a merge, with this answer, of the list `before`.
pub fn possible_of<'a, E: Drop>(
    before: &'a [f64],
    work: &'a [f64],
    answer: Result<MergedLists, E>,
) -> &'a [f64]
    ensures { (result.now ≡ possible_handed answer before.now work.now) × (PossibleStays answer → result ≡ before.entry)
        × PossibleMoved answer work.entry result }
{
    match answer {
        Ok(lists) => handed_back(before, work, lists.possible, 0),
        Err(_) => before,
    }
}

// The ray's certain list after a merge, with this answer, of the list `before`.
pub fn certain_of<'a, E: Drop>(
    before: &'a [f64],
    work: &'a [f64],
    answer: Result<MergedLists, E>,
) -> &'a [f64]
    ensures { (result.now ≡ certain_handed answer before.now work.now) × (CertainStays answer → result ≡ before.entry)
        × CertainMoved answer work.entry result }
{
    match answer {
        Ok(lists) => {
            // No list stands past the work buffer, and twice the pairs may not fit.
            if lists.possible.moved && work.len() / 2 < lists.possible.pairs {
                return before;
            }
            let at = ray_subtract::cells(lists.possible);
            handed_back(before, work, lists.certain, at)
        }
        Err(_) => before,
    }
}
