// What two sound lists leave of each other: one less the other, and the points in both.
#![tactic(auto)]

ghost use Rattle.std.specs.Prelude.{length};
ghost use Rattle.spans.specs.Results.{ListPost};
ghost use Rattle.span_combine.specs.Combine.{combine_causes, LessOf, CommonOf};
ghost use Rattle.span_combine.specs.Steps.{CombineCheckPost};

use refusal::Refusal;

// Why two lists and a buffer of `room` cells are refused.
fn checked(a: &[f64], b: &[f64], room: usize) -> Result<(), Refusal>
    ensures { CombineCheckPost (combine_causes a.now b.now room) result }
{
    if room / 2 < a.len() / 2 + b.len() / 2 {
        return Err(Refusal::ShortBuffer);
    }
    if !spans::both_sound(a, b) {
        return Err(Refusal::Unsound);
    }
    Ok(())
}

// The sound list of a less b. 12: `out` has fewer pairs than a and b together. 11: a or b is not sound.
pub fn subtract(a: &[f64], b: &[f64], out: &mut [f64]) -> Result<usize, Refusal>
    ensures { ListPost (LessOf a.now b.now)
        (combine_causes a.now b.now (length out.old)) out.old out.new result }
{
    checked(a, b, out.len())?;
    let n = span_overlay::subtract_into(a, b, out);
    spans::clear_from(out, n);
    Ok(n / 2)
}

// The sound list of the points in both a and b. Refusals as for `subtract`.
pub fn intersect(a: &[f64], b: &[f64], out: &mut [f64]) -> Result<usize, Refusal>
    ensures { ListPost (CommonOf a.now b.now)
        (combine_causes a.now b.now (length out.old)) out.old out.new result }
{
    checked(a, b, out.len())?;
    let n = span_overlay::intersect_into(a, b, out);
    spans::clear_from(out, n);
    Ok(n / 2)
}
