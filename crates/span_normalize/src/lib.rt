// The sound list of arbitrary pairs, in lent slices of doubles.
#![tactic(auto)]

ghost use Rattle.std.specs.Prelude.{◌≡◌, ◌+◌, ◌%◌, ◌≤◌, length, take, ◌++◌};
ghost use Rattle.spans.specs.Spans.{NormalOf};
ghost use Rattle.spans.specs.Results.{ListPost};
ghost use Rattle.spans.specs.Steps.{FilledFront};
ghost use Rattle.span_normalize.specs.Causes.{normalize_causes};

use pair_sort::sort_pairs;
use refusal::Refusal;

// Makes the first m cells, arbitrary pairs, their sound list. Every order of the pairs gives the same set: they are sorted so that each is
// worked in at the high end.
pub fn normalize_front(b: &mut [f64], m: usize) -> usize
    requires { (m % 2 ≡ 0) × (m ≤ length b.old) }
    ensures { FilledFront (NormalOf (take m b.old)) b.old m b.new result }
{
    sort_pairs(&mut b[..m]);
    span_join::join_all(b, m)
}

// Works further pairs into the list of the first n ends.
fn join_more(spans: &[f64], out: &mut [f64], n: usize) -> usize
    requires { (length spans.now % 2 ≡ 0) × (n % 2 ≡ 0) × (n + length spans.now ≤ length out.old) }
    ensures { FilledFront (NormalOf (take n out.old ++ spans.now)) out.old
        (n + length spans.now) out.new result }
{
    let m = span_join::gather(spans, out, n);
    normalize_front(out, m)
}

// Fills the front of `out` with the sound list of arbitrary pairs. Pairs that ascend or descend are joined as they are read.
pub fn normalize_into(spans: &[f64], out: &mut [f64]) -> usize
    requires { (length spans.now % 2 ≡ 0) × (length spans.now ≤ length out.old) }
    ensures { FilledFront (NormalOf spans.now) out.old (length spans.now) out.new result }
{
    let up = span_join::join_rising(spans, out);
    let k = up.passed;
    if spans.len() <= k {
        return up.end;
    }
    if 2 < up.end {
        return join_more(&spans[k..], out, up.end);
    }
    let down = span_join::join_falling(spans, out);
    let j = down.passed;
    if j == 0 {
        return down.end;
    }
    join_more(&spans[..j], out, down.end)
}

// The sound list of arbitrary pairs: those without lo < hi are dropped, touching ones joined.
// 12: `out` has fewer pairs than `spans`. 11: `spans` has a part of a pair over.
pub fn normalize(spans: &[f64], out: &mut [f64]) -> Result<usize, Refusal>
    ensures { ListPost (NormalOf spans.now) (normalize_causes spans.now (length out.old))
        out.old out.new result }
{
    if out.len() / 2 < spans.len() / 2 {
        return Err(Refusal::ShortBuffer);
    }
    if spans.len() % 2 != 0 {
        return Err(Refusal::Unsound);
    }
    let n = normalize_into(spans, out);
    spans::clear_from(out, n);
    Ok(n / 2)
}
