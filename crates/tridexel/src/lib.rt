// The C interface: every entry under a C name. A slice is a pointer and a length, a number or an array handed back is a pointer.
// The result is document 01's refusal number, 0 where the call is accepted. A refused call leaves every number and cell as it was,
// but for 8 and 16, where the log of a sweep ends zero.
#![tactic(auto, using(c_results::proofs::Results::answered))]

pub mod commits;
pub mod stocks;
pub mod sweeps;

ghost use Rattle.spans.specs.Spans.{NormalOf};
ghost use Rattle.std.specs.Prelude.{length};
ghost use Rattle.spans.specs.Results.{ListPost};
ghost use Rattle.span_normalize.specs.Causes.{normalize_causes};
ghost use Rattle.span_combine.specs.Combine.{combine_causes, LessOf, CommonOf};
ghost use Rattle.span_compare.specs.Verdicts.{ComparePost, compare_causes, Contains, Overlaps};
ghost use Rattle.ray_merge.specs.Merge.{MergePost};
ghost use Rattle.ray_trace.specs.Trace.{TracePost};
ghost use Rattle.c_results.specs.Numbers.{AnsweredBy, list_numbers, bool_numbers, merge_numbers, part_cells};
ghost use Rattle.c_results.specs.Numbers.{trace_numbers, trace_cells};

// `span_normalize::normalize`; `pairs` becomes the number of pairs.
pub fn tridexel_normalize(spans: &[f64], out: &mut [f64], pairs: &mut usize) -> u32
    ensures { AnsweredBy list_numbers
        (ListPost (NormalOf spans.now) (normalize_causes spans.now (length out.old))
        out.old out.new)
        result pairs.old pairs.new }
{
    let l = span_normalize::normalize(spans, out);
    c_results::hand_list(l, pairs)
}

// `span_combine::subtract`; `pairs` becomes the number of pairs.
pub fn tridexel_subtract(a: &[f64], b: &[f64], out: &mut [f64], pairs: &mut usize) -> u32
    ensures { AnsweredBy list_numbers (ListPost (LessOf a.now b.now)
        (combine_causes a.now b.now (length out.old)) out.old out.new)
        result pairs.old pairs.new }
{
    let l = span_combine::subtract(a, b, out);
    c_results::hand_list(l, pairs)
}

// `span_combine::intersect`; `pairs` becomes the number of pairs.
pub fn tridexel_intersect(a: &[f64], b: &[f64], out: &mut [f64], pairs: &mut usize) -> u32
    ensures { AnsweredBy list_numbers (ListPost (CommonOf a.now b.now)
        (combine_causes a.now b.now (length out.old)) out.old out.new)
        result pairs.old pairs.new }
{
    let l = span_combine::intersect(a, b, out);
    c_results::hand_list(l, pairs)
}

// `span_compare::contains`; `yes` becomes 1 or 0.
pub fn tridexel_contains(outer: &[f64], inner: &[f64], yes: &mut u32) -> u32
    ensures { AnsweredBy bool_numbers (ComparePost (compare_causes outer.now inner.now)
        (Contains outer.now inner.now))
        result yes.old yes.new }
{
    let t = span_compare::contains(outer, inner);
    c_results::hand_bool(t, yes)
}

// `span_compare::overlaps`; `yes` becomes 1 or 0.
pub fn tridexel_overlaps(a: &[f64], b: &[f64], yes: &mut u32) -> u32
    ensures { AnsweredBy bool_numbers (ComparePost (compare_causes a.now b.now)
        (Overlaps a.now b.now))
        result yes.old yes.new }
{
    let t = span_compare::overlaps(a, b);
    c_results::hand_bool(t, yes)
}

// `ray_merge::merge`; for possible and certain, in this order, `moved` becomes 1 where the list is a new one in the
// work buffer and 0 where it is the caller's own, and `pairs` the number of its pairs.
pub fn tridexel_merge(
    possible: &[f64],
    certain: &[f64],
    lo: f64,
    hi: f64,
    outer: &[f64],
    inner: &[f64],
    work: &mut [f64],
    moved: &mut [u32; 2],
    pairs: &mut [usize; 2],
) -> u32
    ensures { AnsweredBy merge_numbers (MergePost lo hi possible.now certain.now
        outer.now inner.now work.old work.new) result
        (part_cells moved.old pairs.old) (part_cells moved.new pairs.new) }
{
    let m = ray_merge::merge(possible, certain, lo, hi, outer, inner, work);
    c_results::hand_merge(m, moved, pairs)
}

// `ray_trace::trace`; `reason` becomes 1 not possible before, 2 removed, 3 made uncertain, 4 not certain before, 5 still certain, and
// `by_entry` the number of the entry that removed the place or made it uncertain, counted from 1, else 0.
pub fn tridexel_trace(
    possible: &[f64],
    certain: &[f64],
    lo: f64,
    hi: f64,
    log: &[f64],
    place: f64,
    reason: &mut u32,
    by_entry: &mut usize,
) -> u32
    ensures { AnsweredBy trace_numbers (TracePost lo hi possible.now certain.now
        log.now place) result
        (trace_cells reason.old by_entry.old) (trace_cells reason.new by_entry.new) }
{
    let t = ray_trace::trace(possible, certain, lo, hi, log, place);
    c_results::hand_trace(t, reason, by_entry)
}
