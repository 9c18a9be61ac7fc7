// Why a place on a ray shows as it does: which log entry removed it or made it uncertain, or that none did.
#![tactic(auto)]

ghost use Rattle.std.specs.Prelude.{◌≡◌};
ghost use Rattle.spans.specs.Spans.{holds};
ghost use Rattle.log_model.specs.Logs.{entries};
ghost use Rattle.log_model.specs.Steps.{hit_kind_of};
ghost use Rattle.ray_trace.specs.Reasons.{hit_holds, TrueReason};
ghost use Rattle.ray_trace.specs.Trace.{TracePost};
ghost use Rattle.ray_trace.specs.Steps.{FoundAt};

use log_model::Entry;
use refusal::Refusal;

// Why a place shows as it does, entries counted from 1.
#[derive(Clone, Copy, Debug, PartialEq, Eq)]
pub enum Reason {
    // Not possible before.
    NotPossible,
    // Possible before and removed, by this entry, the first whose inner pair holds the place.
    RemovedBy(usize),
    // Certain before and no longer, in no inner pair, through this entry, the first whose outer pair holds the place.
    UncertainBy(usize),
    // Possible but not certain before, and in no inner pair.
    NotCertain,
    // Still certain.
    StillCertain,
}

// Whether some pair of the list holds p.
fn holds_at(s: &[f64], p: f64) -> bool
    ensures { result ≡ holds s.now p }
{
    for pair in s.chunks_exact(2) {
        if pair[0] <= p && p < pair[1] {
            return true;
        }
    }
    false
}

// Whether the entry's inner or outer pair holds p.
#[tactic(auto, unfolding(log_model::specs::Logs::hit_lo, log_model::specs::Logs::hit_hi))]
fn hit_holds(e: Entry, inner: bool, p: f64) -> bool
    ensures { result ≡ hit_holds (hit_kind_of inner) e p }
{
    if inner {
        e.inner_lo <= p && p < e.inner_hi
    } else {
        e.outer_lo <= p && p < e.outer_hi
    }
}

// The number of the first entry whose inner or outer pair holds p, counted from 1.
fn first_holding(log: &[f64], inner: bool, p: f64) -> Option<usize>
    ensures { FoundAt (hit_kind_of inner) (entries log.now) p result }
{
    for i in 0..log_entries::entry_count(log) {
        if hit_holds(log_entries::entry_at(log, i), inner, p) {
            return Some(i + 1);
        }
    }
    None
}

// The true reason of a place.
fn reason_of(possible: &[f64], certain: &[f64], log: &[f64], place: f64) -> Reason
    ensures { TrueReason possible.now certain.now (entries log.now) place result }
{
    if !holds_at(possible, place) {
        return Reason::NotPossible;
    }
    if let Some(k) = first_holding(log, true, place) {
        return Reason::RemovedBy(k);
    }
    if !holds_at(certain, place) {
        return Reason::NotCertain;
    }
    match first_holding(log, false, place) {
        Some(k) => Reason::UncertainBy(k),
        None => Reason::StillCertain,
    }
}

// Why the place shows as it does on the ray that had these lists before the entries of the log were merged into it. Every entry counts as
// one of this ray, whatever its axis and index are. 11: part of an entry is over, or the ray is not valid within its bounds. 19: the place
// is NaN.
pub fn trace(
    possible: &[f64],
    certain: &[f64],
    lo: f64,
    hi: f64,
    log: &[f64],
    place: f64,
) -> Result<Reason, Refusal>
    ensures { TracePost lo hi possible.now certain.now log.now place result }
{
    if !log_entries::is_whole_log(log) || !ray_check::valid_ray(possible, certain, lo, hi) {
        return Err(Refusal::Unsound);
    }
    if place.is_nan() {
        return Err(Refusal::Place);
    }
    Ok(reason_of(possible, certain, log, place))
}
