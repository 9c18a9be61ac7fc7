// Why a call is refused: each cause has a number in the interface. The definitions in specs/ and their laws in proofs/ say which cause decides.
#![tactic(auto)]

ghost use Rattle.std.specs.Prelude.{◌≡◌};
ghost use Rattle.refusal.specs.Refusal.{number_of};

use std::error::Error;
use std::fmt;

/// Why a call is refused. Number 4 is retired: no call gives it.
#[derive(Clone, Copy, Debug, PartialEq, Eq, Hash)]
pub enum Refusal {
    /// 1: a blank's description is out of its limits.
    Description,
    /// 2: an axis has more cells, or all grids more rays, than the description allows.
    RayLimit,
    /// 3: the uncut stock has more intervals than the description allows.
    IntervalLimit,
    /// 5: a beam does not cut.
    Beam,
    /// 6: a tool's number is out of its limits.
    Tool,
    /// 7: a chord or the guard is out of its limits.
    Chord,
    /// 8: a visit is beyond the budget.
    VisitBudget,
    /// 9: more rays would change than allowed.
    RayBudget,
    /// 10: the stock would have more intervals than the description allows.
    IntervalBudget,
    /// 11: a list or a store is not sound, or a ray not valid within its bounds.
    Unsound,
    /// 12: a lent buffer is too short.
    ShortBuffer,
    /// 13: a change is no removal from its ray.
    Change,
    /// 14: the change list was made from another generation.
    BaseGeneration,
    /// 15: the generation is at its maximum.
    LastGeneration,
    /// 16: the log is full at a hit.
    LogFull,
    /// 17: a log entry names no ray.
    NoRay,
    /// 18: the text can't be read.
    Text,
    /// 19: the place is NaN.
    Place,
}

impl From<Refusal> for u32 {
    ghost from_gives = { λ r n. n ≡ number_of r };

    fn from(r: Refusal) -> u32 {
        match r {
            Refusal::Description => 1,
            Refusal::RayLimit => 2,
            Refusal::IntervalLimit => 3,
            Refusal::Beam => 5,
            Refusal::Tool => 6,
            Refusal::Chord => 7,
            Refusal::VisitBudget => 8,
            Refusal::RayBudget => 9,
            Refusal::IntervalBudget => 10,
            Refusal::Unsound => 11,
            Refusal::ShortBuffer => 12,
            Refusal::Change => 13,
            Refusal::BaseGeneration => 14,
            Refusal::LastGeneration => 15,
            Refusal::LogFull => 16,
            Refusal::NoRay => 17,
            Refusal::Text => 18,
            Refusal::Place => 19,
        }
    }
}

impl fmt::Display for Refusal {
    fn fmt<W: fmt::Write>(&self, f: &mut fmt::Formatter<W>) -> fmt::Result {
        write!(f, "refused {}", u32::from(*self))
    }
}

impl Error for Refusal {}
