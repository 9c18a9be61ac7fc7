// A reader over a lent list of hits: it holds the list and its place, and hands out the next pair that is not dropped.
#![tactic(auto)]

ghost use Rattle.std.specs.Prelude.{◌≡◌, ◌-◌, drop, length};
ghost use Rattle.std.specs.Iterator.{at_most};
ghost use Rattle.span_hits.specs.Hits.{next_hit, found_as};

// A pair with lo < hi.
#[derive(Clone, Copy, Debug, PartialEq, Drop)]
pub struct Hit {
    pub lo: f64,
    pub hi: f64,
}

// The list that is lent, and the place of the next pair.
#[derive(Clone, Copy, Drop)]
pub struct HitReader<'a> {
    pub hits: &'a [f64],
    pub at: usize,
}

// A hit, if one was left, and the place past it.
#[derive(Clone, Copy, Debug, PartialEq)]
pub struct Found {
    pub hit: Option<Hit>,
    pub at: usize,
}

// The first pair from place `from` on with lo < hi. A last double that is no pair is passed over.
pub fn hit_from(hits: &[f64], from: usize) -> Found
    ensures { result ≡ next_hit from (drop from hits.now) }
{
    let mut at = from;
    while 1 < hits.len().saturating_sub(at) {
        let lo = hits[at];
        let hi = hits[at + 1];
        at += 2;
        if lo < hi {
            return Found {
                hit: Some(Hit { lo, hi }),
                at,
            };
        }
    }
    Found { hit: None, at }
}

impl<'a> HitReader<'a> {
    // A reader at the start of a list.
    pub fn new(hits: &'a [f64]) -> HitReader<'a>
        ensures { (result.hits ≡ hits.entry) × (result.at ≡ 0) }
    {
        HitReader { hits, at: 0 }
    }
}

// The pairs that are not dropped, in order; the place moves past each.
impl<'a> Iterator for HitReader<'a> {
    type Item = Hit;

    ghost next_gives = { λ r hit s. (s.hits ≡ r.hits)
        × (found_as hit s.at ≡ next_hit r.at (drop r.at r.hits.now)) };

    ghost remaining = { λ r. at_most (length r.hits.now - r.at) };

    fn next(&mut self) -> Option<Hit> {
        let found = hit_from(self.hits, self.at);
        self.at = found.at;
        found.hit
    }
}
