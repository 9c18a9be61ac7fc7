// A list of a lent store less hits that come in ascending order, counted while its chain is walked once: nothing is copied or written.
#![tactic(auto)]

ghost use Rattle.std.specs.Prelude.{◌≡◌, ◌-◌, ◌<◌, true, ◌≢◌};
ghost use Rattle.store_read.specs.Reading.{Readable};
ghost use Rattle.log_left.specs.Steps.{StartPost, BeginPost, ClosePairPost, CutPairPost, PassPost, TakePost, FinishPost};

// A list that is being walked. What comes before `from` is decided: whether a point of it was taken, and how many pairs are left of it.
// Undecided are the pair of the record from `from` on, and the pairs of the records behind it; with record 0 there is nothing more.
#[derive(Clone, Copy, Debug, PartialEq)]
pub struct Rest {
    pub at: u64,
    pub from: f64,
    pub moved: bool,
    pub left: u64,
}

// What became of a list: whether it changed, and how many pairs it has.
#[derive(Clone, Copy, Debug, PartialEq, Eq)]
pub struct ListLeft {
    pub moved: bool,
    pub pairs: u64,
}

// The walk at the start of a record's pair.
fn begin(spans: &[f64], links: &[u64], n: usize, at: u64, moved: bool, left: u64) -> Rest
    requires { Readable n spans.now links.now at }
    ensures { BeginPost spans.now at moved left result }
{
    if at == 0 {
        return Rest {
            at,
            from: 0.0,
            moved,
            left,
        };
    }
    let first = store::record_at(spans, links, (at - 1) as usize);
    Rest {
        at,
        from: first.lo,
        moved,
        left,
    }
}

// The walk at the start of a list, before any hit.
pub fn start(spans: &[f64], links: &[u64], n: usize, head: u64) -> Rest
    requires { Readable n spans.now links.now head }
    ensures { StartPost n spans.now links.now head result }
{
    begin(spans, links, n, head, false, 0)
}

// The present pair stays as it stands, and the walk goes on behind it. The count may wrap: whoever uses it knows a bound of it.
fn close_pair(spans: &[f64], links: &[u64], n: usize, r: Rest) -> Rest
    requires { Readable n spans.now links.now r.at × (r.at ≢ 0) }
    ensures { ClosePairPost spans.now links.now r result }
{
    let k = r.at;
    let present = store::record_at(spans, links, (k - 1) as usize);
    let left = std::num::wrapping_add_u64(r.left, 1);
    begin(spans, links, n, present.next, r.moved, left)
}

// Closes the pairs that end at or before lo.
fn pass(spans: &[f64], links: &[u64], n: usize, r: Rest, lo: f64) -> Rest
    requires { Readable n spans.now links.now r.at }
    ensures { PassPost n spans.now links.now lo r result }
{
    let mut t = r;
    while t.at != 0 {
        let k = t.at;
        let present = store::record_at(spans, links, (k - 1) as usize);
        if !(present.hi <= lo) {
            break;
        }
        t = close_pair(spans, links, n, t);
    }
    t
}

// Takes the hit [lo, hi) from what is undecided of the present pair, which it reaches.
fn cut_pair(spans: &[f64], links: &[u64], n: usize, r: Rest, lo: f64, hi: f64) -> Rest
    requires { Readable n spans.now links.now r.at × (r.at ≢ 0) }
    ensures { CutPairPost n spans.now links.now lo hi r result }
{
    let k = r.at;
    let present = store::record_at(spans, links, (k - 1) as usize);
    let mut left = r.left;
    if r.from < lo {
        left = std::num::wrapping_add_u64(left, 1);
    }
    if hi < present.hi {
        return Rest {
            at: k,
            from: hi,
            moved: true,
            left,
        };
    }
    begin(spans, links, n, present.next, true, left)
}

// Takes the hit [lo, hi), which begins at or after all that were taken before.
pub fn take(spans: &[f64], links: &[u64], n: usize, r: Rest, lo: f64, hi: f64) -> Rest
    requires { Readable n spans.now links.now r.at }
    ensures { TakePost n spans.now links.now lo hi r result }
{
    let mut t = pass(spans, links, n, r, lo);
    while t.at != 0 {
        if !(t.from < hi) {
            break;
        }
        t = cut_pair(spans, links, n, t, lo, hi);
    }
    t
}

// The end of the walk: what is undecided stays as it stands.
pub fn finish(spans: &[f64], links: &[u64], n: usize, r: Rest) -> ListLeft
    requires { Readable n spans.now links.now r.at }
    ensures { FinishPost n spans.now links.now r result }
{
    let rest = store_read::list_pairs(links, n, r.at) as u64;
    ListLeft {
        moved: r.moved,
        pairs: std::num::wrapping_add_u64(r.left, rest),
    }
}
