// The hits of some entries of a log taken from a list in ascending order, however many they are: one stretch of numbers after the other,
// each with as many hits as a lent buffer holds. Of the hits that begin at or before a stretch only how far they reach counts.
#![tactic(auto)]

ghost use Rattle.std.specs.Prelude.{◌<◌, length, take};
ghost use Rattle.store_read.specs.Reading.{Readable};
ghost use Rattle.log_model.specs.Logs.{entry_count};
ghost use Rattle.log_keys.specs.Keys.{hits_to};
ghost use Rattle.log_gather.specs.Gathering.{Shaped, WholePairs};
ghost use Rattle.log_stretches.specs.Stretches.{TakeHeldPost, TakeHitsPost};

use log_left::Rest;

// Takes the stretch from the list: what reaches into it from b on, then the first m cells, which are pairs in ascending order, as far as
// they begin in it.
fn take_held(
    spans: &[f64],
    links: &[u64],
    n: usize,
    r: Rest,
    cells: &[f64],
    m: usize,
    b: f64,
    end: f64,
    front: f64,
) -> Rest
    requires { Readable n spans.now links.now r.at × WholePairs cells.now m }
    ensures { TakeHeldPost n spans.now links.now b end front (take m cells.now) r result }
{
    let mut t = r;
    if b < front {
        t = log_left::take(spans, links, n, t, b, front);
    }
    for i in 0..m / 2 {
        let at = 2 * i;
        if !(cells[at] < end) {
            break;
        }
        t = log_left::take(spans, links, n, t, cells[at], cells[at + 1]);
    }
    t
}

// Takes from the list what the hits of the entries with these keys have between b and u, and what lies from b on below `front`. A key
// leaves the entry's place when it is divided by the number of entries.
pub fn take_hits(
    spans: &[f64],
    links: &[u64],
    n: usize,
    r: Rest,
    log: &[f64],
    keys: &[u64],
    certain: bool,
    cells: &mut [f64],
    b: f64,
    u: f64,
    front: f64,
) -> Rest
    requires { Readable n spans.now links.now r.at × Shaped cells.old × (0 < entry_count log.now) }
    ensures { TakeHitsPost n spans.now links.now b u front
        (hits_to log.now keys.now certain (length keys.now))
        cells.old cells.new r result }
{
    let mut t = r;
    let mut low = b;
    loop {
        let h = log_gather::gather(log, keys, certain, cells, low, u, front);
        let m = span_normalize::normalize_front(cells, h.count);
        t = take_held(spans, links, n, t, cells, m, low, h.end, h.front);
        if !(h.end < u) {
            break;
        }
        low = h.end;
    }
    t
}
