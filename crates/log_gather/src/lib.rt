// The hits of some entries of a log, gathered in a lent buffer for one stretch of numbers: as many as fit, which decides where the
// stretch ends.
#![tactic(auto)]

ghost use Rattle.std.specs.Prelude.{◌<◌, ◌≡◌, length};
ghost use Rattle.spans.specs.Overlay.{lower_of};
ghost use Rattle.log_model.specs.Logs.{entry_count};
ghost use Rattle.log_keys.specs.Keys.{hits_to};
ghost use Rattle.log_gather.specs.Gathering.{Shaped, WholePairs, MakeRoomPost, PutPost, PutEntryPost, GatherPost};

use log_model::Entry;

// The hits of a stretch as they are gathered: the cells in use, where the stretch ends, and how far the hits that begin at or before
// its start reach.
#[derive(Clone, Copy, Debug, PartialEq)]
pub struct HeldHits {
    pub count: usize,
    pub end: f64,
    pub front: f64,
}

// The first number, or the second where that is lower.
fn lower(x: f64, y: f64) -> f64
    ensures { result ≡ lower_of x y }
{
    if y < x { y } else { x }
}

// Room for a pair more: where the buffer is full its pairs are joined, and where that leaves it too full the stretch ends earlier, so that
// half of them go.
fn make_room(cells: &mut [f64], h: HeldHits) -> HeldHits
    requires { Shaped cells.old × WholePairs cells.old h.count }
    ensures { MakeRoomPost cells.old h cells.new result }
{
    let size = cells.len();
    if h.count < size {
        return h;
    }
    let m = span_normalize::normalize_front(cells, h.count);
    let half = size / 4 * 2;
    if m <= half + half / 2 {
        return HeldHits { count: m, ..h };
    }
    let middle = cells[half];
    HeldHits {
        count: half,
        end: lower(h.end, middle),
        ..h
    }
}

// One pair more of the hits from b on. A pair without lo < hi is none.
fn put(cells: &mut [f64], h: HeldHits, b: f64, lo: f64, hi: f64) -> HeldHits
    requires { Shaped cells.old × WholePairs cells.old h.count }
    ensures { PutPost b lo hi cells.old h cells.new result }
{
    if !(lo < hi) || hi <= h.front {
        return h;
    }
    if !(b < lo) {
        return HeldHits { front: hi, ..h };
    }
    if !(lo < h.end) {
        return h;
    }
    let w = make_room(cells, h);
    let at = w.count;
    cells[at] = lo;
    cells[at + 1] = hi;
    HeldHits { count: at + 2, ..w }
}

// The hits of an entry that the list loses: certain loses the outer one too.
fn put_entry(e: Entry, certain: bool, cells: &mut [f64], h: HeldHits, b: f64) -> HeldHits
    requires { Shaped cells.old × WholePairs cells.old h.count }
    ensures { PutEntryPost b e certain cells.old h cells.new result }
{
    if certain {
        let w = put(cells, h, b, e.outer_lo, e.outer_hi);
        return put(cells, w, b, e.inner_lo, e.inner_hi);
    }
    put(cells, h, b, e.inner_lo, e.inner_hi)
}

// Gathers the hits of all entries.
pub fn gather(
    log: &[f64],
    keys: &[u64],
    certain: bool,
    cells: &mut [f64],
    b: f64,
    u: f64,
    front: f64,
) -> HeldHits
    requires { Shaped cells.old × (0 < entry_count log.now) }
    ensures { GatherPost b u front (hits_to log.now keys.now certain (length keys.now))
        cells.old cells.new result }
{
    let n = log_entries::entry_count(log) as u64;
    let mut h = HeldHits {
        count: 0,
        end: u,
        front,
    };
    for key in keys {
        let e = log_entries::entry_at(log, (*key % n) as usize);
        h = put_entry(e, certain, cells, h, b);
    }
    h
}
