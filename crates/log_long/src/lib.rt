// The entries of one ray in a log, gathered in a lent buffer for one stretch of numbers: those with a hit that begins in it, as many as
// fit, which decides where the stretch ends. Of the hits that begin at or before its start only how far they reach is kept.
#![tactic(auto)]

ghost use Rattle.std.specs.Prelude.{◌≡◌, ◌+◌, ◌*◌, ◌^◌, ◌<◌, ◌≤◌, length, slice_index};
ghost use Rattle.std.specs.Float.Ieee.{lt};
ghost use Rattle.grid.specs.Rays.{ray_count};
ghost use Rattle.log_model.specs.Logs.{entry_at, entry_count};
ghost use Rattle.log_entries.specs.Named.{EachNamed};
ghost use Rattle.log_keys.specs.KeysKept.{KeysKept};
ghost use Rattle.log_long.specs.Long.{begin_past, least_past, further_of, InLog, LongRoomPost, AddKeyPost, AddFrontsPost, GathersTo};

use grid::DexelGrid;
use log_model::Entry;

// A group has so many keys, an odd number, so that one is in the middle, and there are as many groups; and the cells of as many pairs.
const GROUP: usize = 55;

const CELLS: usize = 110;

// How many keys there are, and where the stretch ends.
#[derive(Clone, Copy, Debug, PartialEq)]
pub struct HeldKeys {
    pub count: usize,
    pub end: f64,
}

// The keys, and how far the outer and the inner hits reach that begin at or before the start of the stretch.
#[derive(Clone, Copy, Debug, PartialEq)]
pub struct LongPart {
    pub keys: HeldKeys,
    pub outer: f64,
    pub inner: f64,
}

// Where the hit begins, if that is past b, or else plus infinity.
fn begin_past(b: f64, lo: f64, hi: f64) -> f64
    ensures { result ≡ begin_past b lo hi }
{
    if lo < hi && b < lo { lo } else { f64::INFINITY }
}

// Where the first of the entry's hits begins that begins past b, or plus infinity where none does.
fn least_past(b: f64, e: Entry) -> f64
    ensures { result ≡ least_past b e }
{
    let x = begin_past(b, e.outer_lo, e.outer_hi);
    let y = begin_past(b, e.inner_lo, e.inner_hi);
    if y < x { y } else { x }
}

// How far the hits that begin at or before b reach, with one hit more.
fn further(front: f64, b: f64, lo: f64, hi: f64) -> f64
    ensures { result ≡ further_of front b lo hi }
{
    if lo < hi && !(b < lo) && front < hi {
        hi
    } else {
        front
    }
}

// Keeps those of the first m keys whose entries have a hit that begins between b and u.
fn keep_below(b: f64, log: &[f64], keys: &mut [u64], m: usize, u: f64) -> usize
    requires { InLog log.now keys.old m }
    ensures { KeysKept (λ key. lt (least_past b (entry_at log.now key)) u) keys.old m
        keys.new result }
{
    let mut k: usize = 0;
    for i in 0..m {
        let e = log_entries::entry_at(log, keys[i] as usize);
        let kept = least_past(b, e) < u;
        k = log_keys::keep(keys, k, i, kept);
    }
    k
}

// Puts as pair i where the first hit past b of the entry with the key at place q begins, and the place.
fn put_place(b: f64, log: &[f64], keys: &[u64], q: usize, cells: &mut [f64], i: usize)
    requires { (q < length keys.now) × (slice_index keys.now q < entry_count log.now) × (2 * i + 1 < length cells.old) }
{
    let e = log_entries::entry_at(log, keys[q] as usize);
    cells[2 * i] = least_past(b, e);
    cells[2 * i + 1] = std::num::nearest_u64_to_f64(q as u64);
}

// The place in the middle one of the pairs of a group. That it is below m is tested, so that nothing rests on the sort.
fn middle_place(cells: &mut [f64], m: usize) -> usize
    requires { (0 < m) × (55 < length cells.old) }
    ensures { result < m }
{
    pair_sort::sort_pairs(cells);
    let q = doubles::to_u64(cells[GROUP]) as usize;
    if q < m { q } else { 0 }
}

// The place of the middle one of a group of keys, by where their entries begin: the key at place `at`, and every `step`-th from there.
fn group_middle(b: f64, log: &[f64], keys: &[u64], m: usize, at: usize, step: usize) -> usize
    requires { InLog log.now keys.now m × (at + 54 * step < m) }
    ensures { result < m }
{
    let mut cells = [0.0; CELLS];
    for i in 0..GROUP {
        put_place(b, log, keys, at + i * step, &mut cells, i);
    }
    middle_place(&mut cells, m)
}

// The place of the middle one of the middle ones of as many groups, which stand one behind the other.
fn middle_of_groups(b: f64, log: &[f64], keys: &[u64], m: usize) -> usize
    requires { InLog log.now keys.now m × (0 < m) }
    ensures { result < m }
{
    let size = m / GROUP;
    let mut cells = [0.0; CELLS];
    for i in 0..GROUP {
        let q = group_middle(b, log, keys, m, i * size, size / GROUP);
        put_place(b, log, keys, q, &mut cells, i);
    }
    middle_place(&mut cells, m)
}

// How many of the first m keys have entries that begin below u.
fn count_below(b: f64, log: &[f64], keys: &[u64], m: usize, u: f64) -> usize
    requires { InLog log.now keys.now m }
{
    let mut k: usize = 0;
    for key in &keys[..m] {
        let e = log_entries::entry_at(log, *key as usize);
        k += (least_past(b, e) < u) as usize;
    }
    k
}

// The place of a key near the middle of the first m, by where their entries begin. In most logs the middle one of a group that is spread
// over all of them is; where it is not in the middle half, the groups are asked. Of 3,072 entries at least a quarter begins no later, and
// a quarter no earlier, whatever their order. Time alone rests on that, and the benchmark holds it.
fn near_middle(b: f64, log: &[f64], keys: &[u64], m: usize) -> usize
    requires { InLog log.now keys.now m × (0 < m) }
    ensures { result < m }
{
    let q = group_middle(b, log, keys, m, 0, m / GROUP);
    let e = log_entries::entry_at(log, keys[q] as usize);
    let k = count_below(b, log, keys, m, least_past(b, e));
    if m / 4 <= k && k <= m - m / 4 {
        return q;
    }
    middle_of_groups(b, log, keys, m)
}

// Ends the stretch earlier, near the middle of where its entries begin, so that there is room for a key more.
fn shorten(b: f64, log: &[f64], keys: &mut [u64], w: HeldKeys) -> HeldKeys
    requires { InLog log.now keys.old w.count × (0 < w.count) }
    ensures { LongRoomPost b log.now keys.old w keys.new result }
{
    let m = w.count;
    let q = near_middle(b, log, keys, m);
    let end = least_past(b, log_entries::entry_at(log, keys[q] as usize));
    let count = keep_below(b, log, keys, m, end);
    HeldKeys { count, end }
}

// Makes room for a key more, if there is none.
fn roomy(b: f64, log: &[f64], keys: &mut [u64], w: HeldKeys) -> HeldKeys
    requires { InLog log.now keys.old w.count × (0 < length keys.old) }
    ensures { LongRoomPost b log.now keys.old w keys.new result }
{
    if w.count < keys.len() {
        return w;
    }
    shorten(b, log, keys, w)
}

// The key of the entry at place i, whose first hit past b begins at k, if that is in the stretch.
fn add_key(b: f64, log: &[f64], keys: &mut [u64], w: HeldKeys, i: usize, k: f64) -> HeldKeys
    requires { InLog log.now keys.old w.count × (0 < length keys.old) × (i < entry_count log.now)
        × (k ≡ least_past b (entry_at log.now i)) }
    ensures { AddKeyPost b i log.now keys.old w keys.new result }
{
    if !(k < w.end) {
        return w;
    }
    let t = roomy(b, log, keys, w);
    if !(k < t.end) {
        return t;
    }
    let at = t.count;
    keys[at] = i as u64;
    HeldKeys {
        count: at + 1,
        end: t.end,
    }
}

// The part with these keys, and with how far the hits of the entry reach, if they begin at or before b.
fn add_fronts(b: f64, e: Entry, w: LongPart, keys: HeldKeys) -> LongPart
    ensures { AddFrontsPost b e w keys result }
{
    LongPart {
        keys,
        outer: further(w.outer, b, e.outer_lo, e.outer_hi),
        inner: further(w.inner, b, e.inner_lo, e.inner_hi),
    }
}

// The part with the entry at place i, if that is on the ray.
fn add_entry(
    g: DexelGrid,
    log: &[f64],
    ray: usize,
    b: f64,
    keys: &mut [u64],
    w: LongPart,
    i: usize,
) -> LongPart
    requires { (ray_count g ≤ 2 ^ 53) × EachNamed g log.now × (0 < length keys.old) × (i < entry_count log.now)
        × GathersTo g log.now ray b i keys.old w }
    ensures { (length keys.new ≡ length keys.old)
        × GathersTo g log.now ray b (i + 1) keys.new result }
{
    if log_entries::ray_at(g, log, i) == ray {
        let e = log_entries::entry_at(log, i);
        let held = w.keys;
        let t = add_key(b, log, keys, held, i, least_past(b, e));
        return add_fronts(b, e, w, t);
    }
    w
}

// Gathers the entries of the ray for the stretch from b on, which reaches to plus infinity where all of them fit.
pub fn gather_ray(g: DexelGrid, log: &[f64], ray: usize, b: f64, keys: &mut [u64]) -> LongPart
    requires { (ray_count g ≤ 2 ^ 53) × EachNamed g log.now × (0 < length keys.old) }
    ensures { (length keys.new ≡ length keys.old)
        × GathersTo g log.now ray b (entry_count log.now) keys.new result }
{
    let n = log_entries::entry_count(log);
    let held = HeldKeys {
        count: 0,
        end: f64::INFINITY,
    };
    let mut w = LongPart {
        keys: held,
        outer: f64::NEG_INFINITY,
        inner: f64::NEG_INFINITY,
    };
    for i in 0..n {
        w = add_entry(g, log, ray, b, keys, w, i);
    }
    w
}
