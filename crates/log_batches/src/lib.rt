// The entries of a batch of rays, gathered as keys in a lent buffer and sorted, so that those of a ray stand together. The batch has as
// many rays as their entries fit the buffer.
#![tactic(auto)]

ghost use Rattle.std.specs.Prelude.{◌+◌, ◌*◌, ◌^◌, ◌<◌, ◌≤◌, length, nat_lt};
ghost use Rattle.grid.specs.Rays.{ray_count};
ghost use Rattle.log_model.specs.Logs.{entry_count};
ghost use Rattle.log_entries.specs.Named.{EachNamed};
ghost use Rattle.log_keys.specs.KeysKept.{KeysKept};
ghost use Rattle.log_batches.specs.Batches.{AddPre, BatchRoomPost, AddPost, GatherRaysPost, SameKeys, KeysAscend};

use grid::DexelGrid;

// How many rays the batch has, and how many keys. There is none where the entries of its first ray alone do not fit:
// the keys then say nothing.
#[derive(Clone, Copy, Debug, PartialEq, Eq)]
pub struct Batch {
    pub width: usize,
    pub count: usize,
}

// Keeps those of the first m keys that are below the limit.
fn narrow(keys: &mut [u64], m: usize, limit: u64) -> usize
    requires { m ≤ length keys.old }
    ensures { KeysKept (λ key. nat_lt key limit) keys.old m keys.new result }
{
    let mut k: usize = 0;
    for i in 0..m {
        let kept = keys[i] < limit;
        k = log_keys::keep(keys, k, i, kept);
    }
    k
}

// Room for a key more: the batch loses its last rays until there is, unless one ray alone fills the buffer.
fn make_room(keys: &mut [u64], w: Batch, n: u64) -> Option<Batch>
    requires { AddPre n keys.old w }
    ensures { BatchRoomPost n keys.old w keys.new result }
{
    let mut t = w;
    while t.count == keys.len() {
        if t.width == 1 {
            return None;
        }
        let width = t.width - (t.width + 7) / 8;
        let count = narrow(keys, t.count, (width as u64) * n);
        t = Batch { width, count };
    }
    Some(t)
}

// The entry at place i of n, on a ray, if the batch has that ray. How far a ray below the first is past it wraps to more than any width, so
// that one test, which a processor can foresee, passes the others over.
fn add(keys: &mut [u64], w: Batch, first: usize, ray: usize, n: usize, i: usize) -> Option<Batch>
    requires { AddPre n keys.old w × (i < n) × (first + w.width ≤ 2 ^ 64) }
    ensures { AddPost first ray n i keys.old w keys.new result }
{
    let d = std::num::wrapping_sub_usize(ray, first);
    if w.width <= d {
        return Some(w);
    }
    let t = make_room(keys, w, n as u64)?;
    if t.width <= d {
        return Some(t);
    }
    let at = t.count;
    keys[at] = (d as u64) * (n as u64) + (i as u64);
    let count = at + 1;
    Some(Batch {
        width: t.width,
        count,
    })
}

// Gathers the entries of the rays from `first` on, of `width` rays or as many as fit.
pub fn gather_rays(
    g: DexelGrid,
    log: &[f64],
    first: usize,
    width: usize,
    keys: &mut [u64],
) -> Option<Batch>
    requires { (ray_count g ≤ 2 ^ 53) × EachNamed g log.now × (0 < width) × (first + width ≤ 2 ^ 53)
        × (width * entry_count log.now < 2 ^ 64) }
    ensures { GatherRaysPost g log.now first width keys.old keys.new result }
{
    let n = log_entries::entry_count(log);
    let mut w = Batch { width, count: 0 };
    for i in 0..n {
        let ray = log_entries::ray_at(g, log, i);
        w = add(keys, w, first, ray, n, i)?;
    }
    Some(w)
}

// Sorts the first m keys.
pub fn sort_keys(keys: &mut [u64], m: usize)
    requires { m ≤ length keys.old }
    ensures same { SameKeys m keys.old keys.new }
    ensures ascend { KeysAscend keys.new m }
{
    keys[..m].sort_unstable();
}
