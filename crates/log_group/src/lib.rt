// Groups the entries of a log by ray: the entries of each ray are chained in the work buffer, in the log's order.
#![tactic(auto)]

ghost use Rattle.std.specs.Prelude.{◌≡◌, ◌+◌, ◌<◌, ◌≤◌, length, get_or, set};
ghost use Rattle.std.specs.Float.{nan};
ghost use Rattle.log_numbers.specs.Numbers.{number_cell};
ghost use Rattle.grid.specs.Rays.{ray_count};
ghost use Rattle.log_model.specs.Logs.{entries, entry_count, hit_lo, hit_hi, hits_on_ray};
ghost use Rattle.log_entries.specs.Named.{EachNamed};
ghost use Rattle.store_read.specs.Reading.{ReadListPost};
ghost use Rattle.log_group.specs.Groups.{Grouped, GroupPost};
ghost use Rattle.log_model.specs.Steps.{hit_kind_of};

use grid::DexelGrid;
use log_model::Entry;

// Puts place i in front of the chain of the ray.
fn link(work: &mut [f64], rays: usize, ray: usize, i: usize)
    requires { (ray < rays) × (rays + i < length work.old) }
    ensures { work.new ≡ set (set work.old (rays + i) (get_or work.old ray nan))
        ray (number_cell (i + 1)) }
{
    work[rays + i] = work[ray];
    log_numbers::put_number(work, ray, (i + 1) as u64);
}

// Chains the entries of each ray. Each goes in front of those behind it, so that no entry is looked at twice.
pub fn group(g: DexelGrid, log: &[f64], work: &mut [f64])
    requires { EachNamed g log.now × (ray_count g + entry_count log.now ≤ length work.old) }
    ensures { GroupPost g log.now work.old work.new }
{
    let rays = grid_rays::total_rays(g) as usize;
    work[..rays].fill(0.0);
    let entries = log_entries::entry_count(log);
    for i in (0..entries).rev() {
        let ray = log_entries::ray_at(g, log, i);
        link(work, rays, ray, i);
    }
}

// Copies the entry's outer or inner pair to cell t.
fn put_hit(e: Entry, inner: bool, work: &mut [f64], t: usize)
    requires { t + 1 < length work.old }
    ensures { work.new ≡ set (set work.old t (hit_lo (hit_kind_of inner) e)) (t + 1) (hit_hi (hit_kind_of inner) e) }
{
    if inner {
        work[t] = e.inner_lo;
        work[t + 1] = e.inner_hi;
        return;
    }
    work[t] = e.outer_lo;
    work[t + 1] = e.outer_hi;
}

// Copies the outer or the inner pairs of the entries on a ray into the buffer from cell `at` on, past the chains, and
// says which cell is past them.
pub fn gather_hits(
    g: DexelGrid,
    log: &[f64],
    work: &mut [f64],
    ray: usize,
    inner: bool,
    at: usize,
) -> usize
    requires { Grouped g log.now work.old × (ray < ray_count g) × (ray_count g + entry_count log.now ≤ at)
        × (at + length (hits_on_ray g (entries log.now) ray (hit_kind_of inner)) ≤ length work.old) }
    ensures { ReadListPost (hits_on_ray g (entries log.now) ray (hit_kind_of inner)) work.old
        at work.new result }
{
    let rays = grid_rays::total_rays(g) as usize;
    let mut t = at;
    let mut k = log_numbers::number_at(work, ray);
    while k != 0 {
        let i = (k - 1) as usize;
        put_hit(log_entries::entry_at(log, i), inner, work, t);
        k = log_numbers::number_at(work, rays + i);
        t += 2;
    }
    t
}
