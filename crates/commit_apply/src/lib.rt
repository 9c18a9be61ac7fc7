// Applies an accepted log: the lists of all changed rays are replaced in the store.
#![tactic(auto)]

ghost use Rattle.commit_apply.specs.Apply.{ApplyPre, ApplyPost};
ghost use Rattle.store.specs.Store.{cells};

use grid::{DexelGrid, DexelStockSpec};

// Applies a log to the lists of a sound store: the entries are grouped and merged in the work buffer, then the lists
// of all changed rays are freed and laid again. Says how many rays changed.
pub fn apply_log(
    spec: DexelStockSpec,
    g: DexelGrid,
    spans: &mut [f64],
    links: &mut [u64],
    heads: &mut [u64],
    log: &[f64],
    work: &mut [f64],
) -> u64
    requires { ApplyPre spec g (cells spans.old links.old heads.old) log.now work.old }
    ensures { ApplyPost spec g (cells spans.old links.old heads.old)
        log.now work.old result
        (cells spans.new links.new heads.new) work.new }
{
    log_group::group(g, log, work);
    let changed = log_merge::merge_all(spec, g, spans, links, heads, log, work);
    let n = spec.max_intervals as usize;
    let rays = grid_rays::total_rays(g) as usize;
    let sizes = rays + log_entries::entry_count(log);
    log_lay::free_all(spans, links, heads, n, work, sizes, rays);
    log_lay::lay_all(spans, links, heads, n, work, sizes, sizes + 2 * rays, rays);
    spans::clear_from(work, 0);
    changed
}
