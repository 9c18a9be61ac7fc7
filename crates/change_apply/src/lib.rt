// Frees and lays the lists of the rays that a change list names. All are freed before the first is laid.
#![tactic(auto)]

ghost use Rattle.std.specs.Prelude.{◌≡◌, List, ℕ, ◌+◌, ◌*◌, ◌^◌, ◌<◌, Float};
ghost use Rattle.store.specs.Updates.{laid_all, applied};
ghost use Rattle.change_apply.specs.Passes.{ChangesFit, FreeChangesPost, ChangesFreed};
ghost use Rattle.change_list.specs.Changes.{updates_in};
ghost use Rattle.store.specs.Store.{cells};

use grid::{DexelGrid, DexelStockSpec};

// Frees the lists of all changed rays.
fn free_changes(
    spec: DexelStockSpec,
    g: DexelGrid,
    spans: &mut [f64],
    links: &mut [u64],
    heads: &mut [u64],
    changes: &[u64],
)
    requires { (total : ℕ) × (pairs : List Float)
        × ChangesFit spec g (cells spans.old links.old heads.old) total changes.now pairs }
    ensures { FreeChangesPost spec g changes.now
        (cells spans.old links.old heads.old)
        (cells spans.new links.new heads.new) }
{
    let count = changes.len() / 6;
    for k in 0..count {
        let h = change_list::head(changes, k);
        let ray = change_list::ray_named(g, h);
        store_write::free_ray(
            spans,
            links,
            heads,
            spec.max_intervals as usize,
            ray as usize,
        );
    }
}

// The cell past two lists that begin at cell `at`.
fn past_lists(at: usize, possible: usize, certain: usize) -> usize
    requires { at + 2 * possible + 2 * certain < 2 ^ 64 }
    ensures { result ≡ at + 2 * possible + 2 * certain }
{
    at + 2 * possible + 2 * certain
}

// Lays the new lists of all changed rays, with one rising place before which no record is free.
fn lay_changes(
    spec: DexelStockSpec,
    g: DexelGrid,
    spans: &mut [f64],
    links: &mut [u64],
    heads: &mut [u64],
    changes: &[u64],
    pairs: &[f64],
)
    requires { ChangesFreed spec g changes.now pairs.now (cells spans.old links.old heads.old) }
    ensures { cells spans.new links.new heads.new
        ≡ laid_all spec.max_intervals (cells spans.old links.old heads.old)
        (updates_in g changes.now pairs.now) }
{
    let count = changes.len() / 6;
    let mut at: usize = 0;
    let mut from: usize = 0;
    for k in 0..count {
        let h = change_list::head(changes, k);
        let ray = change_list::ray_named(g, h);
        let after = past_lists(at, h.before_possible, h.before_certain);
        from = store_write::lay_ray(
            spans,
            links,
            heads,
            spec.max_intervals as usize,
            from,
            ray as usize,
            pairs,
            after,
            h.after_possible,
            h.after_certain,
        );
        at = past_lists(after, h.after_possible, h.after_certain);
    }
}

// Frees the lists of all changed rays, then lays the new ones.
pub fn apply_changes(
    spec: DexelStockSpec,
    g: DexelGrid,
    spans: &mut [f64],
    links: &mut [u64],
    heads: &mut [u64],
    changes: &[u64],
    pairs: &[f64],
)
    requires { (total : ℕ) × ChangesFit spec g (cells spans.old links.old heads.old) total changes.now pairs.now }
    ensures { cells spans.new links.new heads.new
        ≡ applied spec.max_intervals (cells spans.old links.old heads.old)
        (updates_in g changes.now pairs.now) }
{
    free_changes(spec, g, spans, links, heads, changes);
    lay_changes(spec, g, spans, links, heads, changes, pairs);
}
