// Frees and lays the lists of the changed rays of a log commit. All are freed before the first is laid.
#![tactic(auto)]

ghost use Rattle.std.specs.Prelude.{◌≡◌, ℕ};
ghost use Rattle.store.specs.Updates.{freed_all, laid_all};
ghost use Rattle.log_lay.specs.Updates.{updates_from};
ghost use Rattle.log_lay.specs.Steps.{FreeIfChangedPre, FreeRaysPre, LayRaysPre, LayRaysPost};
ghost use Rattle.store.specs.Store.{cells};

// Frees both lists of a ray if it changes.
fn free_if_changed(
    spans: &mut [f64],
    links: &mut [u64],
    heads: &mut [u64],
    n: usize,
    work: &[f64],
    sizes: usize,
    ray: usize,
)
    requires { FreeIfChangedPre n (cells spans.old links.old heads.old) work.now sizes ray }
    ensures { (q : ℕ) → cells spans.new links.new heads.new
        ≡ freed_all n (cells spans.old links.old heads.old)
        (updates_from work.now sizes q ray 1) }
{
    if log_numbers::number_at(work, sizes + 2 * ray) == 0 {
        return;
    }
    store_write::free_ray(spans, links, heads, n, ray);
}

// Frees the lists of all rays that change, wherever their new lists stand.
pub fn free_all(
    spans: &mut [f64],
    links: &mut [u64],
    heads: &mut [u64],
    n: usize,
    work: &[f64],
    sizes: usize,
    rays: usize,
)
    requires { FreeRaysPre n (cells spans.old links.old heads.old) work.now sizes rays }
    ensures { (q : ℕ) → cells spans.new links.new heads.new
        ≡ freed_all n (cells spans.old links.old heads.old)
        (updates_from work.now sizes q 0 rays) }
{
    for ray in 0..rays {
        free_if_changed(spans, links, heads, n, work, sizes, ray);
    }
}

// Where laying stands: no record before place `from` is free, and the next new list stands at cell `at` of the work buffer.
#[derive(Clone, Copy, Debug, PartialEq, Eq)]
pub struct LayPlace {
    pub from: usize,
    pub at: usize,
}

// Lays both lists of a ray if it changes, possible first.
fn lay_if_changed(
    spans: &mut [f64],
    links: &mut [u64],
    heads: &mut [u64],
    n: usize,
    work: &[f64],
    sizes: usize,
    ray: usize,
    place: LayPlace,
) -> LayPlace
    requires { LayRaysPre n (cells spans.old links.old heads.old) work.now sizes ray 1 place }
    ensures { LayRaysPost n (cells spans.old links.old heads.old)
        work.now sizes ray 1 place
        (cells spans.new links.new heads.new) result }
{
    let first = log_numbers::number_at(work, sizes + 2 * ray);
    if first == 0 {
        return place;
    }
    let second = log_numbers::number_at(work, sizes + 2 * ray + 1);
    let at = place.at;
    let possible = (first - 1) as usize;
    let certain = second as usize;
    let middle = at + 2 * possible;
    let end = middle + 2 * certain;
    let from = store_write::lay_ray(
        spans, links, heads, n, place.from, ray, work, at, possible, certain,
    );
    LayPlace { from, at: end }
}

// Lays the new lists of all rays that change, which stand from cell `at` of the work buffer on. One place before
// which no record is free goes from list to list, so each record is looked at once.
pub fn lay_all(
    spans: &mut [f64],
    links: &mut [u64],
    heads: &mut [u64],
    n: usize,
    work: &[f64],
    sizes: usize,
    at: usize,
    rays: usize,
)
    requires { LayRaysPre n (cells spans.old links.old heads.old) work.now sizes 0 rays (record { from = 0; at = at }) }
    ensures { cells spans.new links.new heads.new
        ≡ laid_all n (cells spans.old links.old heads.old)
        (updates_from work.now sizes at 0 rays) }
{
    let mut place = LayPlace { from: 0, at };
    for ray in 0..rays {
        place = lay_if_changed(spans, links, heads, n, work, sizes, ray, place);
    }
}
