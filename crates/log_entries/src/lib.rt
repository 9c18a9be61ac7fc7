// Reads a log: its entries, and which rays they name. A log is read here only; the sweep writes it.
#![tactic(auto)]

ghost use Rattle.std.specs.Prelude.{◌≡◌, ◌+◌, ◌^◌, ◌<◌, true};
ghost use Rattle.grid.specs.Rays.{ray_count};
ghost use Rattle.log_model.specs.Logs.{entry_at, entry_count, is_whole, whole_of, names_some_ray, entry_ray};
ghost use Rattle.log_entries.specs.Named.{NamesAll, before_axis};
ghost use Rattle.log_model.specs.Steps.{is_whole_log};

use grid::{DexelGrid, WorldAxis};
use log_model::Entry;

// How many whole entries the log has.
pub fn entry_count(log: &[f64]) -> usize
    ensures { result ≡ entry_count log.now }
{
    log.len() / 6
}

// Whether no part of an entry is over.
pub fn is_whole_log(log: &[f64]) -> bool
    ensures { result ≡ is_whole_log log.now }
{
    log.len() % 6 == 0
}

// The entry at place i.
pub fn entry_at(log: &[f64], i: usize) -> Entry
    requires { i < entry_count log.now }
    ensures { result ≡ entry_at log.now i }
{
    let at = 6 * i;
    Entry {
        axis: log[at],
        index: log[at + 1],
        outer_lo: log[at + 2],
        outer_hi: log[at + 3],
        inner_lo: log[at + 4],
        inner_hi: log[at + 5],
    }
}

// Whether x is a whole number from 0 up.
fn is_whole(x: f64) -> bool
    ensures { result ≡ is_whole x }
{
    x == std::num::nearest_u64_to_f64(doubles::to_u64(x))
}

// Whether the entry names a ray.
#[tactic(auto, unfolding(log_model::specs::Logs::names_some_ray))]
fn named(g: DexelGrid, e: Entry) -> bool
    requires { ray_count g < 2 ^ 64 }
    ensures { result ≡ names_some_ray g e }
{
    let a = doubles::to_u64(e.axis);
    is_whole(e.axis)
        && a < 3
        && is_whole(e.index)
        && doubles::to_u64(e.index) < grid_rays::rays(g, WorldAxis(a as u8))
}

// The whole number that x is. One from 1 up and below 2^32 is cast, which the machine does at once.
fn whole_number(x: f64) -> u64
    requires { is_whole x ≡ true }
    ensures { result ≡ whole_of x }
{
    if 1.0 <= x && x < 4294967296.0 {
        return (x as u32) as u64;
    }
    doubles::to_u64(x)
}

// How many rays stand before those along the axis, which is 0, 1 or 2. Entries name the axes in no order, which a processor cannot foresee,
// so that both tests only choose a number.
fn rays_before(axis: f64, first: u64, second: u64) -> u64
    requires { first + second < 2 ^ 64 }
    ensures { result ≡ before_axis axis first second }
{
    let mut n: u64 = 0;
    if 1.0 <= axis {
        n = first;
    }
    if 2.0 <= axis {
        n = first + second;
    }
    n
}

// The number of the ray that the entry at place i names.
pub fn ray_at(g: DexelGrid, log: &[f64], i: usize) -> usize
    requires { (ray_count g < 2 ^ 64) × (i < entry_count log.now) × (names_some_ray g (entry_at log.now i) ≡ true) }
    ensures { result ≡ entry_ray g (entry_at log.now i) }
{
    let e = entry_at(log, i);
    let index = whole_number(e.index);
    let first = grid_rays::rays(g, WorldAxis(0));
    let second = grid_rays::rays(g, WorldAxis(1));
    (rays_before(e.axis, first, second) + index) as usize
}

// Whether each whole entry of the log names a ray.
pub fn names_all(g: DexelGrid, log: &[f64]) -> bool
    requires { ray_count g < 2 ^ 64 }
    ensures { NamesAll g log.now result }
{
    for i in 0..entry_count(log) {
        if !named(g, entry_at(log, i)) {
            return false;
        }
    }
    true
}
