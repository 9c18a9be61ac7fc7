// The lent chords, and document 01's limits for them and for the guard (refusal 7).
#![tactic(auto)]

ghost use Rattle.std.specs.Prelude.{◌≡◌, not, ◌+◌, ◌*◌, ◌≤◌, length};
ghost use Rattle.logic.specs.Logic.{Decides};
ghost use Rattle.sweep_model.specs.Chords.{point_at, chord_of};
ghost use Rattle.sweep_model.specs.ChordLimits.{plan_size, BadChords};
ghost use Rattle.sweep_model.specs.Steps.{guard_fits, ends_fit, length_fits, numbers_fit, chord_fits};

use frame::Frame;
use grid::Vec3;
use sweep_model::Chord;

fn point_at(chords: &[f64], i: usize) -> Vec3
    requires { i + 3 ≤ length chords.now }
    ensures { result ≡ point_at chords.now i }
{
    Vec3 {
        x: chords[i],
        y: chords[i + 1],
        z: chords[i + 2],
    }
}

// Chord i, in the tool's frame.
#[tactic(auto, unfolding(sweep_model::specs::Chords::chord_of))]
pub fn chord_at(f: Frame, chords: &[f64], i: usize) -> Chord
    requires { 8 * i + 8 ≤ length chords.now }
    ensures { result ≡ chord_of f chords.now i }
{
    let k = 8 * i;
    Chord {
        a: frame::local(f, point_at(chords, k)),
        b: frame::local(f, point_at(chords, k + 3)),
        e: chords[k + 6],
        length: chords[k + 7],
    }
}

#[tactic(auto, unfolding(sweep_model::specs::Steps::guard_fits))]
fn guard_fits(guard: f64) -> bool
    ensures { result ≡ guard_fits guard }
{
    guard > 0.0 && guard <= 1.0
}

#[tactic(auto, unfolding(sweep_model::specs::Steps::ends_fit))]
fn ends_fit(chords: &[f64], i: usize) -> bool
    requires { 8 * i + 8 ≤ length chords.now }
    ensures { result ≡ ends_fit chords.now i }
{
    let k = 8 * i;
    grid::all_between(point_at(chords, k), -2e6, 2e6)
        && grid::all_between(point_at(chords, k + 3), -2e6, 2e6)
}

// The larger of the sizes of the two plan differences.
#[tactic(auto, unfolding(sweep_model::specs::ChordLimits::plan_size))]
fn plan_size(c: Chord) -> f64
    ensures { result ≡ plan_size c }
{
    let a = c.a;
    let b = c.b;
    doubles_minmax::larger(doubles::abs(b.x - a.x), doubles::abs(b.y - a.y))
}

#[tactic(auto, unfolding(sweep_model::specs::Steps::length_fits))]
fn length_fits(c: Chord) -> bool
    ensures { result ≡ length_fits c }
{
    let s = plan_size(c);
    grid::is_between(c.length, s, 2.0 * s)
}

#[tactic(auto, unfolding(sweep_model::specs::Steps::numbers_fit))]
fn numbers_fit(c: Chord) -> bool
    ensures { result ≡ numbers_fit c }
{
    grid::is_between(c.e, 0.0, 1e3) && length_fits(c)
}

#[tactic(auto, unfolding(sweep_model::specs::Steps::chord_fits))]
fn chord_fits(f: Frame, chords: &[f64], i: usize) -> bool
    requires { 8 * i + 8 ≤ length chords.now }
    ensures { result ≡ chord_fits f chords.now i }
{
    ends_fit(chords, i) && numbers_fit(chord_at(f, chords, i))
}

// Whether the guard and all whole chords are within their limits: false exactly where a clause of refusal 7 holds.
pub fn check_chords(f: Frame, guard: f64, chords: &[f64]) -> bool
    ensures { Decides (BadChords f guard chords.now) (not result) }
{
    if !guard_fits(guard) {
        return false;
    }
    for i in 0..chords.len() / 8 {
        if !chord_fits(f, chords, i) {
            return false;
        }
    }
    true
}
