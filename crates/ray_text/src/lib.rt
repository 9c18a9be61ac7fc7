// The program on slices: a text is read, its ray merged and printed.
#![tactic(auto)]

ghost use Rattle.std.specs.Prelude.{◌≡◌, true, ◌≤◌, length};
ghost use Rattle.ray_input.specs.Format.{readable};
ghost use Rattle.ray_text.specs.Run.{ProgramRan, Printed, ray_causes, Small};

use refusal::Refusal;

// Merges the hits into a ray, and prints both lists or the refusal.
fn print_merged(
    possible: &[f64],
    certain: &[f64],
    lo: f64,
    hi: f64,
    outer: &[f64],
    inner: &[f64],
    out: &mut [u8],
) -> usize
    requires { Small possible.now certain.now outer.now inner.now × (65536 ≤ length out.old) }
    ensures { Printed (ray_causes lo hi possible.now certain.now) lo hi
        possible.now certain.now
        outer.now inner.now out.old out.new result }
{
    let mut work = [0.0; 3072];
    let answer = ray_merge::merge(possible, certain, lo, hi, outer, inner, &mut work);
    match answer {
        Err(e) => ray_output::put_refused(out, u32::from(e)),
        Ok(lists) => {
            let n = ray_output::put_lines(
                out,
                0,
                b'P',
                ray_merge::possible_of(possible, &work, answer),
            );
            let m = ray_output::put_lines(
                out,
                n,
                b'C',
                ray_merge::certain_of(certain, &work, answer),
            );
            ray_output::put_end(out, m, lists.possible.moved, lists.certain.moved)
        }
    }
}

// Merges the ray of a readable text.
fn run_readable(s: &[u8], out: &mut [u8]) -> usize
    requires { (readable s.now ≡ true) × (65536 ≤ length out.old) }
    ensures { ProgramRan s.now out.old out.new result }
{
    let n = s.len() / 36;
    let mut possible = [0.0; 128];
    let mut certain = [0.0; 128];
    let mut outer = [0.0; 128];
    let mut inner = [0.0; 128];
    let np = ray_input::collect(s, n, b'P', &mut possible);
    let nc = ray_input::collect(s, n, b'C', &mut certain);
    let no = ray_input::collect(s, n, b'O', &mut outer);
    let ni = ray_input::collect(s, n, b'I', &mut inner);
    print_merged(
        &possible[..np],
        &certain[..nc],
        ray_input::double_at(s, 2),
        ray_input::double_at(s, 19),
        &outer[..no],
        &inner[..ni],
        out,
    )
}

// The program on slices: what it writes for an input stands at the front of `out`, and the answer is its length.
pub fn run(s: &[u8], out: &mut [u8; 65536]) -> usize
    ensures { ProgramRan s.now out.old out.new result }
{
    if !ray_input::is_readable(s) {
        return ray_output::put_refused(out, u32::from(Refusal::Text));
    }
    run_readable(s, out)
}
