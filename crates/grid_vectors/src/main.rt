// Holds `grid` to recorded answers of camlib, read from standard input.
//
// A row has 493 bytes: 29 words of 16 hexadecimal digits, a space or the newline after each. The first 15 are the question, the others
// the answer; oracle/harness/src/bin/record_grid.rs, which records them, says which is which. The one NaN is 7ff8000000000000.
// For accepted descriptions and for each refusal it writes how many rows agree and how many differ, then how many can't be read, and
// the number of the first row that differs.
#![tactic(auto)]

ghost use Rattle.grid.specs.Facts.{GridFacts};

use grid::{DexelGrid, DexelStockSpec, WorldAxis};
use input_bytes::InputBytes;
use std::io;

// The answers about an accepted grid.
fn asked(
    spec: DexelStockSpec,
    g: DexelGrid,
    axis: WorldAxis,
    index: u64,
    i: u64,
    x: f64,
) -> [u64; 14]
    requires { GridFacts spec g }
{
    let rays = grid_rays::rays(g, axis);
    if rays <= index {
        return [0; 14];
    }
    let c = grid_cells::ray_center(spec, g, axis, index);
    [
        0,
        g.c0,
        g.c1,
        g.c2,
        doubles_bits::bits_of(g.s0),
        doubles_bits::bits_of(g.s1),
        doubles_bits::bits_of(g.s2),
        rays,
        grid_rays::total_rays(g),
        doubles_bits::bits_of(c.u),
        doubles_bits::bits_of(c.v),
        doubles_bits::bits_of(grid_cells::cell_bound(spec, g, axis, i)),
        grid_cells::cell_at(spec, g, axis, x),
        grid_rays::ray_number(g, axis, index),
    ]
}

// The answer of `grid` for the units of this number.
fn answer(
    spec: DexelStockSpec,
    number: u64,
    axis: WorldAxis,
    index: u64,
    i: u64,
    x: f64,
) -> [u64; 14] {
    let units: &[u8] = match number {
        0 => b"mm",
        1 => b"m",
        2 => b"mmm",
        3 => b"cm",
        _ => b"mn",
    };
    match grid_from_spec::grid(spec, units) {
        Ok(g) => asked(spec, g, axis, index, i, x),
        Err(e) => {
            let mut refused = [0; 14];
            refused[0] = u32::from(e) as u64;
            refused
        }
    }
}

fn answer_to(w: &[u64; 29]) -> [u64; 14] {
    let axis = WorldAxis((w[11] % 3) as u8);
    answer(
        vector_rows::spec_at(w, 0, 2),
        w[1],
        axis,
        w[12],
        w[13],
        doubles_bits::of_bits(w[14]),
    )
}

fn agrees(w: &[u64; 29]) -> bool {
    let got = answer_to(w);
    vector_rows::numbers_agree(&got, w, 15, 14)
}

// Rows are counted by the number of the refusal that they ask for, or 0.
fn main(rt: HostRuntime) -> io::Result<()> {
    let mut input = InputBytes::new(rt.stdin());
    let mut w = [0; 29];
    let mut r = vector_rows::first_row(&mut input, 16, &mut w);
    while r.left > 0 {
        r = vector_rows::next_row(&mut input, r, w[15], 4, agrees(&w), 16, &mut w);
    }
    input.finish()?;
    vector_rows::print(&mut rt.stdout(), b"accepted 1 2 3", r.counts)
}
