// Holds `merge`, `fill` and `volume` to recorded answers of camlib and to document 01's refusals, read from standard input.
//
// A row has 1479 bytes: 87 words of 16 hexadecimal digits, a space or the newline after each.
// oracle/compare/src/bin/record_stock.rs, which records them, says what they are. Ends of merged lists and volumes
// are compared as numbers, all other cells bit for bit; every cell of a buffer is 7 before the call. For each
// function it writes how many rows agree and how many differ, then how many can't be read, and the number of the
// first row that differs.
#![tactic(auto)]

use input_bytes::InputBytes;
use ray_subtract::{MergedList, MergedLists};
use refusal::Refusal;
use std::io;
use stock_volume::DexelVolume;

// Words 1 to 5: the cells of possible, certain, outer, inner and the work buffer; 6, 7: the bounds; the lists from 8, 14, 20 and 26 on.
fn merge_on(w: &[u64; 87], work: &mut [f64]) -> Result<MergedLists, Refusal> {
    let mut p = [0.0; 6];
    vector_rows::doubles_at(w, 8, &mut p);
    let mut c = [0.0; 6];
    vector_rows::doubles_at(w, 14, &mut c);
    let mut o = [0.0; 6];
    vector_rows::doubles_at(w, 20, &mut o);
    let mut i = [0.0; 6];
    vector_rows::doubles_at(w, 26, &mut i);
    ray_merge::merge(
        vector_rows::first(&p, w[1] as usize),
        vector_rows::first(&c, w[2] as usize),
        doubles_bits::of_bits(w[6]),
        doubles_bits::of_bits(w[7]),
        vector_rows::first(&o, w[3] as usize),
        vector_rows::first(&i, w[4] as usize),
        vector_rows::first_mut(work, w[5] as usize),
    )
}

fn part_agrees(p: MergedList, moved: u64, pairs: u64) -> bool {
    p.pairs as u64 == pairs && u64::from(p.moved) == moved
}

// Words 32 to 36: the refusal, then for possible and certain 1 where the list moved, and their pairs; the work buffer from 37 on.
fn merge_agrees(w: &[u64; 87]) -> bool {
    let mut work = [7.0; 160];
    let m = merge_on(w, &mut work);
    match m {
        Ok(l) => {
            w[32] == 0
                && part_agrees(l.possible, w[33], w[35])
                && part_agrees(l.certain, w[34], w[36])
                && vector_rows::cells_agree(&work, w, 37, 24, w[5] as usize)
        }
        Err(e) => { u32::from(e) as u64 == w[32] && vector_rows::cells_agree(&work, w, 37, 0, 0) }
    }
}

// The spans from word 29 on, the links from 53, the heads from 77.
fn store_agrees(
    w: &[u64; 87],
    spans: &[f64],
    links: &[u64],
    heads: &[u64],
    n: usize,
    m: usize,
    h: usize,
) -> bool {
    vector_rows::cells_agree(spans, w, 29, 0, n)
        && vector_rows::numbers_agree(links, w, 53, m)
        && vector_rows::numbers_agree(heads, w, 77, h)
}

// Words 1, 3 to 11: the description; 2: the units; 12 to 14: the cells of the spans, the links and the heads; 16 to 18: the
// refusal, the generation and the interval total.
fn fill_agrees(w: &[u64; 87]) -> bool {
    let mut spans = [7.0; 24];
    let mut links = [7; 24];
    let mut heads = [7; 10];
    let units = vector_rows::units_of(w[2]);
    let f = stock_fill::fill(
        vector_rows::spec_at(w, 1, 3),
        &units,
        vector_rows::first_mut(&mut spans, w[12] as usize),
        vector_rows::first_mut(&mut links, w[13] as usize),
        vector_rows::first_mut(&mut heads, w[14] as usize),
    );
    match f {
        Ok(t) => {
            w[16] == 0
                && t.generation == w[17]
                && t.intervals == w[18]
                && store_agrees(
                    w,
                    &spans,
                    &links,
                    &heads,
                    w[12] as usize,
                    w[13] as usize,
                    w[14] as usize,
                )
        }
        Err(e) => {
            u32::from(e) as u64 == w[16] && store_agrees(w, &spans, &links, &heads, 0, 0, 0)
        }
    }
}

// Word 15: the interval total that goes in.
fn measured(w: &[u64; 87]) -> Result<DexelVolume, Refusal> {
    let mut spans = [0.0; 24];
    vector_rows::doubles_at(w, 29, &mut spans);
    let mut links = [0; 24];
    vector_rows::numbers_at(w, 53, &mut links);
    let mut heads = [0; 10];
    vector_rows::numbers_at(w, 77, &mut heads);
    let units = vector_rows::units_of(w[2]);
    stock_volume::volume(
        vector_rows::spec_at(w, 1, 3),
        &units,
        vector_rows::first(&spans, w[12] as usize),
        vector_rows::first(&links, w[13] as usize),
        vector_rows::first(&heads, w[14] as usize),
        w[15],
    )
}

// Words 19 to 28: the ten numbers.
fn ten_agree(w: &[u64; 87], v: DexelVolume) -> bool {
    let ten = [
        v.x_certain_mm3,
        v.x_possible_mm3,
        v.y_certain_mm3,
        v.y_possible_mm3,
        v.z_certain_mm3,
        v.z_possible_mm3,
        v.remaining_lower_mm3,
        v.remaining_upper_mm3,
        v.removed_lower_mm3,
        v.removed_upper_mm3,
    ];
    vector_rows::cells_agree(&ten, w, 19, 10, 10)
}

fn volume_agrees(w: &[u64; 87]) -> bool {
    let m = measured(w);
    match m {
        Ok(v) => w[16] == 0 && ten_agree(w, v),
        Err(e) => u32::from(e) as u64 == w[16],
    }
}

// Word 0: the function.
fn agrees(w: &[u64; 87]) -> bool {
    match w[0] {
        0 => merge_agrees(w),
        1 => fill_agrees(w),
        _ => volume_agrees(w),
    }
}

fn main(rt: HostRuntime) -> io::Result<()> {
    let mut input = InputBytes::new(rt.stdin());
    let mut w = [0; 87];
    let mut r = vector_rows::first_row(&mut input, 16, &mut w);
    while r.left > 0 {
        r = vector_rows::next_row(&mut input, r, w[0], 3, agrees(&w), 16, &mut w);
    }
    input.finish()?;
    vector_rows::print(&mut rt.stdout(), b"merge fill volume", r.counts)
}
