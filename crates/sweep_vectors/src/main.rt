// Holds `sweep` to recorded answers of camlib and to document 01's refusals, read from standard input.
//
// A row has 4131 bytes: 243 words of 16 hexadecimal digits, a space or the newline after each.
// oracle/compare/src/bin/record_sweep.rs, which records them, says what they are. The cells of a log's entries are
// compared as numbers, all other cells bit for bit; every cell of the log is 7 before the call. For accepted and for
// refused sweeps it writes how many rows agree and how many differ, then how many can't be read, and the number of
// the first row that differs.
#![tactic(auto)]

use input_bytes::InputBytes;
use refusal::Refusal;
use std::io;
use sweep::Totals;

// A sweep's answer, and whether the store and the chords are as they were.
#[derive(Clone, Copy)]
struct SweepResult {
    answer: Result<Totals, Refusal>,
    kept: bool,
}

fn byte_of(n: u64) -> u8 {
    (n % 256) as u8
}

// Words 0 and 5 to 13: the description; 1 to 4: the units; 17: the interval total; 18: the axis; 19 to 30: the shape and the
// cutter; 31: the guard; 33: the budget; 34: the cells of the log.
fn sweep_on(
    w: &[u64; 243],
    spans: &[f64],
    links: &[u64],
    heads: &[u64],
    chords: &[f64],
    log: &mut [f64],
) -> Result<Totals, Refusal> {
    let units = [byte_of(w[2]), byte_of(w[3]), byte_of(w[4])];
    let axis = enum_codes::axis_of(w[18]);
    let shape = vector_rows::shape_at(w, 19);
    sweep::sweep(
        vector_rows::spec_at(w, 0, 5),
        vector_rows::first(&units, w[1] as usize),
        spans,
        links,
        heads,
        w[17],
        axis,
        shape,
        vector_rows::cutter_at(w, 22),
        doubles_bits::of_bits(w[31]),
        chords,
        w[33],
        vector_rows::first_mut(log, w[34] as usize),
    )
}

// The chords from word 38 on, the spans from 63, the links from 111, the heads from 159.
fn store_agrees(
    w: &[u64; 243],
    chords: &[f64],
    spans: &[f64],
    links: &[u64],
    heads: &[u64],
) -> bool {
    vector_rows::cells_agree(chords, w, 38, 0, 25)
        && vector_rows::cells_agree(spans, w, 63, 0, 48)
        && vector_rows::numbers_agree(links, w, 111, 48)
        && vector_rows::numbers_agree(heads, w, 159, 24)
}

// Words 14 to 16: the cells of the spans, the links and the heads; 32: those of the chords.
fn swept_on(
    w: &[u64; 243],
    spans: &[f64],
    links: &[u64],
    heads: &[u64],
    chords: &[f64],
    log: &mut [f64],
) -> SweepResult {
    let answer = sweep_on(
        w,
        vector_rows::first(spans, w[14] as usize),
        vector_rows::first(links, w[15] as usize),
        vector_rows::first(heads, w[16] as usize),
        vector_rows::first(chords, w[32] as usize),
        log,
    );
    SweepResult {
        answer,
        kept: store_agrees(w, chords, spans, links, heads),
    }
}

fn swept(w: &[u64; 243], log: &mut [f64]) -> SweepResult {
    let mut chords = [0.0; 25];
    vector_rows::doubles_at(w, 38, &mut chords);
    let mut spans = [0.0; 48];
    vector_rows::doubles_at(w, 63, &mut spans);
    let mut links = [0; 48];
    vector_rows::numbers_at(w, 111, &mut links);
    let mut heads = [0; 24];
    vector_rows::numbers_at(w, 159, &mut heads);
    swept_on(w, &spans, &links, &heads, &chords, log)
}

// The cells of so many entries, at most 60.
fn cells_of(entries: u64) -> usize {
    if entries >= 10 {
        return 60;
    }
    (6 * entries) as usize
}

// How many cells of the log a refused sweep leaves zero; the others are as they were.
fn cleared_by(e: Refusal, cells: usize) -> usize {
    match e {
        Refusal::VisitBudget | Refusal::LogFull => cells,
        _ => 0,
    }
}

// Words 35 to 37: the refusal or 0, the number of entries and the visit total; the log from 183 on.
fn agrees(w: &[u64; 243]) -> bool {
    let mut log = [7.0; 60];
    let s = swept(w, &mut log);
    if !s.kept {
        return false;
    }
    let cells = w[34] as usize;
    let answer = s.answer;
    match answer {
        Ok(t) => {
            w[35] == 0
                && t.entries as u64 == w[36]
                && t.visits == w[37]
                && vector_rows::cells_agree(&log, w, 183, cells_of(w[36]), cells)
        }
        Err(e) => {
            u32::from(e) as u64 == w[35]
                && w[36] == 0
                && w[37] == 0
                && vector_rows::cells_agree(&log, w, 183, 0, cleared_by(e, cells))
        }
    }
}

// 0 where the sweep is to be accepted, 1 where it is to be refused.
fn kind_of(refusal: u64) -> u64 {
    u64::from(refusal != 0)
}

fn main(rt: HostRuntime) -> io::Result<()> {
    let mut input = InputBytes::new(rt.stdin());
    let mut w = [0; 243];
    let mut r = vector_rows::first_row(&mut input, 16, &mut w);
    while r.left > 0 {
        r = vector_rows::next_row(&mut input, r, kind_of(w[35]), 2, agrees(&w), 16, &mut w);
    }
    input.finish()?;
    vector_rows::print(&mut rt.stdout(), b"accepted refused", r.counts)
}
