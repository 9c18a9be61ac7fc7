// Replays recorded runs of commits, change lists and logs, on one store each: answers of camlib and document 01's
// refusals, read from standard input.
//
// A row has 2890 bytes: 170 words of 16 hexadecimal digits, a space or the newline after each.
// oracle/harness/src/bin/record_commits.rs, which records them, says what they are. A row starts a run or is one
// commit of it, on the store as the commits before left it. The answer, the small record and every cell of the spans,
// the links, the heads and the work buffer are compared bit for bit, the cells that are not lent too. The commits are
// called with the small record by value, as the C interface calls them. For each entry it writes how many rows agree
// and how many differ, and how many runs were started, then how many rows can't be read, and the number of the first
// row that differs.
#![tactic(auto)]

use input_bytes::InputBytes;
use std::io;
use stock::{Outcome, Tally};

// The store of a run and its small record.
#[derive(Clone, Copy)]
struct Store {
    spans: [f64; 30],
    links: [u64; 30],
    heads: [u64; 12],
    tally: Tally,
}

// Whether a row agrees, and the store that it leaves.
#[derive(Clone, Copy)]
struct Shown {
    agrees: bool,
    store: Store,
}

// Words 1, 3 to 11: the description; 2: the units; 15: the base generation; 16, 17: the cells of the changes and of the pairs; they
// stand from 94 and from 130 on.
fn changes_in(
    w: &[u64; 170],
    tally: Tally,
    spans: &mut [f64],
    links: &mut [u64],
    heads: &mut [u64],
) -> Outcome {
    let units = vector_rows::units_of(w[2]);
    let mut changes = [0; 36];
    vector_rows::numbers_at(w, 94, &mut changes);
    let mut pairs = [0.0; 40];
    vector_rows::doubles_at(w, 130, &mut pairs);
    commit_changes::commit_changes_on(
        tally.generation,
        tally.intervals,
        vector_rows::spec_at(w, 1, 3),
        &units,
        spans,
        links,
        heads,
        w[15],
        vector_rows::first(&changes, w[16] as usize),
        vector_rows::first(&pairs, w[17] as usize),
    )
}

// Word 0: the entry, 0 for the change list's; of a log 15: the allowance; 16, 17: the cells of the log, which stands from 94 on, and of
// the work buffer.
fn commit_on(
    w: &[u64; 170],
    tally: Tally,
    spans: &mut [f64],
    links: &mut [u64],
    heads: &mut [u64],
    work: &mut [f64],
) -> Outcome {
    if w[0] == 0 {
        return changes_in(w, tally, spans, links, heads);
    }
    let units = vector_rows::units_of(w[2]);
    let mut log = [0.0; 36];
    vector_rows::doubles_at(w, 94, &mut log);
    commit_log::commit_log_on(
        tally.generation,
        tally.intervals,
        vector_rows::spec_at(w, 1, 3),
        &units,
        spans,
        links,
        heads,
        vector_rows::first(&log, w[16] as usize),
        w[15],
        vector_rows::first_mut(work, w[17] as usize),
    )
}

// Whether each cell below `cleared` is plus zero, which every word past the row is, and each other one still 7.
fn work_agrees(w: &[u64; 170], work: &[f64], cleared: usize) -> bool {
    vector_rows::cells_agree(work, w, 170, 0, cleared)
}

// The spans from word 22 on, the links from 52, the heads from 82.
fn store_agrees(w: &[u64; 170], spans: &[f64], links: &[u64], heads: &[u64]) -> bool {
    vector_rows::cells_agree(spans, w, 22, 0, 30)
        && vector_rows::numbers_agree(links, w, 52, 30)
        && vector_rows::numbers_agree(heads, w, 82, 12)
}

// Words 18 to 21: the refusal, 0 for none, the changed rays, the generation and the interval total. An accepted log
// commit clears the work buffer.
fn answer_agrees(w: &[u64; 170], o: Outcome, work: &[f64]) -> bool {
    if o.generation != w[20] || o.intervals != w[21] {
        return false;
    }
    let answer = o.answer;
    match answer {
        Ok(n) => {
            let cleared = if w[0] == 0 { 0 } else { w[17] as usize };
            w[18] == 0 && n == w[19] && work_agrees(w, work, cleared)
        }
        Err(e) => u32::from(e) as u64 == w[18] && work_agrees(w, work, 0),
    }
}

// One commit of the run. Words 12 to 14: the cells of the spans, the links and the heads that are lent.
fn commit_step(w: &[u64; 170], s: Store) -> Shown {
    let mut spans = s.spans;
    let mut links = s.links;
    let mut heads = s.heads;
    let mut work = [7.0; 404];
    let o = commit_on(
        w,
        s.tally,
        vector_rows::first_mut(&mut spans, w[12] as usize),
        vector_rows::first_mut(&mut links, w[13] as usize),
        vector_rows::first_mut(&mut heads, w[14] as usize),
        &mut work,
    );
    let agrees = answer_agrees(w, o, &work) && store_agrees(w, &spans, &links, &heads);
    Shown {
        agrees,
        store: Store {
            spans,
            links,
            heads,
            tally: Tally {
                generation: o.generation,
                intervals: o.intervals,
            },
        },
    }
}

// The store that a run starts with.
fn start_step(w: &[u64; 170]) -> Shown {
    let mut spans = [0.0; 30];
    vector_rows::doubles_at(w, 22, &mut spans);
    let mut links = [0; 30];
    vector_rows::numbers_at(w, 52, &mut links);
    let mut heads = [0; 12];
    vector_rows::numbers_at(w, 82, &mut heads);
    Shown {
        agrees: true,
        store: Store {
            spans,
            links,
            heads,
            tally: Tally {
                generation: w[20],
                intervals: w[21],
            },
        },
    }
}

// A row of a kind that there is not leaves the store.
fn shown_by(w: &[u64; 170], s: Store) -> Shown {
    match w[0] {
        0 | 1 => commit_step(w, s),
        2 => start_step(w),
        _ => Shown {
            agrees: false,
            store: s,
        },
    }
}

fn no_store() -> Store {
    Store {
        spans: [0.0; 30],
        links: [0; 30],
        heads: [0; 12],
        tally: Tally {
            generation: 0,
            intervals: 0,
        },
    }
}

fn main(rt: HostRuntime) -> io::Result<()> {
    let mut input = InputBytes::new(rt.stdin());
    let mut store = no_store();
    let mut w = [0; 170];
    let mut r = vector_rows::first_row(&mut input, 16, &mut w);
    while r.left > 0 {
        let s = shown_by(&w, store);
        r = vector_rows::next_row(&mut input, r, w[0], 3, s.agrees, 16, &mut w);
        let left = s.store;
        store = left;
    }
    input.finish()?;
    vector_rows::print(
        &mut rt.stdout(),
        b"commit_changes commit_log runs",
        r.counts,
    )
}
