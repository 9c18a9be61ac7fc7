// Holds `trace` to the reasons that camlib's merges give and to document 02's refusals, read from standard input.
//
// A row has 765 bytes: 45 words of 16 hexadecimal digits, a space or the newline after each.
// oracle/compare/src/bin/record_trace.rs, which records them, says what they are. For refused rows and for each reason it writes how many
// rows agree and how many differ, then how many can't be read, and the number of the first row that differs.
#![tactic(auto)]

use input_bytes::InputBytes;
use ray_trace::Reason;
use refusal::Refusal;
use std::io;

// The reason, 1 to 5, or 0; the refusal or 0; the number of the entry or 0.
fn words_of(t: Result<Reason, Refusal>) -> [u64; 3] {
    match t {
        Ok(Reason::NotPossible) => [1, 0, 0],
        Ok(Reason::RemovedBy(k)) => [2, 0, k as u64],
        Ok(Reason::UncertainBy(k)) => [3, 0, k as u64],
        Ok(Reason::NotCertain) => [4, 0, 0],
        Ok(Reason::StillCertain) => [5, 0, 0],
        Err(e) => [0, u32::from(e) as u64, 0],
    }
}

// Words 3 to 5: the cells of possible, certain and the log; 6, 7: the bounds; 8: the place; the lists from 9, 15 and 21 on.
fn traced(w: &[u64; 45]) -> Result<Reason, Refusal> {
    let mut p = [0.0; 6];
    vector_rows::doubles_at(w, 9, &mut p);
    let mut c = [0.0; 6];
    vector_rows::doubles_at(w, 15, &mut c);
    let mut log = [0.0; 24];
    vector_rows::doubles_at(w, 21, &mut log);
    ray_trace::trace(
        vector_rows::first(&p, w[3] as usize),
        vector_rows::first(&c, w[4] as usize),
        doubles_bits::of_bits(w[6]),
        doubles_bits::of_bits(w[7]),
        vector_rows::first(&log, w[5] as usize),
        doubles_bits::of_bits(w[8]),
    )
}

// Words 0 to 2: the reason, the refusal and the number of the entry.
fn agrees(w: &[u64; 45]) -> bool {
    words_of(traced(w)) == [w[0], w[1], w[2]]
}

fn main(rt: HostRuntime) -> io::Result<()> {
    let mut input = InputBytes::new(rt.stdin());
    let mut w = [0; 45];
    let mut r = vector_rows::first_row(&mut input, 16, &mut w);
    while r.left > 0 {
        r = vector_rows::next_row(&mut input, r, w[0], 6, agrees(&w), 16, &mut w);
    }
    input.finish()?;
    vector_rows::print(
        &mut rt.stdout(),
        b"refused not-possible removed uncertain not-certain still-certain",
        r.counts,
    )
}
