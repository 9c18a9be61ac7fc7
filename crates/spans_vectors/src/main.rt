// Holds the list functions of `spans` to recorded answers of camlib and to document 01's refusals, read from standard input.
//
// A row has 595 bytes: 35 words of 16 hexadecimal digits, a space or the newline after each.
// oracle/harness/src/bin/record_spans.rs, which records them, says what they are. The ends of a normalised list are
// compared as numbers, since which of two zeros stands there is open; all other cells of a buffer are compared bit
// for bit. For each function it writes how many rows agree and how many differ, then how many can't be read, and the
// number of the first row that differs.
#![tactic(auto)]

use input_bytes::InputBytes;
use refusal::Refusal;
use std::io;

// The function of this number: the number of pairs, or 1 for yes.
fn reply_of(op: u64, a: &[f64], b: &[f64], out: &mut [f64]) -> Result<u64, Refusal> {
    match op {
        0 => Ok(span_normalize::normalize(a, out)? as u64),
        1 => Ok(span_combine::subtract(a, b, out)? as u64),
        2 => Ok(span_combine::intersect(a, b, out)? as u64),
        3 => Ok(u64::from(span_compare::contains(a, b)?)),
        _ => Ok(u64::from(span_compare::overlaps(a, b)?)),
    }
}

// Words 1 to 3: the cells of the two lists, which stand from 4 and 11 on, and of the buffer.
fn reply_to(w: &[u64; 35], out: &mut [f64]) -> Result<u64, Refusal> {
    let mut a = [0.0; 7];
    vector_rows::doubles_at(w, 4, &mut a);
    let mut b = [0.0; 7];
    vector_rows::doubles_at(w, 11, &mut b);
    reply_of(
        w[0],
        vector_rows::first(&a, w[1] as usize),
        vector_rows::first(&b, w[2] as usize),
        vector_rows::first_mut(out, w[3] as usize),
    )
}

// How many cells of the buffer are ends of a normalised list.
fn ends_of(op: u64, count: u64) -> usize {
    if op == 0 && count < 8 {
        return (2 * count) as usize;
    }
    0
}

// Words 18, 19: the refusal or 0, and the count; the buffer from 20 on.
fn agrees(w: &[u64; 35]) -> bool {
    let mut out = [7.0; 15];
    let r = reply_to(w, &mut out);
    match r {
        Ok(n) => {
            w[18] == 0 && n == w[19] && vector_rows::cells_agree(&out, w, 20, ends_of(w[0], n), 15)
        }
        Err(e) => {
            u32::from(e) as u64 == w[18]
                && w[19] == 0
                && vector_rows::cells_agree(&out, w, 20, 0, 15)
        }
    }
}

fn main(rt: HostRuntime) -> io::Result<()> {
    let mut input = InputBytes::new(rt.stdin());
    let mut w = [0; 35];
    let mut r = vector_rows::first_row(&mut input, 16, &mut w);
    while r.left > 0 {
        r = vector_rows::next_row(&mut input, r, w[0], 5, agrees(&w), 16, &mut w);
    }
    input.finish()?;
    vector_rows::print(
        &mut rt.stdout(),
        b"normalize subtract intersect contains overlaps",
        r.counts,
    )
}
