// Holds the functions of `cutter` and `strips` to recorded answers of the Rust, read from standard input.
//
// A row has 292 bytes: the function's number in two hexadecimal digits, then 14 arguments and the answer's three words, 16 digits each
// with a space before, and a newline. The answer is the number of its case and two doubles. What a function does not take or give is 0.
// Doubles are compared as numbers, since Rust leaves the sign of a zero open. For each function it writes how many rows agree and how
// many differ, then how many can't be read, and the number of the first row that differs.
#![tactic(auto)]

use cutter::ProfileSlice;
use input_bytes::InputBytes;
use refusal::Refusal;
use std::io;
use strips::{PlanePoint, Strip};

#[derive(Clone, Copy)]
struct Answer {
    kind: u64,
    a: f64,
    b: f64,
}

fn number(kind: u64, a: f64) -> Answer {
    Answer { kind, a, b: 0.0 }
}

fn strip_answer(s: Strip) -> Answer {
    match s {
        Strip::Hit(lo, hi) => Answer {
            kind: 1,
            a: lo,
            b: hi,
        },
        Strip::Miss => number(0, 0.0),
    }
}

fn slice_answer(s: ProfileSlice) -> Answer {
    match s {
        ProfileSlice::Cutting(r) => number(1, r),
        ProfileSlice::NonCutting(r) => number(2, r),
        ProfileSlice::Outside => number(0, 0.0),
    }
}

fn radius_answer(r: Option<f64>) -> Answer {
    match r {
        Some(r) => number(1, r),
        None => number(0, 0.0),
    }
}

fn check_answer(t: Result<(), Refusal>) -> Answer {
    match t {
        Ok(()) => number(0, 0.0),
        Err(e) => number(u32::from(e) as u64, 0.0),
    }
}

fn point(x: u64, y: u64) -> PlanePoint {
    PlanePoint {
        x: doubles_bits::of_bits(x),
        y: doubles_bits::of_bits(y),
    }
}

fn answer_strips(w: &[u64; 18]) -> Answer {
    strip_answer(match w[0] {
        0 => strips::disk_strip(
            point(w[1], w[2]),
            doubles_bits::of_bits(w[3]),
            doubles_bits::of_bits(w[4]),
            doubles_bits::of_bits(w[5]),
        ),
        1 => strips::polygon_strip(
            point(w[1], w[2]),
            point(w[3], w[4]),
            point(w[5], w[6]),
            point(w[7], w[8]),
            doubles_bits::of_bits(w[9]),
            doubles_bits::of_bits(w[10]),
        ),
        _ => strips::stadium_strip(
            point(w[1], w[2]),
            point(w[3], w[4]),
            doubles_bits::of_bits(w[5]),
            doubles_bits::of_bits(w[6]),
            doubles_bits::of_bits(w[7]),
            doubles_bits::of_bits(w[8]),
        ),
    })
}

fn answer_cutter(w: &[u64; 18]) -> Answer {
    let shape = vector_rows::shape_at(w, 1);
    let c = vector_rows::cutter_at(w, 4);
    let h0 = doubles_bits::of_bits(w[13]);
    let h1 = doubles_bits::of_bits(w[14]);
    match w[0] {
        3 => slice_answer(cutter::radius_at(shape, c, h0)),
        4 => number(1, cutter::cut_radius(shape, c, h0)),
        5 => radius_answer(cutter::cut_max(shape, c, h0, h1)),
        6 => radius_answer(cutter::cut_min(shape, c, h0, h1)),
        _ => check_answer(cutter_check::check_tool(shape, c)),
    }
}

fn answer_of(w: &[u64; 18]) -> Answer {
    if w[0] < 3 {
        return answer_strips(w);
    }
    answer_cutter(w)
}

// Equal as numbers, or both NaN.
fn same(a: f64, b: f64) -> bool {
    a == b || (a != a && b != b)
}

fn agrees(w: &[u64; 18]) -> bool {
    let x = answer_of(w);
    x.kind == w[15]
        && same(x.a, doubles_bits::of_bits(w[16]))
        && same(x.b, doubles_bits::of_bits(w[17]))
}

fn main(rt: HostRuntime) -> io::Result<()> {
    let mut input = InputBytes::new(rt.stdin());
    let mut w = [0; 18];
    let mut r = vector_rows::first_row(&mut input, 2, &mut w);
    while r.left > 0 {
        r = vector_rows::next_row(&mut input, r, w[0], 8, agrees(&w), 2, &mut w);
    }
    input.finish()?;
    vector_rows::print(
        &mut rt.stdout(),
        b"disk_strip polygon_strip stadium_strip radius_at cut_radius cut_max cut_min check_tool",
        r.counts,
    )
}
