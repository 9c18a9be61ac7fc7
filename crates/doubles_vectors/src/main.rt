// Holds the functions on doubles, and `<`, `<=`, `*` and `/`, to recorded answers of the machine's own arithmetic,
// read from standard input.
//
// A row has 71 bytes: the function's number in two hexadecimal digits, three arguments and the answer in 16 digits each, a space
// before each of these four, and a newline. An argument that the function does not take is 0. The one NaN is 7ff8000000000000.
// For each function it writes how many rows agree and how many differ, then how many can't be read, and the number
// of the first row that differs.
#![tactic(auto)]

use input_bytes::InputBytes;
use std::cmp::Ordering;
use std::io;

fn order_number(o: Ordering) -> u64 {
    match o {
        Ordering::Less => 0,
        Ordering::Equal => 1,
        Ordering::Greater => 2,
    }
}

// The answer of a function of doubles.
fn double_answer(op: u64, x: f64, y: f64, z: f64) -> f64 {
    match op {
        0 => doubles_minmax::larger(x, y),
        1 => doubles_minmax::smaller(x, y),
        2 => doubles_minmax::clamp(x, y, z),
        3 => doubles::floor(x),
        4 => doubles::ceil(x),
        5 => doubles::abs(x),
        6 => doubles_sqrt::sqrt(x),
        14 => x * y,
        _ => x / y,
    }
}

// Whether the test of this number holds. `of_bits` is tried on a whole number's double, made without it.
fn holds(op: u64, a: u64, b: u64) -> bool {
    let x = doubles_bits::of_bits(a);
    match op {
        11 => x == std::num::nearest_u64_to_f64(b),
        12 => x < doubles_bits::of_bits(b),
        _ => x <= doubles_bits::of_bits(b),
    }
}

// The answer of each function. `bits_of` is tried on a whole number's double, made without `of_bits`.
fn answer(op: u64, a: u64, b: u64, c: u64) -> u64 {
    let x = doubles_bits::of_bits(a);
    let y = doubles_bits::of_bits(b);
    match op {
        7 => doubles_bits::order_key(x),
        8 => order_number(doubles_bits::total_cmp(x, y)),
        9 => doubles::to_u64(x),
        10 => doubles_bits::bits_of(std::num::nearest_u64_to_f64(a)),
        11..=13 => u64::from(holds(op, a, b)),
        _ => doubles_bits::bits_of(double_answer(op, x, y, doubles_bits::of_bits(c))),
    }
}

fn answer_agrees(w: &[u64; 5]) -> bool {
    answer(w[0], w[1], w[2], w[3]) == w[4]
}

fn main(rt: HostRuntime) -> io::Result<()> {
    let mut input = InputBytes::new(rt.stdin());
    let mut w = [0; 5];
    let mut r = vector_rows::first_row(&mut input, 2, &mut w);
    while r.left > 0 {
        r = vector_rows::next_row(&mut input, r, w[0], 16, answer_agrees(&w), 2, &mut w);
    }
    input.finish()?;
    vector_rows::print(
        &mut rt.stdout(),
        b"larger smaller clamp floor ceil abs sqrt order_key total_cmp to_u64 bits_of of_bits lt le mul div",
        r.counts,
    )
}
