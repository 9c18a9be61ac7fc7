// Holds the program on slices to stored answers, read from standard input.
//
// A case is a head of ten bytes, the input and the output that it must give. The head has the two lengths in four
// hexadecimal digits each, with a space between them and a newline behind. It writes how many cases agree and differ,
// how many can't be read, and the number of the first that differs.
#![tactic(auto)]

use input_bytes::InputBytes;
use std::io;
use std::io::Read;
use vector_rows::{RowCounts, RowOutcome};

// The most bytes of an input or an output.
const MOST: usize = 16384;

// Reads n bytes to the front of a buffer, and answers whether they were there.
fn read_text<R: Read>(input: &mut InputBytes<R>, buf: &mut [u8], n: usize) -> bool {
    input.read_full(vector_rows::first_mut(buf, n)) == n
}

// Whether the first n bytes of the buffer are these.
fn wrote(out: &[u8; 65536], n: usize, wanted: &[u8]) -> bool {
    vector_rows::first(out, n) == wanted
}

// Whether an input gives this output.
fn gives(s: &[u8], wanted: &[u8]) -> bool {
    let mut out = [0u8; 65536];
    let n = ray_text::run(s, &mut out);
    wrote(&out, n, wanted)
}

// Runs an input of n bytes, and compares with the m bytes that follow.
fn ran<R: Read>(input: &mut InputBytes<R>, n: usize, m: usize) -> RowOutcome {
    let mut given = [0u8; MOST];
    if !read_text(input, &mut given, n) {
        return RowOutcome::Unread;
    }
    let mut wanted = [0u8; MOST];
    if !read_text(input, &mut wanted, m) {
        return RowOutcome::Unread;
    }
    let s = vector_rows::first(&given, n);
    vector_rows::row_outcome(0, 1, gives(s, vector_rows::first(&wanted, m)))
}

// Where the head can't be read, a length is more than the most.
fn compared<R: Read>(input: &mut InputBytes<R>, head: &[u8]) -> RowOutcome {
    let n = hex_text::hex_at(head, 0, 4).unwrap_or(65536);
    let m = hex_text::hex_at(head, 5, 4).unwrap_or(65536);
    ran(input, n as usize, m as usize)
}

// What follows a case that can't be read is not looked at.
// The turns are counted, since a proved loop has to end and nothing says that the input does.
fn counted<R: Read>(input: &mut InputBytes<R>) -> RowCounts {
    let mut t = vector_rows::start();
    for _ in 0..u64::MAX {
        let mut head = [0u8; 10];
        if input.read_full(&mut head) == 0 {
            break;
        }
        t = vector_rows::count(t, compared(input, &head));
        if t.unread > 0 {
            break;
        }
    }
    t
}

fn main(rt: HostRuntime) -> io::Result<()> {
    let mut input = InputBytes::new(rt.stdin());
    let t = counted(&mut input);
    input.finish()?;
    vector_rows::print(&mut rt.stdout(), b"cases", t)
}
