// Merges the ray that standard input describes, and writes its lists, or why it is refused, to standard output.
#![tactic(auto)]

use input_bytes::InputBytes;
use std::io;
use std::io::Write;

// One byte more than the longest readable input, 257 lines of 36 bytes: what is longer is seen to be.
const MOST: usize = 9253;

fn main(rt: HostRuntime) -> io::Result<()> {
    let mut input = [0u8; MOST];
    let mut stdin = InputBytes::new(rt.stdin());
    let n = stdin.read_full(&mut input);
    stdin.finish()?;
    let mut out = [0u8; 65536];
    let m = ray_text::run(&input[..n], &mut out);
    rt.stdout().write_all(&out[..m])
}
