// The text that the program writes.
#![tactic(auto)]

ghost use Rattle.std.specs.Prelude.{◌||◌, ◌≡◌, [], ◌∷◌, ◌+◌, ◌*◌, ◌%◌, ◌≤◌, ◌<◌, length};
ghost use Rattle.ray_input.specs.Steps.{Appended};
ghost use Rattle.ray_output.specs.Output.{glyph, hex, field_text, line_text, lines_text, end_text, refused_text};

// Puts a byte at place `at`.
fn put_byte(out: &mut [u8], at: usize, b: u8) -> usize
    requires { at < length out.old }
    ensures { Appended out.old at (b ∷ []) out.new result }
{
    out[at] = b;
    at + 1
}

// The small hex digit of a number below 16.
fn glyph_of(d: u64) -> u8
    requires { d < 16 }
    ensures { result ≡ glyph d }
{
    if d < 10 {
        b'0' + d as u8
    } else {
        b'a' + (d as u8 - 10)
    }
}

// Puts the 16 hex digits of v, from the last to the first.
fn put_hex(out: &mut [u8], at: usize, v: u64) -> usize
    requires { at + 16 ≤ length out.old }
    ensures { Appended out.old at (hex 16 v) out.new result }
{
    let mut rest = v;
    for k in (0..16).rev() {
        out[at + k] = glyph_of(rest % 16);
        rest /= 16;
    }
    at + 16
}

// Puts a space and the bits of a double.
fn put_field(out: &mut [u8], at: usize, x: f64) -> usize
    requires { at + 17 ≤ length out.old }
    ensures { Appended out.old at (field_text x) out.new result }
{
    let bits = doubles_bits::bits_of(x);
    let n = put_byte(out, at, b' ');
    put_hex(out, n, bits)
}

// Puts a line.
fn put_line(out: &mut [u8], at: usize, c: u8, lo: f64, hi: f64) -> usize
    requires { at + 36 ≤ length out.old }
    ensures { Appended out.old at (line_text c lo hi) out.new result }
{
    let n1 = put_byte(out, at, c);
    let n2 = put_field(out, n1, lo);
    let n3 = put_field(out, n2, hi);
    put_byte(out, n3, b'\n')
}

// Puts a line for each pair of a list.
pub fn put_lines(out: &mut [u8], at: usize, c: u8, list: &[f64]) -> usize
    requires { (length list.now % 2 ≡ 0) × (at + 18 * length list.now ≤ length out.old) }
    ensures { Appended out.old at (lines_text c list.now) out.new result }
{
    let mut n = at;
    for k in (0..list.len()).step_by(2) {
        n = put_line(out, n, c, list[k], list[k + 1]);
    }
    n
}

// Puts the bytes of a text.
fn put_text(out: &mut [u8], at: usize, text: &[u8]) -> usize
    requires { at + length text.now ≤ length out.old }
    ensures { Appended out.old at text.now out.new result }
{
    let end = at + text.len();
    out[at..end].copy_from_slice(text);
    end
}

// Puts `changed` where a list moved, else `same`.
#[tactic(auto, unfolding(crate::specs::Output::end_text))]
pub fn put_end(out: &mut [u8], at: usize, p: bool, c: bool) -> usize
    requires { at + 8 ≤ length out.old }
    ensures { Appended out.old at (end_text (p || c)) out.new result }
{
    if p || c {
        return put_text(out, at, b"changed\n");
    }
    put_text(out, at, b"same\n")
}

// Puts `refused` and a number of two digits.
pub fn put_refused(out: &mut [u8], k: u32) -> usize
    requires { (11 ≤ length out.old) × (k < 100) }
    ensures { Appended out.old 0 (refused_text k) out.new result }
{
    let n1 = put_text(out, 0, b"refused ");
    let n2 = put_byte(out, n1, b'0' + (k / 10) as u8);
    let n3 = put_byte(out, n2, b'0' + (k % 10) as u8);
    put_byte(out, n3, b'\n')
}
