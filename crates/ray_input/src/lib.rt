// The text that the program reads: its lines, and the pairs that they spell.
#![tactic(auto)]

ghost use Rattle.std.specs.Prelude.{◌≡◌, [], ◌∷◌, ◌+◌, ◌*◌, ◌≤◌, length, get_or};
ghost use Rattle.std.specs.Float.{binary64};
ghost use Rattle.std.specs.Float.Ieee.{of_bits};
ghost use Rattle.ray_input.specs.Format.{is_number, bits_at, is_letter, is_line, lines, count, pair_at, text_pairs, few, readable};
ghost use Rattle.ray_input.specs.Steps.{Appended};

// Whether 16 small hex digits stand at `at`.
fn is_number(s: &[u8], at: usize) -> bool
    ensures { result ≡ is_number s.now at }
{
    hex_text::word_at(s, at).is_some()
}

// The double whose bits the 16 digits at `at` spell.
pub fn double_at(s: &[u8], at: usize) -> f64
    ensures { result ≡ of_bits binary64 (bits_at s.now at) }
{
    doubles_bits::of_bits(hex_text::word_at(s, at).unwrap_or(0))
}

// Whether a line may begin with this byte.
fn is_letter(b: u8) -> bool
    ensures { result ≡ is_letter b }
{
    matches!(b, b'B' | b'P' | b'C' | b'O' | b'I')
}

// Whether a line stands at `at`.
#[tactic(auto, unfolding(crate::specs::Format::is_line))]
fn is_line(s: &[u8], at: usize) -> bool
    requires { at + 36 ≤ length s.now }
    ensures { result ≡ is_line s.now at }
{
    is_letter(s[at])
        && s[at + 1] == b' '
        && is_number(s, at + 2)
        && s[at + 18] == b' '
        && is_number(s, at + 19)
        && s[at + 35] == b'\n'
}

// Whether the first n lines are lines.
fn are_lines(s: &[u8], n: usize) -> bool
    requires { 36 * n ≤ length s.now }
    ensures { result ≡ lines s.now n }
{
    for k in 0..n {
        if !is_line(s, 36 * k) {
            return false;
        }
    }
    true
}

// How many of the first n lines have the letter c.
fn count_of(s: &[u8], n: usize, c: u8) -> usize
    requires { 36 * n ≤ length s.now }
    ensures { result ≡ count c s.now n }
{
    let mut m = 0;
    for k in 0..n {
        if s[36 * k] == c {
            m += 1;
        }
    }
    m
}

// Whether the text can be read.
#[tactic(auto, unfolding(crate::specs::Format::readable))]
pub fn is_readable(s: &[u8]) -> bool
    ensures { result ≡ readable s.now }
{
    let n = s.len() / 36;
    s.len() % 36 == 0
        && are_lines(s, n)
        && n > 0
        && s[0] == b'B'
        && count_of(s, n, b'B') == 1
        && few_lines(s, n)
}

// Whether each letter but B has at most 64 of the first n lines.
#[tactic(auto, unfolding(crate::specs::Format::few))]
fn few_lines(s: &[u8], n: usize) -> bool
    requires { 36 * n ≤ length s.now }
    ensures { result ≡ few s.now n }
{
    count_of(s, n, b'P') <= 64
        && count_of(s, n, b'C') <= 64
        && count_of(s, n, b'O') <= 64
        && count_of(s, n, b'I') <= 64
}

// Puts a pair at place m.
fn put_pair(out: &mut [f64], m: usize, lo: f64, hi: f64) -> usize
    requires { m + 2 ≤ length out.old }
    ensures { Appended out.old m (lo ∷ hi ∷ []) out.new result }
{
    out[m] = lo;
    out[m + 1] = hi;
    m + 2
}

// Puts the pair of the line at `at` at place m, where that line has the letter c.
fn put_line_of(s: &[u8], at: usize, c: u8, out: &mut [f64], m: usize) -> usize
    requires { (at + 36 ≤ length s.now) × (m ≤ length out.old) × (get_or s.now at 0 ≡ c → m + 2 ≤ length out.old) }
    ensures { Appended out.old m (pair_at c s.now at) out.new result }
{
    if s[at] != c {
        return m;
    }
    let lo = double_at(s, at + 2);
    let hi = double_at(s, at + 19);
    put_pair(out, m, lo, hi)
}

// Puts the pairs of the first n lines that have the letter c at the front of `out`, and answers how many ends they have.
pub fn collect(s: &[u8], n: usize, c: u8, out: &mut [f64]) -> usize
    requires { (36 * n ≤ length s.now) × (2 * count c s.now n ≤ length out.old) }
    ensures { Appended out.old 0 (text_pairs c s.now n) out.new result }
{
    let mut m = 0;
    for k in 0..n {
        m = put_line_of(s, 36 * k, c, out, m);
    }
    m
}
