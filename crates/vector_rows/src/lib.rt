// What programs that replay recorded answers share: the rows of the input, what their words say, whether the cells of a buffer are
// the recorded ones, the counts of the rows, and how they are printed. Past a row every word is 0.
#![tactic(auto)]

ghost use Rattle.std.specs.Prelude.{◌≡◌, length, take, ◌+◌, ◌*◌, ◌^◌, ◌<◌, ◌≤◌};
ghost use Rattle.std.specs.Float.{nan};
ghost use Rattle.enum_codes.specs.Codes.{named_shape};
ghost use Rattle.vector_rows.specs.Words.{word_of, double_of, CellsFilled, spec_of, units_of, cutter_of};
ghost use Rattle.vector_rows.specs.Agreement.{cell_agrees, number_agrees, cell_right, number_right, Every};
ghost use Rattle.vector_rows.specs.RowCounts.{none, up, counted, outcome_of};
ghost use Rattle.vector_rows.specs.ReadWords.{Reads};
ghost use Rattle.vector_rows.specs.Replays.{RowPre, NextRowPost};

use cutter::{CutterShape, PreparedCutter};
use grid::{DexelStockSpec, Vec3};
use input_bytes::InputBytes;
use std::io;
use std::io::{Read, Write};

// The bits of 7, which a cell holds that nothing wrote.
const SEVEN: u64 = 0x401c_0000_0000_0000;

// Word k of those from place `from` on.
#[tactic(auto, unfolding(crate::specs::Words::word_of))]
fn word_of(w: &[u64], from: usize, k: usize) -> u64
    ensures { result ≡ word_of w.now from k }
{
    w.get(from.saturating_add(k)).copied().unwrap_or(0)
}

// The double whose bits that word is.
fn double_of(w: &[u64], from: usize, k: usize) -> f64
    ensures { result ≡ double_of w.now from k }
{
    doubles_bits::of_bits(word_of(w, from, k))
}

// Fills `out` with the doubles from word `from` on.
pub fn doubles_at(w: &[u64], from: usize, out: &mut [f64])
    ensures { CellsFilled nan (double_of w.now from) out.new }
{
    for (k, x) in out.iter_mut().enumerate() {
        *x = double_of(w, from, k);
    }
}

// Fills `out` with the words from place `from` on.
pub fn numbers_at(w: &[u64], from: usize, out: &mut [u64])
    ensures { CellsFilled 0 (word_of w.now from) out.new }
{
    for (k, n) in out.iter_mut().enumerate() {
        *n = word_of(w, from, k);
    }
}

// The description whose version is word `version`, and whose other words stand from place `from` on.
pub fn spec_at(w: &[u64], version: usize, from: usize) -> DexelStockSpec
    ensures { result ≡ spec_of w.now version from }
{
    DexelStockSpec {
        version: (word_of(w, version, 0) % 0x1_0000_0000) as u32,
        min_mm: Vec3 {
            x: double_of(w, from, 0),
            y: double_of(w, from, 1),
            z: double_of(w, from, 2),
        },
        max_mm: Vec3 {
            x: double_of(w, from, 3),
            y: double_of(w, from, 4),
            z: double_of(w, from, 5),
        },
        cell_size_mm: double_of(w, from, 6),
        max_rays: word_of(w, from, 7),
        max_intervals: word_of(w, from, 8),
    }
}

// The units "mm" where the word is 0, else "cm".
#[tactic(auto, unfolding(crate::specs::Words::units_of))]
pub fn units_of(word: u64) -> [u8; 2]
    ensures { result ≡ units_of word }
{
    if word == 0 { *b"mm" } else { *b"cm" }
}

// The cutter whose words stand from place `from` on.
pub fn cutter_at(w: &[u64], from: usize) -> PreparedCutter
    ensures { result ≡ cutter_of w.now from }
{
    PreparedCutter {
        diameter_mm: double_of(w, from, 0),
        cutting_length_mm: double_of(w, from, 1),
        overall_length_mm: double_of(w, from, 2),
        neck_diameter_mm: double_of(w, from, 3),
        shank_diameter_mm: double_of(w, from, 4),
        radius: double_of(w, from, 5),
        tip_height: double_of(w, from, 6),
        slope: double_of(w, from, 7),
        shoulder: double_of(w, from, 8),
    }
}

// The shape whose number is word `from`, and whose own numbers are the two behind it.
pub fn shape_at(w: &[u64], from: usize) -> CutterShape
    ensures { result ≡ named_shape (word_of w.now from 0) (double_of w.now from 1)
        (double_of w.now from 2) }
{
    enum_codes::named_shape(
        word_of(w, from, 0),
        double_of(w, from, 1),
        double_of(w, from, 2),
    )
}

// The first n elements, or all where there are fewer.
pub fn first<T>(list: &[T], n: usize) -> &[T]
    ensures { result.now ≡ take n list.now }
{
    &list[..n.min(list.len())]
}

// The same, to be written.
pub fn first_mut<T>(list: &mut [T], n: usize) -> &mut [T]
    ensures { result.now ≡ take n list.old }
{
    let end = n.min(list.len());
    &mut list[..end]
}

// Whether cell k is right: 7 from `room` on, in front of that the word, as a number where k is below `ends`.
#[tactic(auto, unfolding(crate::specs::Agreement::cell_agrees))]
fn cell_agrees(x: f64, k: usize, ends: usize, room: usize, word: u64) -> bool
    ensures { result ≡ cell_agrees x k ends room word }
{
    if room <= k {
        doubles_bits::bits_of(x) == SEVEN
    } else if ends <= k {
        doubles_bits::bits_of(x) == word
    } else {
        x == doubles_bits::of_bits(word)
    }
}

// Whether each cell is right, the words standing from place `from` on.
pub fn cells_agree(cells: &[f64], w: &[u64], from: usize, ends: usize, room: usize) -> bool
    ensures { Every (cell_right cells.now w.now from ends room) (length cells.now) result }
{
    for (k, x) in cells.iter().enumerate() {
        if !cell_agrees(*x, k, ends, room, word_of(w, from, k)) {
            return false;
        }
    }
    true
}

#[tactic(auto, unfolding(crate::specs::Agreement::number_agrees))]
fn number_agrees(n: u64, k: usize, room: usize, word: u64) -> bool
    ensures { result ≡ number_agrees n k room word }
{
    n == if k < room { word } else { 7 }
}

// The same of whole numbers.
pub fn numbers_agree(cells: &[u64], w: &[u64], from: usize, room: usize) -> bool
    ensures { Every (number_right cells.now w.now from room) (length cells.now) result }
{
    for (k, n) in cells.iter().enumerate() {
        if !number_agrees(*n, k, room, word_of(w, from, k)) {
            return false;
        }
    }
    true
}

// What a row showed of the function of this number, or that it can't be read.
#[derive(Clone, Copy, Debug, PartialEq, Eq)]
pub enum RowOutcome {
    Agrees(u64),
    Differs(u64),
    Unread,
}

// How many rows of each function agree and differ, how many can't be read, how many there were, and the number of the
// first that differs, from 1.
#[derive(Clone, Copy, Debug, PartialEq, Eq)]
pub struct RowCounts {
    pub agree: [u64; 16],
    pub differ: [u64; 16],
    pub unread: u64,
    pub rows: u64,
    pub first: u64,
}

pub fn start() -> RowCounts
    ensures { result ≡ none }
{
    RowCounts {
        agree: [0; 16],
        differ: [0; 16],
        unread: 0,
        rows: 0,
        first: 0,
    }
}

// One more, up to the largest count.
#[tactic(auto, unfolding(crate::specs::RowCounts::up))]
fn one_more(n: u64) -> u64
    ensures { result ≡ up n }
{
    n.saturating_add(1)
}

// Counts a row. One of a function from 16 on can't be read.
#[tactic(auto, unfolding(crate::specs::RowCounts::counted, crate::specs::RowCounts::agreed, crate::specs::RowCounts::differed, crate::specs::RowCounts::missed, crate::specs::RowCounts::up_at, crate::specs::RowCounts::first_differing))]
pub fn count(t: RowCounts, o: RowOutcome) -> RowCounts
    ensures { result ≡ counted t o }
{
    let mut next = t;
    next.rows = one_more(t.rows);
    match o {
        RowOutcome::Agrees(k) if k < 16 => next.agree[k as usize] = one_more(t.agree[k as usize]),
        RowOutcome::Differs(k) if k < 16 => {
            next.differ[k as usize] = one_more(t.differ[k as usize]);
            if t.first == 0 {
                next.first = next.rows;
            }
        }
        RowOutcome::Agrees(_) | RowOutcome::Differs(_) | RowOutcome::Unread => next.unread =
            one_more(t.unread),
    }
    next
}

// What a row of function k of so many showed.
#[tactic(auto, unfolding(crate::specs::RowCounts::outcome_of))]
pub fn row_outcome(k: u64, functions: u64, agrees: bool) -> RowOutcome
    ensures { result ≡ outcome_of k functions agrees }
{
    if functions <= k {
        RowOutcome::Unread
    } else if agrees {
        RowOutcome::Agrees(k)
    } else {
        RowOutcome::Differs(k)
    }
}

// Reads a number of 16 digits for each cell of `out`, from place `at` on, with one byte behind each, and answers whether all were there.
pub fn read_words(text: &[u8], at: usize, out: &mut [u64]) -> bool
    requires { at + 17 * length out.old < 2 ^ 64 }
    ensures { Reads text.now at out.new result }
{
    for (i, n) in out.iter_mut().enumerate() {
        match hex_text::word_at(text, at + 17 * i) {
            Some(w) => *n = w,
            None => return false,
        }
    }
    true
}

// What was found of a row.
#[derive(Clone, Copy, Debug, PartialEq, Eq)]
enum RowFound {
    Words,
    Unread,
    End,
}

// Reads the bytes from `start` to `end` from the input, and answers how many there were.
fn read_text<R: Read>(input: &mut InputBytes<R>, text: &mut [u8], start: usize, end: usize) -> usize
    requires { (start ≤ end) × (end ≤ length text.old) }
    ensures { result ≤ end }
{
    input.read_full(&mut text[start..end])
}

// Reads the next row, a word for each cell of `out`. The first word has `head` digits, and is read behind zeros, so that each has 16.
// The byte behind the last word may be missing.
fn read_row<R: Read>(input: &mut InputBytes<R>, head: usize, out: &mut [u64]) -> RowFound
    requires { RowPre head (length out.old) }
{
    let mut text = [b'0'; 4131];
    let start = 16 - head;
    let end = 17 * out.len();
    let got = read_text(input, &mut text, start, end);
    if got == 0 {
        return RowFound::End;
    }
    if start + got + 1 < end {
        return RowFound::Unread;
    }
    if read_words(&text, 0, out) {
        return RowFound::Words;
    }
    RowFound::Unread
}

// A replay: the counts so far, and how many more rows it may read, 0 where no row is at hand. A proved loop has to end, and nothing
// says that the input does.
#[derive(Clone, Copy, Debug, PartialEq, Eq)]
pub struct Replay {
    pub counts: RowCounts,
    pub left: u64,
}

// Reads on to the next row that can be read, and counts those that can't be.
fn read_on<R: Read>(input: &mut InputBytes<R>, r: Replay, head: usize, out: &mut [u64]) -> Replay
    requires { RowPre head (length out.old) × (0 < r.left) }
    ensures { NextRowPost r.counts r.left result }
{
    let mut t = r.counts;
    for left in (0..r.left).rev() {
        match read_row(input, head, out) {
            RowFound::Words => return Replay { counts: t, left },
            RowFound::End => break,
            RowFound::Unread => t = count(t, RowOutcome::Unread),
        }
    }
    Replay { counts: t, left: 0 }
}

// A replay at its first row: word 0 of each row has `head` digits, the others have 16.
pub fn first_row<R: Read>(input: &mut InputBytes<R>, head: usize, out: &mut [u64]) -> Replay
    requires { RowPre head (length out.old) }
    ensures { NextRowPost none 18446744073709551615 result }
{
    let r = Replay {
        counts: start(),
        left: u64::MAX,
    };
    read_on(input, r, head, out)
}

// Counts whether the row at hand, of function k of so many, agrees, and goes on to the next.
pub fn next_row<R: Read>(
    input: &mut InputBytes<R>,
    r: Replay,
    k: u64,
    functions: u64,
    agrees: bool,
    head: usize,
    out: &mut [u64],
) -> Replay
    requires { RowPre head (length out.old) × (0 < r.left) }
    ensures { NextRowPost (counted r.counts (outcome_of k functions agrees)) r.left result }
{
    let next = Replay {
        counts: count(r.counts, row_outcome(k, functions, agrees)),
        left: r.left,
    };
    read_on(input, next, head, out)
}

fn print_number<W: Write>(output: &mut W, name: &[u8], n: u64) -> io::Result<()> {
    output.write_all(name)?;
    write!(output, " {n}")
}

// Prints how many rows of function k agree and differ.
fn print_counts<W: Write>(output: &mut W, name: &[u8], t: RowCounts, k: usize) -> io::Result<()> {
    if k < 16 {
        print_number(output, name, t.agree[k])?;
        print_number(output, b"", t.differ[k])?;
        output.write_all(b"\n")?;
    }
    Ok(())
}

// Prints how many rows can't be read, and the first that differs, 0 for none.
fn print_end<W: Write>(output: &mut W, t: RowCounts) -> io::Result<()> {
    print_number(output, b"unread", t.unread)?;
    print_number(output, b"\nfirst that differs", t.first)?;
    output.write_all(b"\n")
}

// Prints the counts of each function, and what is left of the tally. The functions' names stand in order, with a space between two.
pub fn print<W: Write>(output: &mut W, names: &[u8], t: RowCounts) -> io::Result<()> {
    for (k, name) in names.split(|b| *b == b' ').enumerate() {
        print_counts(output, name, t, k)?;
    }
    print_end(output, t)
}
