// Words and numbers in a line of bytes, and where a line ends.
// Promise: a line's words are the runs of bytes between its spaces, a number is one or more digits of value at most 4294967295, and the
// numbers of a line are read in one pass over its bytes, whatever stands there. The definitions are in specs/Words.antt and specs/Numerals.antt.
#![tactic(auto)]

ghost use Rattle.std.specs.Prelude.{◌≡◌, ◌+◌, ◌-◌, ◌≤◌, length, take, drop};
ghost use Rattle.lines.specs.Words.{index_of, words, spaces, without_return};
ghost use Rattle.lines.specs.Numerals.{number_at, numbers_in, Written};

use memchr::memchr;

// A word that is no number: its place among the words read, counted from 0.
#[derive(Clone, Copy, Debug, PartialEq, Eq)]
pub struct NotANumber {
    pub word: usize,
}

// The place of the first byte `b` of s[from..to], or `to`.
fn find(s: &[u8], from: usize, to: usize, b: u8) -> usize
    requires { (from ≤ to) × (to ≤ length s.now) }
    ensures value { result ≡ from + index_of b (take (to - from) (drop from s.now)) }
    ensures upper_bound { result ≤ to }
{
    let part = &s[from..to];
    from + memchr(b, part).unwrap_or(part.len())
}

// The place of the first line feed of s[from..to], or `to`.
pub fn line_end(s: &[u8], from: usize, to: usize) -> usize
    requires { (from ≤ to) × (to ≤ length s.now) }
    ensures value { result ≡ from + index_of 10 (take (to - from) (drop from s.now)) }
    ensures lower_bound { (from ≤ result) × (result ≤ to) }
{
    find(s, from, to, b'\n')
}

// The end of the line s[from..to], less a carriage return at its end.
pub fn without_return(s: &[u8], from: usize, to: usize) -> usize
    requires { (from ≤ to) × (to ≤ length s.now) }
    ensures s_value { take (result - from) (drop from s.now) ≡ without_return (take (to - from) (drop from s.now)) }
    ensures lower_bound { (from ≤ result) × (result ≤ to) }
{
    if from < to && s[to - 1] == b'\r' {
        to - 1
    } else {
        to
    }
}

// The first byte at or behind `from` that is no space, or the length.
pub fn word_start(line: &[u8], from: usize) -> usize
    requires { from ≤ length line.now }
    ensures value { result ≡ from + spaces (drop from line.now) }
    ensures upper_bound { result ≤ length line.now }
{
    from + line[from..].iter().take_while(|b| **b == b' ').count()
}

// The first space at or behind `from`, or the length.
pub fn word_end(line: &[u8], from: usize) -> usize
    requires { from ≤ length line.now }
    ensures value { result ≡ from + index_of 32 (drop from line.now) }
    ensures upper_bound { result ≤ length line.now }
{
    find(line, from, line.len(), b' ')
}

// The number that begins at `from`, with the place behind it. A word is left at its first byte that is no digit, and once its value is too large.
pub fn number_at(line: &[u8], from: usize) -> Option<(u32, usize)>
    requires { from ≤ length line.now }
    ensures { result ≡ number_at line.now from }
{
    let mut v: u64 = 0;
    let mut end = from;
    for &b in &line[from..] {
        if b == b' ' {
            break;
        }
        if !b.is_ascii_digit() {
            return None;
        }
        v = 10 * v + u64::from(b - b'0');
        if v > u64::from(u32::MAX) {
            return None;
        }
        end += 1;
    }
    if end == from {
        None
    } else {
        Some((v as u32, end))
    }
}

// All words from `from` on, as numbers, and how many these are. `out` has a place for each, since a word has a byte at least.
pub fn numbers_from(line: &[u8], from: usize, out: &mut [u32]) -> Result<usize, NotANumber>
    requires { (from ≤ length line.now) × (length line.now ≤ length out.old) }
    ensures value { result ≡ numbers_in (words (drop from line.now)) }
    ensures written { Written result (drop from line.now) out.new }
{
    let mut i = word_start(line, from);
    let mut n: usize = 0;
    while i < line.len() {
        let (v, end) = number_at(line, i).ok_or(NotANumber { word: n })?;
        out[n] = v;
        n += 1;
        i = word_start(line, end);
    }
    Ok(n)
}
