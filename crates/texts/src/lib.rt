// Texts and numbers in a buffer that the caller lends.
// Promise: each function writes, from place `at` on, exactly the bytes that specs/Texts.antt defines, leaves every other byte as it was,
// and returns the place behind them (`Puts` of specs/Writing.antt). Each requires room for the longest text that it may write. The layers
// above may use `put_text`, `put_number`, `put_line` and `put_numbered`, and the laws of texts one behind the other (proofs/Writing.antt).
#![tactic(auto)]

ghost use Rattle.std.specs.Prelude.{◌++◌, ◌+◌, ◌*◌, ◌<◌, ◌≤◌, length};
ghost use Rattle.texts.specs.Texts.{two_digits, decimal, spaced, line_of};
ghost use Rattle.texts.specs.Writing.{Puts};

// A text.
pub fn put_text(out: &mut [u8], at: usize, text: &[u8]) -> usize
    requires { at + length text.now ≤ length out.old }
    ensures { Puts out.old at text.now result out.new }
{
    let end = at + text.len();
    out[at..end].copy_from_slice(text);
    end
}

// The two digits of a number below 100.
fn two_at(out: &mut [u8], at: usize, n: u64) -> usize
    requires n_bound { n < 100 }
    requires at_in_bounds { at + 2 ≤ length out.old }
    ensures { Puts out.old at (two_digits n) result out.new }
{
    out[at] = b'0' + (n / 10) as u8;
    out[at + 1] = b'0' + (n % 10) as u8;
    at + 2
}

// The digits of a number: one or two, or else those of its hundredth part, and the last two behind them.
fn digits_at(out: &mut [u8], at: usize, n: u64) -> usize
    requires { at + length (decimal n) ≤ length out.old }
    ensures { Puts out.old at (decimal n) result out.new }
{
    if n >= 100 {
        let next = digits_at(out, at, n / 100);
        two_at(out, next, n % 100)
    } else if n >= 10 {
        two_at(out, at, n)
    } else {
        out[at] = b'0' + n as u8;
        at + 1
    }
}

// A number of up to 20 digits.
pub fn put_number(out: &mut [u8], at: usize, n: u64) -> usize
    requires { at + 20 ≤ length out.old }
    ensures puts { Puts out.old at (decimal n) result out.new }
    ensures upper_bound { result ≤ at + 20 }
{
    digits_at(out, at, n)
}

// Numbers, each behind a space.
fn put_numbers(out: &mut [u8], at: usize, numbers: &[u64]) -> usize
    requires { at + 21 * length numbers.now ≤ length out.old }
    ensures puts { Puts out.old at (spaced numbers.now) result out.new }
    ensures upper_bound { result ≤ at + 21 * length numbers.now }
{
    let mut next = at;
    for n in numbers {
        out[next] = b' ';
        next = put_number(out, next + 1, *n);
    }
    next
}

// A whole line: a word, numbers and a line feed.
pub fn put_line(out: &mut [u8], at: usize, word: &[u8], numbers: &[u64]) -> usize
    requires { at + length word.now + 21 * length numbers.now + 1 ≤ length out.old }
    ensures { Puts out.old at (line_of word.now numbers.now) result out.new }
{
    let behind_word = put_text(out, at, word);
    let behind_numbers = put_numbers(out, behind_word, numbers);
    put_text(out, behind_numbers, b"\n")
}

// A number between two texts.
pub fn put_numbered(out: &mut [u8], at: usize, before: &[u8], n: u64, behind: &[u8]) -> usize
    requires { at + length before.now + 20 + length behind.now ≤ length out.old }
    ensures puts { Puts out.old at (before.now ++ decimal n ++ behind.now) result out.new }
    ensures upper_bound { result ≤ at + length before.now + 20 + length behind.now }
{
    let behind_text = put_text(out, at, before);
    let behind_number = put_number(out, behind_text, n);
    put_text(out, behind_number, behind)
}
