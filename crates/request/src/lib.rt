// Which call a line asks for: one of the fourteen with its numbers, and the desk that asks, or why the line is no call. A line may begin with
// `desk` and the desk's number; the desk of any other line has all fourteen regions.
// Promise: `request_of` answers what specs/Requests.antt, the desk's protocol, says of every line of bytes, and leaves a call's numbers in
// order. `Standing` is what the layer above may use of a call: the count is right for it, and its numbers stand there.
#![tactic(auto)]

ghost use Rattle.std.specs.Prelude.{◌≡◌, ◌≤◌, length, drop};
ghost use Rattle.lines.specs.Words.{words};
ghost use Rattle.request.specs.Requests.{call_in, desk_line, request_of, Standing, StandingFor};

use naming::Word;
use tariff::ALL_FOURTEEN;

#[derive(Clone, Copy, Debug, PartialEq, Eq)]
pub enum Request {
    // No word, or a comment.
    Nothing,
    // The desk, its call, and how many numbers the call has.
    Asks(u32, Word, usize),
    // `desk` without a number or a call behind it.
    NoCall,
    // The call's own word is no call's name.
    Unknown,
    // The first word that should be a number and is none, counted over the whole line from 1.
    NotANumber(usize),
    WrongCount(Word),
}

// What a desk asks for, its call standing from `from` on, behind so many words of the line.
fn call_at(line: &[u8], from: usize, desk: u32, skipped: usize, numbers: &mut [u32]) -> Request
    requires from_in_bounds { (from ≤ length line.now) × (length line.now ≤ length numbers.old) }
    requires skipped_bound { skipped ≤ 2 }
    ensures value { result ≡ call_in desk skipped (words (drop from line.now)) }
    ensures standing_for { StandingFor result (drop 1 (words (drop from line.now))) numbers.new }
{
    let start = lines::word_start(line, from);
    if start == line.len() {
        return Request::NoCall;
    }
    let end = lines::word_end(line, start);
    let Some(word) = naming::call_named(&line[start..end]) else {
        return Request::Unknown;
    };
    match lines::numbers_from(line, end, numbers) {
        Ok(n) if naming::right_count(word, n) => Request::Asks(desk, word, n),
        Ok(_) => Request::WrongCount(word),
        Err(bad) => Request::NotANumber(skipped + bad.word + 2),
    }
}

// What is asked for behind the word `desk`, from `from` on: the desk's number and its call.
fn desk_line(line: &[u8], from: usize, numbers: &mut [u32]) -> Request
    requires { (from ≤ length line.now) × (length line.now ≤ length numbers.old) }
    ensures value { result ≡ desk_line (words (drop from line.now)) }
    ensures standing_for { StandingFor result (drop 2 (words (drop from line.now))) numbers.new }
{
    let start = lines::word_start(line, from);
    match lines::number_at(line, start) {
        Some((desk, end)) => call_at(line, end, desk, 2, numbers),
        None => Request::NoCall,
    }
}

// What a line asks for, without its line feed and a carriage return at its end. A word has a byte at least, so there is a place for each number.
pub fn request_of(line: &[u8], numbers: &mut [u32]) -> Request
    requires { length line.now ≤ length numbers.old }
    ensures value { result ≡ request_of line.now }
    ensures standing { Standing result line.now numbers.new }
{
    let start = lines::word_start(line, 0);
    if start == line.len() || line[start] == b'#' {
        return Request::Nothing;
    }
    let end = lines::word_end(line, start);
    if &line[start..end] == b"desk".as_slice() {
        desk_line(line, end, numbers)
    } else {
        call_at(line, start, ALL_FOURTEEN, 0, numbers)
    }
}
