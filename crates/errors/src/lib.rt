// What is answered to a line that is no call, as text in a buffer that the caller lends.
// Promise: each function puts exactly the text that specs/Errors.antt defines (`Puts` of texts). The layer above may use `put_problem`, for
// whatever is wrong with a line, and `put_too_long`; both require `error_room`, room for the longest error. Nothing here knows of the book.
#![tactic(auto)]

ghost use Rattle.std.specs.Prelude.{◌++◌, ◌+◌, ◌≤◌, length};
ghost use Rattle.texts.specs.Writing.{Puts};
ghost use Rattle.naming.specs.Naming.{name_of, arity};
ghost use Rattle.errors.specs.Errors.{error_room, error_start, too_long, not_a_number_text, count_text, arity_text, problem_text};

use naming::{Arity, Word};
use request::Request;

// error line L:
fn put_error(out: &mut [u8], at: usize, l: u64) -> usize
    requires { at + 33 ≤ length out.old }
    ensures puts { Puts out.old at (error_start l) result out.new }
    ensures upper_bound { result ≤ at + 33 }
{
    texts::put_numbered(out, at, b"error line ", l, b": ")
}

// error line L: TEXT
fn put_error_text(out: &mut [u8], at: usize, l: u64, text: &[u8]) -> usize
    requires { at + length text.now + 33 ≤ length out.old }
    ensures { Puts out.old at (error_start l ++ text.now) result out.new }
{
    let next = put_error(out, at, l);
    texts::put_text(out, next, text)
}

// error line L: longer than 16384 bytes
pub fn put_too_long(out: &mut [u8], at: usize, l: u64) -> usize
    requires { at + error_room ≤ length out.old }
    ensures { Puts out.old at (too_long l) result out.new }
{
    put_error_text(out, at, l, b"longer than 16384 bytes\n")
}

// word K is not a number from 0 to 4294967295
fn put_not_a_number(out: &mut [u8], at: usize, k: usize) -> usize
    requires { at + 64 ≤ length out.old }
    ensures { Puts out.old at (not_a_number_text k) result out.new }
{
    texts::put_numbered(
        out,
        at,
        b"word ",
        k as u64,
        b" is not a number from 0 to 4294967295\n",
    )
}

// N numbers, behind a text.
fn put_count(out: &mut [u8], at: usize, text: &[u8], n: usize) -> usize
    requires { at + length text.now + 29 ≤ length out.old }
    ensures { Puts out.old at (count_text text.now n) result out.new }
{
    let behind: &[u8] = if n == 1 { b" number\n" } else { b" numbers\n" };
    texts::put_numbered(out, at, text, n as u64, behind)
}

// takes N numbers, or none, or at least N, or N an account
fn put_arity(out: &mut [u8], at: usize, arity: Arity) -> usize
    requires { at + 47 ≤ length out.old }
    ensures { Puts out.old at (arity_text arity) result out.new }
{
    match arity {
        Arity::Exactly(0) => texts::put_text(out, at, b" takes no number\n"),
        Arity::Exactly(n) => put_count(out, at, b" takes ", n),
        Arity::AtLeast(n) => put_count(out, at, b" takes at least ", n),
        Arity::Each(n) => texts::put_numbered(
            out,
            at,
            b" takes ",
            n as u64,
            b" numbers an account\n",
        ),
    }
}

// A call's name, and how many numbers it takes.
fn put_wrong_count(out: &mut [u8], at: usize, word: Word) -> usize
    requires { at + 64 ≤ length out.old }
    ensures { Puts out.old at (name_of word ++ arity_text (arity word)) result out.new }
{
    let form = naming::form_of(word);
    let behind_name = texts::put_text(out, at, form.name);
    put_arity(out, behind_name, form.arity)
}

// The answer to a line that is no call: nothing to a line that is passed over, and else its error.
pub fn put_problem(out: &mut [u8], at: usize, l: u64, request: Request) -> usize
    requires { at + error_room ≤ length out.old }
    ensures { Puts out.old at (problem_text l request) result out.new }
{
    match request {
        Request::Nothing | Request::Asks(..) => at,
        Request::NoCall => put_error_text(out, at, l, b"desk takes a number and a call\n"),
        Request::Unknown => put_error_text(out, at, l, b"unknown call\n"),
        Request::NotANumber(k) => {
            let next = put_error(out, at, l);
            put_not_a_number(out, next, k)
        }
        Request::WrongCount(word) => {
            let next = put_error(out, at, l);
            put_wrong_count(out, next, word)
        }
    }
}
