// The answers of all calls but REBATE, as text in a buffer that the caller lends.
// Promise: each function puts exactly the text that specs/Answers.antt defines (`Puts` of texts). The layer above may use `put_reply`, for a
// call that may change the book, and `put_told`, for one that tells of it; they require `step_room` and `short_room`, room for the longest
// answer of each. `answer_room` is room for any answer, that of REBATE included.
#![tactic(auto)]

ghost use Rattle.std.specs.Prelude.{◌≡◌, [], ◌∷◌, ◌+◌, ◌≤◌, pos, length, take};
ghost use Rattle.verdict.specs.Cells.{cell};
ghost use Rattle.book.specs.Calls.{over};
ghost use Rattle.book.specs.Promises.{answer_of};
ghost use Rattle.queries.specs.Queries.{telling_of};
ghost use Rattle.texts.specs.Texts.{bytes_of, line_of};
ghost use Rattle.texts.specs.Writing.{Puts};
ghost use Rattle.answers.specs.Answers.{step_room, short_room, answer_text, told_text};

use book::Reply;
use queries::Told;

// No line has more accounts; and room for any answer of a line.
pub const ACCOUNTS_MOST: usize = 1024;

pub const ANSWER_ROOM: usize = 2 + 21 * (1 + ACCOUNTS_MOST) + 1;

// ok and one number
fn put_ok(out: &mut [u8], at: usize, x: u64) -> usize
    requires { at + short_room ≤ length out.old }
    ensures { Puts out.old at (line_of (bytes_of "ok") (x ∷ [])) result out.new }
{
    texts::put_line(out, at, b"ok", &[x])
}

// ok and two numbers
fn put_two(out: &mut [u8], at: usize, x: u64, y: u64) -> usize
    requires { at + short_room ≤ length out.old }
    ensures { Puts out.old at (line_of (bytes_of "ok") (x ∷ y ∷ [])) result out.new }
{
    texts::put_line(out, at, b"ok", &[x, y])
}

// refused and its number
fn put_refused(out: &mut [u8], at: usize, n: u32) -> usize
    requires { at + short_room ≤ length out.old }
    ensures { Puts out.old at (line_of (bytes_of "refused") (n ∷ [])) result out.new }
{
    texts::put_line(out, at, b"refused", &[u64::from(n)])
}

// The numbers of refusal 11: 11, region, method, excess and 12 months.
fn over_numbers(region: u32, method: u32, excess: u64, months: [u32; 12]) -> [u64; 16]
    ensures { result ≡ 11 ∷ region ∷ method ∷ excess ∷ months }
{
    let mut numbers = [0u64; 16];
    numbers[0] = 11;
    numbers[1] = u64::from(region);
    numbers[2] = u64::from(method);
    numbers[3] = excess;
    for i in 0..12 {
        numbers[4 + i] = u64::from(months[i]);
    }
    numbers
}

// refused 11 REGION METHOD EXCESS M1 .. Mt
fn put_over(
    out: &mut [u8],
    at: usize,
    region: u32,
    method: u32,
    t: u32,
    excess: u64,
    months: [u32; 12],
) -> usize
    requires { at + step_room ≤ length out.old }
    ensures { Puts out.old at (answer_text (over (cell region method) (take t months) (pos excess))) result out.new }
{
    let numbers = over_numbers(region, method, excess, months);
    if t < 12 {
        let count = 4 + t as usize;
        return texts::put_line(out, at, b"refused", &numbers[..count]);
    }
    texts::put_line(out, at, b"refused", &numbers)
}

// The answer of SET, PUT, OPEN, CLOSE, DROP, UNDO, ASK, CONFIRM or DIRECT, with the months that stand beside it.
pub fn put_reply(out: &mut [u8], at: usize, reply: Reply, months: [u32; 12]) -> usize
    requires { at + step_room ≤ length out.old }
    ensures { Puts out.old at (answer_text (answer_of reply months)) result out.new }
{
    match reply {
        Reply::Accepted => texts::put_text(out, at, b"ok\n"),
        Reply::Cells(cells) => put_ok(out, at, u64::from(cells)),
        Reply::Refused(n) => put_refused(out, at, n),
        Reply::Over(region, method, t, excess) => {
            put_over(out, at, region, method, t, excess, months)
        }
    }
}

// The answer of BENCHMARK, MAXIMUM, QUOTE or TRIAL.
pub fn put_told(out: &mut [u8], at: usize, told: Told) -> usize
    requires { at + short_room ≤ length out.old }
    ensures { Puts out.old at (told_text (telling_of told)) result out.new }
{
    match told {
        Told::Refused(n) => put_refused(out, at, n),
        Told::Benchmark(mills) => put_ok(out, at, mills),
        Told::Maximum {
            number,
            denominator,
        } => put_two(out, at, number, denominator),
        Told::Quote { charge, maximum } => put_two(out, at, charge, maximum),
        Told::Falling(codes) => put_ok(out, at, u64::from(codes)),
    }
}
