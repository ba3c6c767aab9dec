// The protocol of the desk, line by line: what is answered to one line that is no call, and which call any other asks for (docs/PROTOCOL.md).
// Promise: specs/Lines.antt is the desk's protocol for one line, its answer and the book after it. `say_line` answers every line that
// is no call, whatever the book, and says which call any other asks for; crate doing does that call and answers it.
#![tactic(auto)]

ghost use Rattle.std.specs.Prelude.{◌+◌, ◌≤◌, length};
ghost use Rattle.book.specs.declared.Book.{Book};
ghost use Rattle.book.specs.Book.{Reachable};
ghost use Rattle.naming.specs.declared.Word.TheVariants.{Tells};
ghost use Rattle.request.specs.Requests.{request_of, numbers_of};
ghost use Rattle.answers.specs.Answers.{answer_room};
ghost use Rattle.lines.specs.Words.{longest_line, between};
ghost use Rattle.protocol.specs.Lines.{request_line, line_at};
ghost use Rattle.protocol.specs.Promises.{Says};

use naming::{CodeStep, Query, Word};
use request::Request;

// The calls that leave the book as it is: one that tells of it, or REBATE.
#[derive(Clone, Copy)]
pub enum Question {
    Of(Query),
    Rebate,
}

// A line was answered, up to this place of the output; or it is a call with so many numbers, of a desk, and is still to be done: SET, UNDO, a
// call on a code, or one that leaves the book as it is.
#[derive(Clone, Copy)]
pub enum Said {
    Answer(usize),
    Set(usize, u32),
    Undo(u32),
    On(CodeStep, usize, u32),
    Tells(Question, usize, u32),
}

// Answers a line, without its line feed and the carriage return before it, unless it is a call. l is its number.
fn say(line: &[u8], l: u64, numbers: &mut [u32], out: &mut [u8], at: usize) -> Said
    requires { (length line.now ≤ length numbers.old) × (at + answer_room ≤ length out.old) }
    ensures { (b : Book) → Reachable b → Says result b (request_line b l (request_of line.now) (numbers_of line.now)) at out.old out.new numbers.new }
{
    let asked = request::request_of(line, numbers);
    let Request::Asks(desk, word, n) = asked else {
        return Said::Answer(errors::put_problem(out, at, l, asked));
    };
    match word {
        Word::Set => Said::Set(n, desk),
        Word::Undo => Said::Undo(desk),
        Word::On(step) => Said::On(step, n, desk),
        Word::Tells(query) => Said::Tells(Question::Of(query), n, desk),
        Word::Rebate => Said::Tells(Question::Rebate, n, desk),
    }
}

// The same of the line input[from..to]. `cut`: its start was dropped, since it is too long.
pub fn say_line(
    input: &[u8],
    from: usize,
    to: usize,
    cut: bool,
    l: u64,
    numbers: &mut [u32],
    out: &mut [u8],
    at: usize,
) -> Said
    requires { (from ≤ to) × (to ≤ length input.now) × (longest_line ≤ length numbers.old) × (at + answer_room ≤ length out.old) }
    ensures { (b : Book) → Reachable b → Says result b (line_at b l cut (between input.now from to)) at out.old out.new numbers.new }
{
    if cut {
        return Said::Answer(errors::put_too_long(out, at, l));
    }
    if 16384 < to - from {
        return Said::Answer(errors::put_too_long(out, at, l));
    }
    let end = lines::without_return(input, from, to);
    say(&input[from..end], l, numbers, out, at)
}
