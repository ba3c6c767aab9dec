// The calls of the desk's lines, done and answered (docs/PROTOCOL.md).
// Promise: `do_set`, `do_undo`, `do_on` and `do_tell` each do a call as protocol's specs/Lines.antt says of its line (`call_line`), for its desk, and
// write its answer. They require document 01's own sentence on the book, `Reachable`. Each call is done apart, so that the book is handed over
// only where a call needs it, and handed back by SET and UNDO alone; a call on a code takes and returns one place, and the caller stores it in its
// own book, with what is kept for UNDO (`HasPlace`, `stored_in`).
#![tactic(auto)]

ghost use Rattle.std.specs.Prelude.{◌≡◌, ℕ, ◌+◌, ◌*◌, ◌≤◌, length, get_or};
ghost use Rattle.book.specs.declared.Book.{Book};
ghost use Rattle.book.specs.Calls.{UNDO, by};
ghost use Rattle.book.specs.Book.{Reachable};
ghost use Rattle.book.specs.Promises.{Does};
ghost use Rattle.book.specs.Settling.{stored_in, settled_in, HasPlace};
ghost use Rattle.queries.specs.Queries.{telling_of};
ghost use Rattle.naming.specs.Naming.{account_numbers, arity, RightCount};
ghost use Rattle.naming.specs.declared.Word.TheVariants.{Tells};
ghost use Rattle.answers.specs.Answers.{accounts_most, answer_room};
ghost use Rattle.protocol.specs.Lines.{period_of, on_of, told_of, step_line, call_line};
ghost use Rattle.protocol.specs.Promises.{asking, Answered};

use benchmark::Benchmarks;
use book::{Book, Place, Reply, Settled};
use calendar::Period;
use codes::CodeAct;
use naming::{CodeStep, Query, Word};
use protocol::Question;
use queries::Told;

// The period of a sheet that is set or tried: year, month and t.
fn period_of(numbers: &[u32]) -> Period
    requires { 3 ≤ length numbers.now }
    ensures { result ≡ period_of numbers.now }
{
    Period {
        year: numbers[0],
        month: numbers[1],
        months: numbers[2],
    }
}

// What the book tells a desk.
fn told(b: Book, desk: u32, query: Query, numbers: &[u32]) -> Told
    requires { Reachable b × RightCount (arity (Tells query)) (length numbers.now) }
    ensures { telling_of result ≡ told_of b desk query numbers.now }
{
    match query {
        Query::Benchmark => {
            queries::benchmark(b, desk, numbers[0], numbers[1], numbers[2], numbers[3])
        }
        Query::Maximum => {
            queries::maximum(b, desk, numbers[0], numbers[1], numbers[2], numbers[3])
        }
        Query::Quote => quoting::quote(b, desk, numbers[0], numbers[1], numbers[2], &numbers[3..]),
        Query::Trial => {
            let period = period_of(numbers);
            trial::trial(b, desk, &numbers[3..], period)
        }
    }
}

// A call that leaves the book as it is, and its answer.
pub fn do_tell(
    b: Book,
    desk: u32,
    question: Question,
    numbers: &[u32],
    out: &mut [u8],
    at: usize,
) -> usize
    requires { Reachable b × RightCount (arity (asking question)) (length numbers.now) × (length numbers.now ≤ accounts_most * account_numbers) × (at + answer_room ≤ length out.old) }
    ensures { Answered (call_line b desk (asking question) numbers.now) b out.old at result out.new }
{
    match question {
        Question::Of(query) => answers::put_told(out, at, told(b, desk, query, numbers)),
        Question::Rebate => rebating::answer_rebate(b, desk, numbers, out, at),
    }
}

// The book after SET or UNDO, and the place behind its answer.
#[derive(Clone, Copy)]
pub struct After {
    pub book: Book,
    pub at: usize,
}

// SET, and its answer.
pub fn do_set(b: Book, desk: u32, numbers: &[u32], out: &mut [u8], at: usize) -> After
    requires { Reachable b × RightCount (arity Word.Set) (length numbers.now) × (at + answer_room ≤ length out.old) }
    ensures { Answered (call_line b desk Word.Set numbers.now) result.book out.old at result.at out.new }
{
    let period = period_of(numbers);
    let did = setting::set(b, desk, &numbers[3..], period);
    let reply = did.reply;
    let months = did.months;
    let book = did.book;
    After {
        book,
        at: answers::put_reply(out, at, reply, months),
    }
}

// UNDO, and its answer.
pub fn do_undo(b: Book, desk: u32, out: &mut [u8], at: usize) -> After
    requires { Reachable b × (at + answer_room ≤ length out.old) }
    ensures { Answered (step_line b (by desk UNDO)) result.book out.old at result.at out.new }
{
    let did = undo::undo(b, desk);
    let reply = did.reply;
    let months = did.months;
    let book = did.book;
    After {
        book,
        at: answers::put_reply(out, at, reply, months),
    }
}

// A call on the place of a code, and what it comes to.
fn settled(
    desk: u32,
    step: CodeStep,
    numbers: &[u32],
    p: Place,
    loaded: bool,
    figures: Benchmarks,
) -> Settled
    requires { ((b : Book) × (i : ℕ) × HasPlace b (get_or numbers.now 0 0) i p loaded figures) × RightCount (arity (Word.On step)) (length numbers.now) }
    ensures { (b : Book) (i : ℕ) → HasPlace b (get_or numbers.now 0 0) i p loaded figures → Does b (by desk (on_of step numbers.now)) (settled_in b i result) }
{
    match step {
        CodeStep::Put => putting::put_at(desk, numbers[0], p, &numbers[1..]),
        CodeStep::Open => codes::settle(desk, CodeAct::Open, numbers[0], p, loaded, figures),
        CodeStep::Close => codes::settle(desk, CodeAct::Close, numbers[0], p, loaded, figures),
        CodeStep::Drop => codes::settle(desk, CodeAct::Drop, numbers[0], p, loaded, figures),
        CodeStep::Ask => codes::settle(desk, CodeAct::Ask, numbers[0], p, loaded, figures),
        CodeStep::Confirm => codes::settle(desk, CodeAct::Confirm, numbers[0], p, loaded, figures),
        CodeStep::Direct => directing::direct_at(desk, numbers[0], p),
    }
}

// A place after a call on its code, the call's answer, and the place behind it in the output.
#[derive(Clone, Copy)]
pub struct Placed {
    pub place: Place,
    pub reply: Reply,
    pub at: usize,
}

// A call on a code, whose place is handed in, and its answer. The place that it returns is to be stored where the one handed in was read.
pub fn do_on(
    desk: u32,
    step: CodeStep,
    numbers: &[u32],
    p: Place,
    loaded: bool,
    figures: Benchmarks,
    out: &mut [u8],
    at: usize,
) -> Placed
    requires { ((b : Book) × (i : ℕ) × HasPlace b (get_or numbers.now 0 0) i p loaded figures) × RightCount (arity (Word.On step)) (length numbers.now) × (at + answer_room ≤ length out.old) }
    ensures { (b : Book) (i : ℕ) → HasPlace b (get_or numbers.now 0 0) i p loaded figures → Answered (call_line b desk (Word.On step) numbers.now) (stored_in b i result.place result.reply) out.old at result.at out.new }
{
    let done = settled(desk, step, numbers, p, loaded, figures);
    let reply = done.reply;
    let months = done.months;
    let place = done.place;
    Placed {
        place,
        reply,
        at: answers::put_reply(out, at, reply, months),
    }
}
