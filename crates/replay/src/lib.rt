// A lent list of encoded calls, each with its desk, run from a fresh book.
// Promise: `run`'s own contract is demand 3, of the answers that it wrote and the book that it returns. It is the witness that the
// contracts of SET, PUT, OPEN, CLOSE, DROP, UNDO, ASK, CONFIRM and DIRECT compose. A list that encodes no calls ends the run where it stops making sense.
#![tactic(auto)]

ghost use Rattle.std.specs.Prelude.{◌≡◌, List, map, ℕ, ◌≤◌, ◌<◌, length, get_or};
ghost use Rattle.std.proofs.lemmas.List.Edits.{sets};
ghost use Rattle.book.specs.Calls.{Call, by};
ghost use Rattle.book.specs.Book.{fresh, book_after, answers_of, Reachable};
ghost use Rattle.book.specs.Promises.{answer_of, Does};
ghost use Rattle.claim.specs.Claim.{Demand3};
ghost use Rattle.replay.specs.Encoded.{encode, number_of};
ghost use Rattle.replay.specs.Running.{end_of, set_to, put_to, code_act_of, act_to, RanAt};

use book::{Book, Done, Reply};
use calendar::Period;
use codes::CodeAct;

// One call of an encoded list, on a book: the number of its answer, the book after it, and where it ends in the list.
#[derive(Clone, Copy)]
pub struct Ran {
    pub number: u64,
    pub book: Book,
    pub end: usize,
}

// The number of an answer, whatever months stand beside it.
fn number_of(reply: Reply) -> u64
    ensures { (months : List ℕ) → result ≡ number_of (answer_of reply months) }
{
    match reply {
        Reply::Accepted => 0,
        Reply::Cells(cells) => 100 + u64::from(cells),
        Reply::Refused(n) => u64::from(n),
        Reply::Over(_, _, _, _) => 11,
    }
}

// The number at a place of a list, 0 past its end.
fn number_at(calls: &[u32], at: usize) -> u32
    ensures { result ≡ get_or calls.now at 0 }
{
    calls.get(at).copied().unwrap_or(0)
}

// Where the act at the start of a list ends, past the list where none stands there.
fn end_of(calls: &[u32]) -> usize
    ensures { (result ≡ end_of calls.now) × (1 ≤ result) }
{
    match number_at(calls, 0) {
        0 => 5 + number_at(calls, 4) as usize,
        1 => 3 + number_at(calls, 2) as usize,
        5 => 1,
        2..=8 => 2,
        _ => calls.len() + 1,
    }
}

// SET: 0, year, month, t, the count of fields and the fields.
fn set_to(b: Book, desk: u32, calls: &[u32], end: usize) -> Done
    requires { Reachable b × (5 ≤ end) × (end ≤ length calls.now) }
    ensures { Does b (by desk (set_to calls.now end)) result }
{
    let period = Period {
        year: calls[1],
        month: calls[2],
        months: calls[3],
    };
    setting::set(b, desk, &calls[5..end], period)
}

// PUT: 1, code, the count of numbers and the numbers.
fn put_to(b: Book, desk: u32, calls: &[u32], end: usize) -> Done
    requires { (3 ≤ end) × (end ≤ length calls.now) }
    ensures { Does b (by desk (put_to calls.now end)) result }
{
    putting::put(b, desk, calls[1], &calls[3..end])
}

// OPEN, CLOSE, DROP, ASK or CONFIRM: 2, 3, 4, 6 or 7, and the code.
fn code_act(op: u32) -> CodeAct
    ensures { result ≡ code_act_of op }
{
    match op {
        2 => CodeAct::Open,
        3 => CodeAct::Close,
        4 => CodeAct::Drop,
        6 => CodeAct::Ask,
        _ => CodeAct::Confirm,
    }
}

// The act that ends at `end` is done for a desk.
fn made(b: Book, desk: u32, calls: &[u32], end: usize) -> Done
    requires { Reachable b × (end ≡ end_of calls.now) × (1 ≤ end) × (end ≤ length calls.now) }
    ensures { Does b (by desk (act_to calls.now end)) result }
{
    match calls[0] {
        0 => set_to(b, desk, calls, end),
        1 => put_to(b, desk, calls, end),
        5 => undo::undo(b, desk),
        8 => directing::direct(b, desk, number_at(calls, 1)),
        op => codes::act_on(b, desk, number_at(calls, 1), code_act(op)),
    }
}

// The call at the start of a list, a desk and its act; where none stands there, nothing is left to run.
fn one(b: Book, calls: &[u32]) -> Ran
    requires { Reachable b × (0 < length calls.now) }
    ensures { RanAt b calls.now result }
{
    let desk = calls[0];
    let act = &calls[1..];
    let end = end_of(act);
    if act.len() < end {
        return Ran {
            number: 0,
            book: b,
            end: calls.len(),
        };
    }
    let did = made(b, desk, act, end);
    Ran {
        number: number_of(did.reply),
        book: did.book,
        end: 1 + end,
    }
}

// The whole list, each answer's number into its place of `out`.
fn run_from(b: Book, calls: &[u32], out: &mut [u64]) -> Book
    requires { Reachable b }
    ensures { (cs : List Call) → calls.now ≡ encode cs → length cs ≤ length out.old → (result ≡ book_after b cs) × (out.new ≡ sets out.old 0 (map number_of (answers_of b cs))) }
{
    let mut b = b;
    let mut rest = calls;
    let mut n: usize = 0;
    while rest.len() > 0 && n < out.len() {
        let r = one(b, rest);
        b = r.book;
        out[n] = r.number;
        rest = &rest[r.end..];
        n += 1;
    }
    b
}

// Demand 3, of a list of calls from a fresh book.
pub fn run(calls: &[u32], out: &mut [u64]) -> Book
    ensures { (cs : List Call) → calls.now ≡ encode cs → length cs ≤ length out.old → Demand3 cs (answers_of fresh cs) result × (out.new ≡ sets out.old 0 (map number_of (answers_of fresh cs))) }
{
    run_from(book::fresh_book(), calls, out)
}
