// The calls that take a code alone: OPEN, ASK and CONFIRM, whose checks are in crate opening, CLOSE and DROP.
// Promise: each answers and leaves what `step` of the book's definitions says of its desk, on refused input too; 11 carries the first cell that
// exceeds, t months and their excess. `act_on` is their one body: they differ in what they do to one place. OPEN and ASK, which share their
// checks, require document 01's own sentence on the book, `Reachable`; the others require nothing. Who holds a book in a local of their own may
// settle a place (`settle`) and store it, which copies no book and is the same call: its contract says so of every book that has the place
// (`HasPlace` of the book's definitions). `close_at` and `drop_at` are for who has only the place at hand.
#![tactic(auto)]

ghost use Rattle.std.specs.Prelude.{Bool, ℕ};
ghost use Rattle.benchmark.specs.declared.Benchmarks.{Benchmarks};
ghost use Rattle.book.specs.declared.Book.{Book};
ghost use Rattle.book.specs.Calls.{by};
ghost use Rattle.book.specs.Promises.{Does};
ghost use Rattle.book.specs.Settling.{settled_in, HasPlace};
ghost use Rattle.codes.specs.Codes.{act_on, SettlesOn, Judgeable, Handed};

use benchmark::Benchmarks;
use book::{Book, Done, Place, Settled, State};

// The calls that take a code alone.
#[derive(Clone, Copy)]
pub enum CodeAct {
    Open,
    Close,
    Drop,
    Ask,
    Confirm,
}

// CLOSE (code). 6, 9, 17, 12. Else a draft again.
pub fn close_at(desk: u32, code: u32, p: Place) -> Settled
    ensures { (loaded : Bool) (figures : Benchmarks) → SettlesOn CodeAct.Close desk code p loaded figures result }
{
    let checked = opening::usable_check(desk, code, p, checks::closed_check(p));
    book::settled_by(checked, p, book::in_state(p, State::Draft))
}

// DROP (code). 6, 9, 17, 7. Else empty.
pub fn drop_at(desk: u32, code: u32, p: Place) -> Settled
    ensures { (loaded : Bool) (figures : Benchmarks) → SettlesOn CodeAct.Drop desk code p loaded figures result }
{
    let checked = opening::usable_check(desk, code, p, checks::open_check(p));
    let nothing = book::empty_place();
    book::settled_by(checked, p, nothing)
}

// What one of the five does to a place; so, on every book that has it there, storing what is returned is the call.
pub fn settle(
    desk: u32,
    act: CodeAct,
    code: u32,
    p: Place,
    loaded: bool,
    figures: Benchmarks,
) -> Settled
    requires { Judgeable act p loaded figures }
    ensures { SettlesOn act desk code p loaded figures result × ((b : Book) (i : ℕ) → HasPlace b code i p loaded figures → Does b (by desk (act_on act code)) (settled_in b i result)) }
{
    match act {
        CodeAct::Open => opening::open_as(State::Open, desk, code, p, loaded, figures),
        CodeAct::Close => close_at(desk, code, p),
        CodeAct::Drop => drop_at(desk, code, p),
        CodeAct::Ask => opening::open_as(State::Marked, desk, code, p, loaded, figures),
        CodeAct::Confirm => opening::confirm_at(desk, code, p),
    }
}

// OPEN, CLOSE, DROP, ASK or CONFIRM: the place of the code is read, settled and stored again.
pub fn act_on(b: Book, desk: u32, code: u32, act: CodeAct) -> Done
    requires { Handed act b }
    ensures { Does b (by desk (act_on act code)) result }
{
    let at = checks::index_of(code);
    let mut next = b;
    let p = next.places[at];
    let figures = next.benchmarks;
    let settled = settle(desk, act, code, p, next.loaded, figures);
    let reply = settled.reply;
    let months = settled.months;
    let place = settled.place;
    next.places[at] = place;
    if book::accepted_by(reply) {
        next.kept = book::nothing_kept();
    }
    Done {
        reply,
        months,
        book: next,
    }
}
