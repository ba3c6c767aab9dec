// UNDO: the last accepted SET is taken back.
// Promise: `undo` answers and leaves what `step` of the book's definitions says of UNDO, on refused input too: 15, or the book as it was before
// that SET, with nothing more to take back (stands/proofs/Undone.antt, `undone`). Only a desk with all fourteen regions may: 17 to any other. It requires document 01's own sentence on the book,
// `Reachable`. `book_before` is the book that is kept, for any book: the one that UNDO brings back, where that stands.
#![tactic(auto)]

ghost use Rattle.std.specs.Prelude.{◌≡◌};
ghost use mathlib.Core.List.{zip_with};
ghost use Rattle.refusal.specs.declared.Check.TheVariants.{Pass};
ghost use Rattle.refusal.specs.Checks.{unless};
ghost use Rattle.book.specs.Calls.{UNDO, by, call};
ghost use Rattle.book.specs.Book.{with_state, restored, Reachable};
ghost use Rattle.book.specs.Promises.{Does};
ghost use Rattle.stands.specs.Stands.{Fits};

use book::{Book, Done, Place, Stood};
use refusal::Check;

// 15: nothing to take back.
fn kept_check(any: bool) -> Check
    ensures { result ≡ unless any 15 Pass }
{
    if any { Check::Pass } else { Check::Refuse(15) }
}

// Each place in the state that it had.
fn in_states(places: [Place; 32], states: [Stood; 32]) -> [Place; 32]
    ensures { result ≡ zip_with (λ s. with_state s.state) states places }
{
    let mut next = places;
    for i in 0..32 {
        next[i] = book::in_state(next[i], states[i].state);
    }
    next
}

// The book that is kept: the sheet is the one before, or none, and each place is in the state that it had. The figures are worked out again; a
// book without a sheet has zeros for one, which SET's checks refuse, and so no figures.
pub fn book_before(b: Book) -> Book
    ensures { (Fits (restored b) → result ≡ restored b) × (Fits result → result ≡ restored b) }
{
    let kept = b.kept;
    let fields = kept.fields;
    let period = kept.period;
    let worked = figures::work_out(&fields, period);
    let figures = worked.benchmarks;
    let now = b.places;
    let states = kept.states;
    let places = in_states(now, states);
    Book {
        loaded: kept.loaded,
        fields,
        period,
        benchmarks: figures,
        places,
        kept: book::nothing_kept(),
    }
}

// UNDO of a desk with all fourteen regions. 15. Else the book that is kept.
fn take_back(b: Book) -> Done
    requires { Reachable b }
    ensures { Does b (call UNDO) result }
{
    let kept = b.kept;
    let check = kept_check(kept.any);
    let Check::Pass = check else {
        return book::answered(check, b);
    };
    book::answered(check, book_before(b))
}

// UNDO. 17, and then as above.
pub fn undo(b: Book, desk: u32) -> Done
    requires { Reachable b }
    ensures { Does b (by desk UNDO) result }
{
    let full = desks::full_check(desk);
    let Check::Pass = full else {
        return book::answered(full, b);
    };
    take_back(b)
}
