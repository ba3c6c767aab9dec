// DIRECT: a draft put under a direction.
// Promise: `direct` answers and leaves what `step` of the book's definitions says of its desk, on refused input too, and requires nothing. Only a
// desk with all fourteen regions may: 17 to any other, before everything else. Who holds a book in a local of their own may settle a place
// (`direct_at`) and store it, which copies no book and is the same call: its contract says so of every book that has the place (`HasPlace` of the
// book's definitions).
#![tactic(auto)]

ghost use Rattle.std.specs.Prelude.{Bool, ℕ};
ghost use Rattle.benchmark.specs.declared.Benchmarks.{Benchmarks};
ghost use Rattle.book.specs.declared.Book.{Book};
ghost use Rattle.book.specs.Calls.{DIRECT, by, accepted};
ghost use Rattle.book.specs.Book.{with_direction};
ghost use Rattle.book.specs.Promises.{Does};
ghost use Rattle.book.specs.Settling.{settled_in, Settles, HasPlace};
ghost use Rattle.directing.specs.Directing.{direct_checks};

use book::{Book, Done, Place, Settled};

// DIRECT (code) of one place. 17, 6, 9, 7. Else the draft, marked or not, is under a direction.
pub fn direct_at(desk: u32, code: u32, p: Place) -> Settled
    ensures { Settles (direct_checks desk code p) accepted p (with_direction p) result × ((b : Book) (i : ℕ) (loaded : Bool) (figures : Benchmarks) → HasPlace b code i p loaded figures → Does b (by desk (DIRECT code)) (settled_in b i result)) }
{
    let full = desks::full_check(desk);
    let shut = checks::open_check(p);
    let draft = checks::held_check(code, p, shut);
    let checked = refusal::first(full, draft);
    let state = p.state;
    let directed = book::place_with(state, true, book::tariff_in(p));
    book::settled_by(checked, p, directed)
}

// DIRECT (code), of a book.
pub fn direct(b: Book, desk: u32, code: u32) -> Done
    ensures { Does b (by desk (DIRECT code)) result }
{
    let at = checks::index_of(code);
    let mut next = b;
    let p = next.places[at];
    let given = direct_at(desk, code, p);
    let reply = given.reply;
    let months = given.months;
    let draft = given.place;
    next.places[at] = draft;
    let accepted = book::accepted_by(reply);
    if accepted {
        next.kept = book::nothing_kept();
    }
    Done {
        reply,
        months,
        book: next,
    }
}
