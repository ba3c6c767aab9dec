// PUT: a draft into the place of a code.
// Promise: `put` answers and leaves what `step` of the book's definitions says of its desk, on refused input too, and requires nothing. Who
// holds a book in a local of their own may settle a place (`put_at`) and store it, which copies no book and is the same call: its contract says
// so of every book that has the place (`HasPlace` of the book's definitions).
#![tactic(auto)]

ghost use Rattle.std.specs.Prelude.{◌≡◌, Bool, false, ℕ};
ghost use Rattle.refusal.specs.declared.Check.TheVariants.{Pass};
ghost use Rattle.refusal.specs.Checks.{unless};
ghost use Rattle.benchmark.specs.declared.Benchmarks.{Benchmarks};
ghost use Rattle.tariff.specs.Tariff.{tariff_of};
ghost use Rattle.book.specs.declared.Book.{Book};
ghost use Rattle.book.specs.Calls.{PUT, by, accepted};
ghost use Rattle.book.specs.Book.{place_with};
ghost use Rattle.book.specs.Promises.{Does};
ghost use Rattle.book.specs.Settling.{settled_in, Settles, HasPlace};
ghost use Rattle.putting.specs.Putting.{draft_may, put_checks};

use book::{Book, Done, Place, Settled, State};
use refusal::Check;

// 17, of the draft that a place holds; an empty one keeps no desk out.
fn draft_check(desk: u32, p: Place) -> Check
    ensures { result ≡ unless (draft_may desk p) 17 Pass }
{
    let filled = checks::empty_check(p);
    let Check::Pass = filled else {
        return Check::Pass;
    };
    desks::use_check(desk, p.regions)
}

// PUT (code, tariff) of one place. 6, 7, 8, 17. Else the place holds it as a draft, over any draft, and without a
// direction.
pub fn put_at(desk: u32, code: u32, p: Place, x: &[u32]) -> Settled
    ensures { Settles (put_checks desk code p x.now) accepted p (place_with State.Draft false (tariff_of x.now)) result × ((b : Book) (i : ℕ) (loaded : Bool) (figures : Benchmarks) → HasPlace b code i p loaded figures → Does b (by desk (PUT code x.now)) (settled_in b i result)) }
{
    let inside = checks::code_check(code);
    let shut = checks::open_check(p);
    let record = tariff::check(x);
    let old = draft_check(desk, p);
    let drafted = refusal::first(record, old);
    let checked = refusal::first(inside, refusal::first(shut, drafted));
    let Check::Pass = checked else {
        return book::settled_by(checked, p, p);
    };
    let x = tariff::tariff_of(x);
    let new = desks::use_check(desk, x.regions);
    book::settled_by(new, p, book::place_with(State::Draft, false, x))
}

// PUT (code, tariff), of a book.
pub fn put(b: Book, desk: u32, code: u32, x: &[u32]) -> Done
    ensures { Does b (by desk (PUT code x.now)) result }
{
    let at = checks::index_of(code);
    let mut next = b;
    let p = next.places[at];
    let put = put_at(desk, code, p, x);
    let reply = put.reply;
    let months = put.months;
    let draft = put.place;
    next.places[at] = draft;
    let accepted = book::accepted_by(reply);
    if accepted {
        next.kept = book::nothing_kept();
    }
    Done {
        reply,
        months,
        book: next,
    }
}
