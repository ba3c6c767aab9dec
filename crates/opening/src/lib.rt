// OPEN, ASK and CONFIRM on the place of a code, and the checks 6, 9 and 17, which every call on a code has but PUT.
// Promise: each equals its definition in specs/Opening.antt; 11 carries the first cell that exceeds, t months and their excess. Who judges a
// tariff, `open_as`, requires lawful figures, if a sheet is loaded, and a place that holds nothing or a valid tariff; the others require nothing.
#![tactic(auto)]

ghost use Rattle.std.specs.Prelude.{◌≡◌, true};
ghost use Rattle.benchmark.specs.Lawful.{Lawful};
ghost use Rattle.book.specs.Calls.{cells};
ghost use Rattle.book.specs.Checks.{confirmed_as};
ghost use Rattle.book.specs.Book.{tariff_in};
ghost use Rattle.stands.specs.Stands.{HoldsValid};
ghost use Rattle.opening.specs.Opening.{usable_check, OpensAs, Confirms};

use benchmark::Benchmarks;
use book::{Place, Reply, Settled, State};
use refusal::Check;
use verdict::Outcome;

// 6, 9 and 17, and then what a call on the place of a code checks besides.
pub fn usable_check(desk: u32, code: u32, p: Place, next: Check) -> Check
    ensures { result ≡ usable_check desk code p next }
{
    let found = checks::held_check(code, p, Check::Pass);
    let reached = desks::use_check(desk, p.regions);
    refusal::first(found, refusal::first(reached, next))
}

// OPEN and ASK (code). 6, 9, 17, 7, 10, 11. Else the draft goes to that state, open or marked; the answer carries the number of cells.
// Under a direction they skip 11, and answer 0 cells.
pub fn open_as(
    state: State,
    desk: u32,
    code: u32,
    p: Place,
    loaded: bool,
    figures: Benchmarks,
) -> Settled
    requires { (loaded ≡ true → Lawful figures) × HoldsValid p }
    ensures { OpensAs state desk code p loaded figures result }
{
    let shut = checks::open_check(p);
    let sheet = checks::sheet_check(loaded);
    let checked = usable_check(desk, code, p, refusal::first(shut, sheet));
    let Check::Pass = checked else {
        return book::settled_by(checked, p, p);
    };
    let passed = book::in_state(p, state);
    let directed = p.directed;
    if directed {
        return Settled {
            reply: Reply::Cells(0),
            months: [0; 12],
            place: passed,
        };
    }
    let ruling = verdict::verdict_of(figures, book::tariff_in(p));
    let outcome = ruling.outcome;
    match outcome {
        Outcome::Opens(cells) => Settled {
            reply: Reply::Cells(cells),
            months: [0; 12],
            place: passed,
        },
        Outcome::Over(region, method, excess) => {
            let months = ruling.months;
            Settled {
                reply: Reply::Over(region, method, figures.months, excess),
                months,
                place: p,
            }
        }
    }
}

// The number of cells that CONFIRM answers: 0 under a direction.
fn confirmed_cells(p: Place) -> u32
    ensures { cells result ≡ confirmed_as p.directed (tariff_in p) }
{
    if p.directed {
        return 0;
    }
    verdict::cell_count(book::tariff_in(p))
}

// CONFIRM (code). 6, 9, 17, 7, 16. Else open; the answer carries the number of cells.
pub fn confirm_at(desk: u32, code: u32, p: Place) -> Settled
    ensures { Confirms desk code p result }
{
    let shut = checks::open_check(p);
    let mark = checks::mark_check(p);
    let checked = usable_check(desk, code, p, refusal::first(shut, mark));
    let Check::Pass = checked else {
        return book::settled_by(checked, p, p);
    };
    let offered = confirmed_cells(p);
    let opened = book::in_state(p, State::Open);
    Settled {
        reply: Reply::Cells(offered),
        months: [0; 12],
        place: opened,
    }
}
