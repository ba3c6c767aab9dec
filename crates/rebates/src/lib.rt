// The rebate run of M-108, an account at a time and by value: whether it is refused, and the rebate due to it.
// Promise: specs/Rebates.antt says what the run answers and leaves; each function here answers for one account of every book that has the
// place of its code (`HasPlace`), so the book is not copied for it. proofs/Repaid.antt, `repaid_exactly`, says that nobody is left above the cap.
// What the layer above may use: `fails`, `due`, and the makers of answers. Crate accounts walks the list.
#![tactic(auto)]

ghost use Rattle.std.specs.Prelude.{◌≡◌, ◌&&◌, ℕ, ◌*◌, ◌≤◌, ◌<◌};
ghost use Rattle.shares.specs.Shares.{whole_share};
ghost use Rattle.benchmark.specs.declared.Benchmarks.{Benchmarks};
ghost use Rattle.cap.specs.Corners.{level_most};
ghost use Rattle.book.specs.declared.Book.{Book};
ghost use Rattle.book.specs.Checks.{inside};
ghost use Rattle.book.specs.Book.{held};
ghost use Rattle.book.specs.Settling.{HasPlace};
ghost use Rattle.queries.specs.Queries.{Quotation};
ghost use Rattle.rebates.specs.Rebates.{is_refused, open_directed, quoted_of, rebate_of, due_of};
ghost use Rattle.rebates.specs.Repaid.{rebate_most};
ghost use Rattle.rebates.specs.Reading.{fails_by};

use benchmark::Benchmarks;
use book::Place;
use cap::SCALE;
use queries::Told;
use refusal::Check;

// The places of a list that a run takes.
pub const PLACES_MOST: usize = 1_000_000;

// An account: the number of months says how many of the twelve places for them are used.
#[repr(C)]
#[derive(Clone, Copy)]
pub struct Account {
    pub code: u32,
    pub region: u32,
    pub method: u32,
    pub count: u32,
    pub months: [u32; 12],
    pub rebate: u64,
}

// What the run answers: the total of the rebates, or a refusal's number with the first such account's place.
#[derive(Clone, Copy)]
pub enum Run {
    Accepted(u64),
    Refused { number: u32, place: usize },
}

fn wide(x: u32) -> u64
    ensures { result ≡ x }
{
    x as u64
}

// Whether QUOTE refuses an account.
fn refused(desk: u32, p: Place, loaded: bool, t: u32, a: Account) -> bool
    ensures { (b : Book) (i : ℕ) (f : Benchmarks) → HasPlace b a.code i p loaded f → f.months ≡ t → result ≡ is_refused (quoted_of b desk a) }
{
    let count = a.count;
    if 12 < count {
        return true;
    }
    let n = count as usize;
    let months = a.months;
    let checked = quoting::check_at(desk, a.code, p, loaded, t, a.region, a.method, &months[..n]);
    let Check::Pass = checked else {
        return true;
    };
    false
}

// Whether a code's place has an open tariff under a direction.
fn open_directed(code: u32, p: Place) -> bool
    ensures { result ≡ (inside code && open_directed (held p)) }
{
    let shut = refusal::first(checks::code_check(code), checks::closed_check(p));
    let Check::Pass = shut else {
        return false;
    };
    p.directed
}

// Whether the account at a place of the list is refused with this number. 19: QUOTE refuses it, or its place is too late. 18: its tariff is
// not open under a direction.
pub fn fails(
    number: u32,
    desk: u32,
    p: Place,
    loaded: bool,
    figures: Benchmarks,
    a: Account,
    place: usize,
) -> bool
    ensures { (b : Book) (i : ℕ) → HasPlace b a.code i p loaded figures → result ≡ fails_by number b desk place a }
{
    if number == 19 {
        if PLACES_MOST <= place {
            return true;
        }
        return refused(desk, p, loaded, figures.months, a);
    }
    !open_directed(a.code, p)
}

// Charge less maximum in mills, rounded up, or 0; both are times the scale.
fn rebate_of(charge: u64, maximum: u64, scale: u64) -> u64
    requires { (0 < scale) × (scale ≤ 12 * whole_share * level_most) × (charge ≤ rebate_most * scale) }
    ensures { (result ≡ rebate_of scale (record { charge = charge; maximum = maximum })) × (result ≤ rebate_most) }
{
    if charge <= maximum {
        return 0;
    }
    (charge - maximum + (scale - 1)) / scale
}

// The rebate due to an account, in mills.
pub fn due(desk: u32, p: Place, loaded: bool, figures: Benchmarks, a: Account) -> u64
    requires { (b : Book) × (i : ℕ) × HasPlace b a.code i p loaded figures }
    ensures { ((b : Book) (i : ℕ) → HasPlace b a.code i p loaded figures → result ≡ due_of b desk a) × (result ≤ rebate_most) }
{
    let count = a.count;
    if 12 < count {
        return 0;
    }
    let n = count as usize;
    let months = a.months;
    let told = quoting::quote_at(
        desk,
        a.code,
        p,
        loaded,
        figures,
        a.region,
        a.method,
        &months[..n],
    );
    match told {
        Told::Refused(_) => 0,
        Told::Benchmark(_) => 0,
        Told::Maximum {
            number: _,
            denominator: _,
        } => 0,
        Told::Falling(_) => 0,
        Told::Quote { charge, maximum } => {
            let levels = figures.levels;
            let at = verdict::arrangement_of(book::tariff_in(p));
            rebate_of(charge, maximum, SCALE * wide(levels[at]))
        }
    }
}

// The answers of a run.
pub fn accepted(total: u64) -> Run
    ensures { result ≡ Run.Accepted total }
{
    Run::Accepted(total)
}

pub fn refused_at(number: u32, place: usize) -> Run
    ensures { result ≡ Run.Refused number place }
{
    Run::Refused { number, place }
}
