// QUOTE: what a tariff of the book charges for some months, beside the maximum.
// Promise: `quote` answers what specs/Quote.antt says to its desk, on refused input too; `telling_of` reads the answer in the paper's words. It
// requires document 01's own sentence on the book, `Reachable`, since the figures are read from the book and are those of its sheet. `quote_at`
// is for who holds the book: it takes the place of the code, and its contract says so of every book that has the place (`HasPlace`). `check_at`
// makes its checks alone, and proofs/Answers.antt, `quote_there`, says what they come to.
#![tactic(auto)]

ghost use Rattle.std.specs.Prelude.{◌≡◌, ℕ};
ghost use Rattle.book.specs.declared.Book.{Book};
ghost use Rattle.book.specs.Book.{Reachable};
ghost use Rattle.book.specs.Settling.{HasPlace};
ghost use Rattle.queries.specs.Queries.{telling_of};
ghost use Rattle.quoting.specs.Quote.{cell_allowed, months_allowed, quote_of};
ghost use Rattle.quoting.specs.Reading.{quote_check, check_at};

use benchmark::Benchmarks;
use book::{Book, Place};
use queries::Told;
use refusal::Check;
use tariff::Tariff;

// Whether a tariff is offered in a region by a method.
#[tactic(auto, unfolding(crate::specs::Quote::cell_allowed, verdict::specs::Cells::offered))]
fn cell_allowed(x: Tariff, region: u32, method: u32) -> bool
    ensures { result ≡ cell_allowed x region method }
{
    region < 14 && method < 2 && tariff::has(x.regions, region) && tariff::has(x.methods, method)
}

// Whether a list has t months of at most 10,000 kWh.
#[tactic(auto, unfolding(crate::specs::Quote::months_allowed))]
fn months_allowed(months: &[u32], t: u32) -> bool
    ensures { result ≡ months_allowed t months.now }
{
    months.len() == t as usize && months.iter().all(|month| *month <= 10_000)
}

// 13: region or method not offered, the list not t long, or a month above 10,000. Then 17: the tariff is not offered in the desk's regions alone.
fn quote_check(desk: u32, x: Tariff, region: u32, method: u32, t: u32, months: &[u32]) -> Check
    ensures { result ≡ quote_check desk t x region method months.now }
{
    if cell_allowed(x, region, method) && months_allowed(months, t) {
        desks::use_check(desk, x.regions)
    } else {
        Check::Refuse(13)
    }
}

// The checks of QUOTE (code, region, method, months): 6, 9, 10, 13, 17.
pub fn check_at(
    desk: u32,
    code: u32,
    p: Place,
    loaded: bool,
    t: u32,
    region: u32,
    method: u32,
    months: &[u32],
) -> Check
    ensures { result ≡ check_at desk code p loaded t region method months.now }
{
    let allowed = quote_check(desk, book::tariff_in(p), region, method, t, months);
    let in_force = refusal::first(checks::sheet_check(loaded), allowed);
    checks::held_check(code, p, in_force)
}

// QUOTE: 1,000 × 12 × m times the charge and times the maximum, behind these checks. `quote_at` is for who holds the
// book: it takes the place of the code, whether a sheet is loaded and its figures, and copies no other place.
pub fn quote_at(
    desk: u32,
    code: u32,
    p: Place,
    loaded: bool,
    figures: Benchmarks,
    region: u32,
    method: u32,
    months: &[u32],
) -> Told
    requires { (b : Book) × (i : ℕ) × HasPlace b code i p loaded figures }
    ensures { (b : Book) (i : ℕ) → HasPlace b code i p loaded figures → telling_of result ≡ quote_of b desk code region method months.now }
{
    let x = book::tariff_in(p);
    let checked = check_at(
        desk,
        code,
        p,
        loaded,
        figures.months,
        region,
        method,
        months,
    );
    let Check::Pass = checked else {
        return queries::refused(checked);
    };
    let e = verdict::numbers_of(figures, x, region, method);
    let sides = cap::sides_of(e, x, months);
    Told::Quote {
        charge: sides.charged,
        maximum: sides.capped,
    }
}

pub fn quote(b: Book, desk: u32, code: u32, region: u32, method: u32, months: &[u32]) -> Told
    requires { Reachable b }
    ensures { telling_of result ≡ quote_of b desk code region method months.now }
{
    let p = b.places[checks::index_of(code)];
    quote_at(
        desk,
        code,
        p,
        b.loaded,
        b.benchmarks,
        region,
        method,
        months,
    )
}
