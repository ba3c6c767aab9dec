// BENCHMARK and MAXIMUM: what the book tells and leaves as it is.
// Promise: each answers what specs/Queries.antt says to its desk, on refused input too; `telling_of` reads the answer in the paper's words. They
// require document 01's own sentence on the book, `Reachable`, since the figures are read from the book and are those of its sheet.
// What the layer above may use: the answers, which are TRIAL's too, `refused` and `asked_check`.
#![tactic(auto)]

ghost use Rattle.std.specs.Prelude.{◌≡◌, ◌&&◌};
ghost use Rattle.refusal.specs.Checks.{unless, first};
ghost use Rattle.refusal.specs.declared.Check.TheVariants.{Pass};
ghost use Rattle.desks.specs.Desks.{may_query};
ghost use Rattle.book.specs.declared.Book.{Book};
ghost use Rattle.book.specs.Book.{Reachable};
ghost use Rattle.queries.specs.Queries.{telling_of, in_ranges, benchmark_of, maximum_of};
ghost use Rattle.queries.specs.Reading.{refusal_told};

use benchmark::Benchmarks;
use book::Book;
use charge::Kwh;
use refusal::Check;

// A refusal, with its number; or what each of the calls that tell gives. `Maximum` is its number over its denominator, 12 × m; both figures
// of `Quote` are scaled by 1,000 × 12 × m; `Falling` is TRIAL's set of codes, bit code - 1.
#[derive(Clone, Copy)]
pub enum Told {
    Refused(u32),
    Benchmark(u64),
    Maximum { number: u64, denominator: u64 },
    Quote { charge: u64, maximum: u64 },
    Falling(u32),
}

fn wide(x: u32) -> u64
    ensures { result ≡ x }
{
    x as u64
}

// The answer of a check that refuses.
pub fn refused(check: Check) -> Told
    ensures { result ≡ refusal_told check }
{
    match check {
        Check::Pass => Told::Refused(0),
        Check::Refuse(n) => Told::Refused(n),
    }
}

// 13: an argument outside its range; `last` says whether the fourth one is inside its own.
fn ranges_check(region: u32, arrangement: u32, method: u32, last: bool) -> Check
    ensures { result ≡ unless (in_ranges region arrangement method && last) 13 Pass }
{
    if 14 <= region {
        return Check::Refuse(13);
    }
    if 2 <= arrangement {
        return Check::Refuse(13);
    }
    if 2 <= method {
        return Check::Refuse(13);
    }
    if last { Check::Pass } else { Check::Refuse(13) }
}

// 13, and then 17: the region is not the desk's.
pub fn asked_check(desk: u32, region: u32, arrangement: u32, method: u32, last: bool) -> Check
    ensures { result ≡ first (unless (in_ranges region arrangement method && last) 13 Pass) (unless (may_query desk region) 17 Pass) }
{
    let reached = desks::query_check(desk, region);
    refusal::first(ranges_check(region, arrangement, method, last), reached)
}

// BENCHMARK (region, arrangement, method, level). 13, 17, 10.
pub fn benchmark(b: Book, desk: u32, region: u32, arrangement: u32, method: u32, level: u32) -> Told
    requires { Reachable b }
    ensures { telling_of result ≡ benchmark_of b desk region arrangement method level }
{
    let asked = asked_check(desk, region, arrangement, method, level < 2);
    let checked = refusal::first(asked, checks::sheet_check(b.loaded));
    let Check::Pass = checked else {
        return refused(checked);
    };
    let figures = b.benchmarks;
    let charges = figures.charges;
    let at = benchmark::figure_index(
        region as usize,
        arrangement as usize,
        method as usize,
        level as usize,
    );
    Told::Benchmark(wide(charges[at]))
}

// MAXIMUM (region, arrangement, method, total). 13, 17, 10. The whole number and 12 × m.
pub fn maximum(b: Book, desk: u32, region: u32, arrangement: u32, method: u32, total: u32) -> Told
    requires { Reachable b }
    ensures { telling_of result ≡ maximum_of b desk region arrangement method total }
{
    let asked = asked_check(desk, region, arrangement, method, total <= 120_000);
    let checked = refusal::first(asked, checks::sheet_check(b.loaded));
    let Check::Pass = checked else {
        return refused(checked);
    };
    let figures = b.benchmarks;
    let e = verdict::numbers_in(figures, arrangement as usize, 0, region, method);
    let most = cap::maximum_of(e, Kwh(wide(total)));
    let number = most.0;
    let denominator = 12 * e.m;
    Told::Maximum {
        number,
        denominator,
    }
}
