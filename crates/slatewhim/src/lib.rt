// The library for C programs: the functions of include/slatewhim.h, over an image of the book that the caller owns.
// Promise: each export has the contract of the call that it hands on, and requires nothing: `FreshImage`, `Changes`, `Opens` and the records of what
// is told, of any words; `slatewhim_check` answers 0 exactly where they are a book. `slatewhim_rebates` answers 100 for what is no book, and leaves the
// list as it was; for a book the answer is that of `run_of` of crate rebates, and the list that of `after_run` (specs/Running.antt, `RunsOver`).
// Crate linked says what a list of these calls comes to.
#![tactic(auto)]

ghost use Rattle.std.specs.Prelude.{◌≡◌};
ghost use Rattle.book.specs.Calls.{SET, PUT, OPEN, CLOSE, DROP, UNDO, ASK, CONFIRM, DIRECT, sheet_at, by};
ghost use Rattle.queries.specs.Queries.{benchmark_of, maximum_of};
ghost use Rattle.quoting.specs.Quote.{quote_of};
ghost use Rattle.image.specs.Changing.{no_book, Changes};
ghost use Rattle.image_codes.specs.Storing.{FreshImage};
ghost use Rattle.image_codes.specs.Opening.{Opens};
ghost use Rattle.image_sheets.specs.Telling.{Tells};
ghost use Rattle.image_queries.specs.Tells.{TellsCharge, TellsFraction, TellsQuotation};
ghost use Rattle.image_check.specs.Checking.{Checks};
ghost use Rattle.slatewhim.specs.Running.{period_of, ran_of, RunsOver};

use calendar::Period;
use image::NO_BOOK;
use image_codes::Opened;
use image_queries::{Charge, Fraction, Quotation};
use image_sheets::Falling;
use rebates::{Account, Run};

#[unsafe(no_mangle)]
pub extern "C" fn slatewhim_fresh(book: &mut [u32]) -> u32
    ensures { FreshImage book.old result book.new }
{
    image_codes::fresh(book)
}

#[unsafe(no_mangle)]
pub extern "C" fn slatewhim_check(book: &[u32]) -> u32
    ensures { Checks book.now result }
{
    image_check::check(book)
}

// SET, TRIAL and UNDO.
#[unsafe(no_mangle)]
pub extern "C" fn slatewhim_set(
    book: &mut [u32],
    desk: u32,
    fields: &[u32],
    year: u32,
    month: u32,
    months: u32,
) -> u32
    ensures { Changes (by desk (SET (sheet_at fields.now (period_of year month months)))) book.old result book.new }
{
    let period = Period {
        year,
        month,
        months,
    };
    image_sheets::set(book, desk, fields, period)
}

#[unsafe(no_mangle)]
pub extern "C" fn slatewhim_trial(
    book: &[u32],
    desk: u32,
    fields: &[u32],
    year: u32,
    month: u32,
    months: u32,
) -> Falling
    ensures { Tells book.now desk (sheet_at fields.now (period_of year month months)) result }
{
    let period = Period {
        year,
        month,
        months,
    };
    image_sheets::trial(book, desk, fields, period)
}

#[unsafe(no_mangle)]
pub extern "C" fn slatewhim_undo(book: &mut [u32], desk: u32) -> u32
    ensures { Changes (by desk UNDO) book.old result book.new }
{
    image_sheets::undo(book, desk)
}

// The calls on a code.
#[unsafe(no_mangle)]
pub extern "C" fn slatewhim_put(book: &mut [u32], desk: u32, code: u32, tariff: &[u32]) -> u32
    ensures { Changes (by desk (PUT code tariff.now)) book.old result book.new }
{
    image_codes::put(book, desk, code, tariff)
}

#[unsafe(no_mangle)]
pub extern "C" fn slatewhim_open(book: &mut [u32], desk: u32, code: u32) -> Opened
    ensures { Opens (by desk (OPEN code)) book.old result book.new }
{
    image_codes::open(book, desk, code)
}

#[unsafe(no_mangle)]
pub extern "C" fn slatewhim_ask(book: &mut [u32], desk: u32, code: u32) -> Opened
    ensures { Opens (by desk (ASK code)) book.old result book.new }
{
    image_codes::ask(book, desk, code)
}

#[unsafe(no_mangle)]
pub extern "C" fn slatewhim_confirm(book: &mut [u32], desk: u32, code: u32) -> Opened
    ensures { Opens (by desk (CONFIRM code)) book.old result book.new }
{
    image_codes::confirm(book, desk, code)
}

#[unsafe(no_mangle)]
pub extern "C" fn slatewhim_close(book: &mut [u32], desk: u32, code: u32) -> u32
    ensures { Changes (by desk (CLOSE code)) book.old result book.new }
{
    image_codes::close(book, desk, code)
}

#[unsafe(no_mangle)]
pub extern "C" fn slatewhim_drop(book: &mut [u32], desk: u32, code: u32) -> u32
    ensures { Changes (by desk (DROP code)) book.old result book.new }
{
    image_codes::drop(book, desk, code)
}

#[unsafe(no_mangle)]
pub extern "C" fn slatewhim_direct(book: &mut [u32], desk: u32, code: u32) -> u32
    ensures { Changes (by desk (DIRECT code)) book.old result book.new }
{
    image_codes::direct(book, desk, code)
}

// BENCHMARK, MAXIMUM and QUOTE.
#[unsafe(no_mangle)]
pub extern "C" fn slatewhim_benchmark(
    book: &[u32],
    desk: u32,
    region: u32,
    arrangement: u32,
    method: u32,
    level: u32,
) -> Charge
    ensures { TellsCharge book.now (λ b. benchmark_of b desk region arrangement method level) result }
{
    image_queries::benchmark(book, desk, region, arrangement, method, level)
}

#[unsafe(no_mangle)]
pub extern "C" fn slatewhim_maximum(
    book: &[u32],
    desk: u32,
    region: u32,
    arrangement: u32,
    method: u32,
    total: u32,
) -> Fraction
    ensures { TellsFraction book.now (λ b. maximum_of b desk region arrangement method total) result }
{
    image_queries::maximum(book, desk, region, arrangement, method, total)
}

#[unsafe(no_mangle)]
pub extern "C" fn slatewhim_quote(
    book: &[u32],
    desk: u32,
    code: u32,
    region: u32,
    method: u32,
    months: &[u32],
) -> Quotation
    ensures { TellsQuotation book.now (λ b. quote_of b desk code region method months.now) result }
{
    image_queries::quote(book, desk, code, region, method, months)
}

// The answer of a run: 0 and the total, or the number of the refusal and the place of the account; 100 for what is no book.
#[repr(C)]
#[derive(Clone, Copy)]
pub struct Ran {
    pub refusal: u32,
    pub place: u64,
    pub total: u64,
}

fn no_run() -> Ran
    ensures { result ≡ record { refusal = no_book; place = 0; total = 0 } }
{
    Ran {
        refusal: NO_BOOK,
        place: 0,
        total: 0,
    }
}

fn ran_of(answer: Run) -> Ran
    ensures { result ≡ ran_of answer }
{
    match answer {
        Run::Accepted(total) => Ran {
            refusal: 0,
            place: 0,
            total,
        },
        Run::Refused { number, place } => Ran {
            refusal: number,
            place: place as u64,
            total: 0,
        },
    }
}

// The run over a list of accounts, for a desk.
#[unsafe(no_mangle)]
pub extern "C" fn slatewhim_rebates(book: &[u32], desk: u32, accounts: &mut [Account]) -> Ran
    ensures { RunsOver book.now desk accounts.old result accounts.new }
{
    if image_check::is_book(book) {
        let b = image_book::book_in(book);
        let answer = accounts::run(b, desk, accounts);
        return ran_of(answer);
    }
    no_run()
}
