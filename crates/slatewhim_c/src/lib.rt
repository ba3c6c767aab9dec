// The exports of the C library: the functions of include/slatewhim.h, under their C names.
// Promise: each has the contract of the function of crate slatewhim that it hands on, in the same clauses, and requires nothing. A crate is a
// library for other crates or a static library for C, so the two are apart; everything is worked out in crate slatewhim and below it.
#![tactic(auto)]

ghost use Rattle.book.specs.Calls.{SET, PUT, OPEN, CLOSE, DROP, UNDO, ASK, CONFIRM, DIRECT, sheet_at, by};
ghost use Rattle.queries.specs.Queries.{benchmark_of, maximum_of};
ghost use Rattle.quoting.specs.Quote.{quote_of};
ghost use Rattle.image.specs.Changing.{Changes};
ghost use Rattle.image_codes.specs.Storing.{FreshImage};
ghost use Rattle.image_codes.specs.Opening.{Opens};
ghost use Rattle.image_sheets.specs.Telling.{Tells};
ghost use Rattle.image_queries.specs.Tells.{TellsCharge, TellsFraction, TellsQuotation};
ghost use Rattle.image_check.specs.Checking.{Checks};
ghost use Rattle.slatewhim.specs.Running.{period_of, RunsOver};

use image_codes::Opened;
use image_queries::{Charge, Fraction, Quotation};
use image_sheets::Falling;
use rebates::Account;
use slatewhim::Ran;

#[unsafe(no_mangle)]
pub extern "C" fn slatewhim_fresh(book: &mut [u32]) -> u32
    ensures { FreshImage book.old result book.new }
{
    slatewhim::slatewhim_fresh(book)
}

#[unsafe(no_mangle)]
pub extern "C" fn slatewhim_check(book: &[u32]) -> u32
    ensures { Checks book.now result }
{
    slatewhim::slatewhim_check(book)
}

// SET, TRIAL and UNDO.
#[unsafe(no_mangle)]
pub extern "C" fn slatewhim_set(
    book: &mut [u32],
    desk: u32,
    fields: &[u32],
    year: u32,
    month: u32,
    months: u32,
) -> u32
    ensures { Changes (by desk (SET (sheet_at fields.now (period_of year month months)))) book.old result book.new }
{
    slatewhim::slatewhim_set(book, desk, fields, year, month, months)
}

#[unsafe(no_mangle)]
pub extern "C" fn slatewhim_trial(
    book: &[u32],
    desk: u32,
    fields: &[u32],
    year: u32,
    month: u32,
    months: u32,
) -> Falling
    ensures { Tells book.now desk (sheet_at fields.now (period_of year month months)) result }
{
    slatewhim::slatewhim_trial(book, desk, fields, year, month, months)
}

#[unsafe(no_mangle)]
pub extern "C" fn slatewhim_undo(book: &mut [u32], desk: u32) -> u32
    ensures { Changes (by desk UNDO) book.old result book.new }
{
    slatewhim::slatewhim_undo(book, desk)
}

// The calls on a code.
#[unsafe(no_mangle)]
pub extern "C" fn slatewhim_put(book: &mut [u32], desk: u32, code: u32, tariff: &[u32]) -> u32
    ensures { Changes (by desk (PUT code tariff.now)) book.old result book.new }
{
    slatewhim::slatewhim_put(book, desk, code, tariff)
}

#[unsafe(no_mangle)]
pub extern "C" fn slatewhim_open(book: &mut [u32], desk: u32, code: u32) -> Opened
    ensures { Opens (by desk (OPEN code)) book.old result book.new }
{
    slatewhim::slatewhim_open(book, desk, code)
}

#[unsafe(no_mangle)]
pub extern "C" fn slatewhim_ask(book: &mut [u32], desk: u32, code: u32) -> Opened
    ensures { Opens (by desk (ASK code)) book.old result book.new }
{
    slatewhim::slatewhim_ask(book, desk, code)
}

#[unsafe(no_mangle)]
pub extern "C" fn slatewhim_confirm(book: &mut [u32], desk: u32, code: u32) -> Opened
    ensures { Opens (by desk (CONFIRM code)) book.old result book.new }
{
    slatewhim::slatewhim_confirm(book, desk, code)
}

#[unsafe(no_mangle)]
pub extern "C" fn slatewhim_close(book: &mut [u32], desk: u32, code: u32) -> u32
    ensures { Changes (by desk (CLOSE code)) book.old result book.new }
{
    slatewhim::slatewhim_close(book, desk, code)
}

#[unsafe(no_mangle)]
pub extern "C" fn slatewhim_drop(book: &mut [u32], desk: u32, code: u32) -> u32
    ensures { Changes (by desk (DROP code)) book.old result book.new }
{
    slatewhim::slatewhim_drop(book, desk, code)
}

#[unsafe(no_mangle)]
pub extern "C" fn slatewhim_direct(book: &mut [u32], desk: u32, code: u32) -> u32
    ensures { Changes (by desk (DIRECT code)) book.old result book.new }
{
    slatewhim::slatewhim_direct(book, desk, code)
}

// BENCHMARK, MAXIMUM and QUOTE.
#[unsafe(no_mangle)]
pub extern "C" fn slatewhim_benchmark(
    book: &[u32],
    desk: u32,
    region: u32,
    arrangement: u32,
    method: u32,
    level: u32,
) -> Charge
    ensures { TellsCharge book.now (λ b. benchmark_of b desk region arrangement method level) result }
{
    slatewhim::slatewhim_benchmark(book, desk, region, arrangement, method, level)
}

#[unsafe(no_mangle)]
pub extern "C" fn slatewhim_maximum(
    book: &[u32],
    desk: u32,
    region: u32,
    arrangement: u32,
    method: u32,
    total: u32,
) -> Fraction
    ensures { TellsFraction book.now (λ b. maximum_of b desk region arrangement method total) result }
{
    slatewhim::slatewhim_maximum(book, desk, region, arrangement, method, total)
}

#[unsafe(no_mangle)]
pub extern "C" fn slatewhim_quote(
    book: &[u32],
    desk: u32,
    code: u32,
    region: u32,
    method: u32,
    months: &[u32],
) -> Quotation
    ensures { TellsQuotation book.now (λ b. quote_of b desk code region method months.now) result }
{
    slatewhim::slatewhim_quote(book, desk, code, region, method, months)
}

// The run over a list of accounts, for a desk.
#[unsafe(no_mangle)]
pub extern "C" fn slatewhim_rebates(book: &[u32], desk: u32, accounts: &mut [Account]) -> Ran
    ensures { RunsOver book.now desk accounts.old result accounts.new }
{
    slatewhim::slatewhim_rebates(book, desk, accounts)
}
