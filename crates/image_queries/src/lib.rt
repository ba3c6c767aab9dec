// BENCHMARK, MAXIMUM and QUOTE asked of an image, reading the words that they need and no others.
// Promise: specs/Tells.antt, one shape for the three, for any words at all. The checks are those of the book's own calls, in their order. Nobody
// promises that the words are what a list of calls left: what the cap's arithmetic needs of them is tested, and words that fail are no book.
#![tactic(auto)]

ghost use Rattle.std.specs.Prelude.{◌≡◌, true, ◌<◌, length};
ghost use Rattle.cap.specs.Corners.{Fits};
ghost use Rattle.verdict.specs.Cells.{cell, cell_numbers};
ghost use Rattle.queries.specs.Queries.{benchmark_of, maximum_of};
ghost use Rattle.quoting.specs.Quote.{quote_of};
ghost use Rattle.image.specs.Layout.{word_count};
ghost use Rattle.image.specs.Image.{figures_in};
ghost use Rattle.image_queries.specs.Reading.{asked_in};
ghost use Rattle.image_queries.specs.Tells.{TellsCharge, TellsFraction, TellsQuotation};

use cap::CellNumbers;
use charge::Kwh;
use image::{CHARGES_AT, DAYS_AT, LEVELS_AT, LOADED_AT, MONTHS_AT, NO_BOOK, PEAK_AT};
use refusal::Check;
use shares::WHOLE_SHARE;
use tariff::STANDING_MOST;

// The answers: 0 or the number of the refusal, and then the figures, which with a refusal are 0.
#[repr(C)]
#[derive(Clone, Copy)]
pub struct Charge {
    pub refusal: u32,
    pub mills: u32,
}

// The maximum, as a whole number over 12 × m.
#[repr(C)]
#[derive(Clone, Copy)]
pub struct Fraction {
    pub refusal: u32,
    pub number: u64,
    pub denominator: u64,
}

// The charge and the maximum, each times 1,000 × 12 × m.
#[repr(C)]
#[derive(Clone, Copy)]
pub struct Quotation {
    pub refusal: u32,
    pub charge: u64,
    pub maximum: u64,
}

fn wide(x: u32) -> u64
    ensures { result ≡ x }
{
    x as u64
}

fn no_charge(refusal: u32) -> Charge
    ensures { result ≡ record { refusal = refusal; mills = 0 } }
{
    Charge { refusal, mills: 0 }
}

fn no_fraction(refusal: u32) -> Fraction
    ensures { result ≡ record { refusal = refusal; number = 0; denominator = 0 } }
{
    Fraction {
        refusal,
        number: 0,
        denominator: 0,
    }
}

fn no_quotation(refusal: u32) -> Quotation
    ensures { result ≡ record { refusal = refusal; charge = 0; maximum = 0 } }
{
    Quotation {
        refusal,
        charge: 0,
        maximum: 0,
    }
}

// The checks of BENCHMARK and MAXIMUM: 13, 17, 10.
fn asked_of(
    image: &[u32],
    desk: u32,
    region: u32,
    arrangement: u32,
    method: u32,
    last: bool,
) -> Check
    requires { length image.now ≡ word_count }
    ensures { result ≡ asked_in image.now desk region arrangement method last }
{
    let asked = queries::asked_check(desk, region, arrangement, method, last);
    let loaded = image[LOADED_AT] == 1;
    refusal::first(asked, checks::sheet_check(loaded))
}

// BENCHMARK (region, arrangement, method, level): one word.
pub fn benchmark(
    image: &[u32],
    desk: u32,
    region: u32,
    arrangement: u32,
    method: u32,
    level: u32,
) -> Charge
    ensures { TellsCharge image.now (λ b. benchmark_of b desk region arrangement method level) result }
{
    if !image::is_image(image) {
        return no_charge(NO_BOOK);
    }
    let checked = asked_of(image, desk, region, arrangement, method, level < 2);
    match checked {
        Check::Refuse(n) => no_charge(n),
        Check::Pass => {
            let at = benchmark::figure_index(
                region as usize,
                arrangement as usize,
                method as usize,
                level as usize,
            );
            Charge {
                refusal: 0,
                mills: image[CHARGES_AT + at],
            }
        }
    }
}

// The numbers of a cell in an arrangement, for a standing charge: those of its figures that they are made of.
fn numbers_at(
    image: &[u32],
    arrangement: usize,
    standing: u32,
    region: u32,
    method: u32,
) -> CellNumbers
    requires { (length image.now ≡ word_count) × (arrangement < 2) × (region < 14) × (method < 2) }
    ensures { result ≡ cell_numbers (figures_in image.now) arrangement standing (cell region method) }
{
    let at = CHARGES_AT + benchmark::figure_index(region as usize, arrangement, method as usize, 0);
    CellNumbers {
        lower: wide(image[at]),
        upper: wide(image[at + 1]),
        m: wide(image[LEVELS_AT + arrangement]),
        months: wide(image[MONTHS_AT]),
        days: image[DAYS_AT],
        standing,
        peak: image[PEAK_AT],
    }
}

// Whether the numbers of a cell are such as those of an accepted sheet.
fn fits(e: CellNumbers) -> bool
    ensures { (result ≡ true → Fits e) × (Fits e → result ≡ true) }
{
    if e.upper < e.lower {
        return false;
    }
    if 2_400_000_000 < e.upper {
        return false;
    }
    if 20_000 < e.m {
        return false;
    }
    if 12 < e.months {
        return false;
    }
    if 372 < e.days {
        return false;
    }
    if STANDING_MOST < e.standing {
        return false;
    }
    e.peak <= WHOLE_SHARE
}

// MAXIMUM (region, arrangement, method, total): the whole number and 12 × m.
pub fn maximum(
    image: &[u32],
    desk: u32,
    region: u32,
    arrangement: u32,
    method: u32,
    total: u32,
) -> Fraction
    ensures { TellsFraction image.now (λ b. maximum_of b desk region arrangement method total) result }
{
    if !image::is_image(image) {
        return no_fraction(NO_BOOK);
    }
    let checked = asked_of(image, desk, region, arrangement, method, total <= 120_000);
    match checked {
        Check::Refuse(n) => no_fraction(n),
        Check::Pass => {
            let e = numbers_at(image, arrangement as usize, 0, region, method);
            if !fits(e) {
                return no_fraction(NO_BOOK);
            }
            let most = cap::maximum_of(e, Kwh(wide(total)));
            Fraction {
                refusal: 0,
                number: most.0,
                denominator: 12 * e.m,
            }
        }
    }
}

// QUOTE (code, region, method, months): the place of the code, and the numbers of the cell.
pub fn quote(
    image: &[u32],
    desk: u32,
    code: u32,
    region: u32,
    method: u32,
    months: &[u32],
) -> Quotation
    ensures { TellsQuotation image.now (λ b. quote_of b desk code region method months.now) result }
{
    if !image::is_image(image) {
        return no_quotation(NO_BOOK);
    }
    let at = image::start_of(checks::index_of(code));
    let p = image::place_at(image, at);
    let loaded = image[LOADED_AT] == 1;
    let t = image[MONTHS_AT];
    let checked = quoting::check_at(desk, code, p, loaded, t, region, method, months);
    match checked {
        Check::Refuse(n) => no_quotation(n),
        Check::Pass => {
            if !image_tests::holds_valid(image, at) {
                return no_quotation(NO_BOOK);
            }
            let x = book::tariff_in(p);
            let standing = tariff::standing_in(x, region);
            let e = numbers_at(image, verdict::arrangement_of(x), standing, region, method);
            if !fits(e) {
                return no_quotation(NO_BOOK);
            }
            let sides = cap::sides_of(e, x, months);
            Quotation {
                refusal: 0,
                charge: sides.charged,
                maximum: sides.capped,
            }
        }
    }
}
