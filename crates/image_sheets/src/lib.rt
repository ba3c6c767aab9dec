// SET, UNDO and TRIAL on an image, in place: no copy of the book is made.
// Promise: `set` and `undo` promise `Changes` of the image's definitions, on any words, and `trial` tells what the trial of that book tells
// (specs/Telling.antt) and writes nothing. Nothing is written before all is tested: that the words are an image, the desk, the sheet, and that
// each place holds nothing or a valid tariff, which judging needs and no list of calls promises of any words.
#![tactic(auto)]

ghost use Rattle.std.specs.Prelude.{◌≡◌, true, map, ◌≢◌, ℕ, ◌+◌, length};
ghost use Rattle.refusal.specs.declared.Check.TheVariants.{Pass, Refuse};
ghost use Rattle.refusal.specs.Checks.{checked};
ghost use Rattle.sheet.specs.Sheet.{field_count};
ghost use Rattle.benchmark.specs.Benchmark.{benchmarks_of, set_check};
ghost use Rattle.benchmark.specs.Lawful.{Lawful};
ghost use Rattle.book.specs.Calls.{SET, UNDO, sheet_at, by, accepted, refused};
ghost use Rattle.book.specs.Book.{under, restored, changed};
ghost use Rattle.trial.specs.Trial.{codes_where};
ghost use Rattle.trial.specs.Places.{fell_from};
ghost use Rattle.image.specs.Layout.{word_count, kept_states_at, start_of};
ghost use Rattle.image.specs.Image.{word, state_number, place_at, places_in, book_in};
ghost use Rattle.image.specs.Changing.{Written, number_of, Changes};
ghost use Rattle.image_sheets.specs.Stages.{AllValid, Refuses, StatesWritten, FiguresWritten, SheetWritten, StepKept, Leaves};
ghost use Rattle.image_sheets.specs.Telling.{Tells};

use benchmark::Benchmarks;
use calendar::Period;
use image::{
    CHARGES_AT, FIELDS_AT, KEPT_AT, KEPT_FIELDS_AT, KEPT_LOADED_AT, KEPT_PERIOD_AT, KEPT_STATES_AT,
    KEPT_WORDS, LEVELS_AT, LOADED_AT, NO_BOOK, PEAK_AT, PERIOD_AT,
};
use refusal::Check;

// The words of a sheet: whether there is one, its fields and its period.
const SHEET_WORDS: usize = 100;

// The number of a check: 0, or that of its refusal.
fn number_of_check(check: Check) -> u32
    ensures { result ≡ number_of (checked refused check accepted) }
{
    match check {
        Check::Pass => 0,
        Check::Refuse(n) => n,
    }
}

// Whether every place holds nothing or a valid tariff.
fn all_valid(image: &[u32]) -> bool
    requires { length image.now ≡ word_count }
    ensures { (result ≡ true → AllValid image.now) × (AllValid image.now → result ≡ true) }
{
    (0..32).all(|i| image_tests::holds_valid(image, image::start_of(i)))
}

// The number of SET's and TRIAL's answer, or 0, given that of the sheet's own checks. What is no image; 17; 1 to 4, 14, 5; what is no book,
// since some place holds no valid tariff.
fn refusal_of(image: &[u32], desk: u32, check: Check) -> u32
    requires { (n : ℕ) → check ≡ Refuse n → n ≢ 0 }
    ensures { Refuses image.now desk check result }
{
    if !image::is_image(image) {
        return NO_BOOK;
    }
    let full = desks::full_check(desk);
    let Check::Pass = full else {
        return number_of_check(full);
    };
    let Check::Pass = check else {
        return number_of_check(check);
    };
    if !all_valid(image) {
        return NO_BOOK;
    }
    0
}

// The figures of a sheet, written.
fn write_figures(image: &mut [u32], figures: Benchmarks)
    requires { length image.old ≡ word_count }
    ensures { FiguresWritten image.old image.new figures }
{
    let charges = figures.charges;
    image::write(image, CHARGES_AT, &charges);
    let levels = figures.levels;
    image::write(image, LEVELS_AT, &levels);
    let rest = [figures.peak, figures.months, figures.days];
    image::write(image, PEAK_AT, &rest);
}

// A sheet and its figures, written as the one in force.
fn write_sheet(image: &mut [u32], fields: &[u32], period: Period, figures: Benchmarks)
    requires { (length image.old ≡ word_count) × (length fields.now ≡ field_count) }
    ensures { SheetWritten image.old image.new (sheet_at fields.now period) figures }
{
    image[LOADED_AT] = 1;
    image::write(image, FIELDS_AT, fields);
    let words = [period.year, period.month, period.months];
    image::write(image, PERIOD_AT, &words);
    write_figures(image, figures);
}

// The state of each place, kept.
fn keep_states(image: &mut [u32])
    requires { length image.old ≡ word_count }
    ensures { Written image.old image.new kept_states_at 32 (λ i. word image.old (start_of i)) }
{
    for i in 0..32 {
        image[KEPT_STATES_AT + i] = image[image::start_of(i)];
    }
}

// What UNDO takes back: the sheet in force, or none, and the state of each place.
fn keep(image: &mut [u32])
    requires { length image.old ≡ word_count }
    ensures { StepKept image.old image.new }
{
    image[KEPT_AT] = 1;
    image::copy(image, LOADED_AT, KEPT_LOADED_AT, SHEET_WORDS);
    keep_states(image);
}

// Each place under the figures of a new sheet.
fn judge_places(image: &mut [u32], figures: Benchmarks)
    requires { (length image.old ≡ word_count) × Lawful figures × AllValid image.old }
    ensures { StatesWritten image.old image.new 32 (λ i. state_number (under figures (place_at image.old (start_of i))).state) }
{
    for i in 0..32 {
        let at = image::start_of(i);
        let next = setting::judged(image::place_at(image, at), figures);
        image[at] = image::state_number(next.state);
    }
}

// SET, where nothing is refused: the step is kept, every place judged, and the sheet replaced.
fn put_in_force(image: &mut [u32], fields: &[u32], period: Period, figures: Benchmarks)
    requires { (length image.old ≡ word_count) × (set_check fields.now period ≡ Pass) × (figures ≡ benchmarks_of fields.now period) × AllValid image.old }
    ensures { Leaves image.old image.new (changed (book_in image.old) (SET (sheet_at fields.now period))) }
{
    keep(image);
    judge_places(image, figures);
    write_sheet(image, fields, period, figures);
}

// SET (sheet, period). What is refused, and else as above.
pub fn set(image: &mut [u32], desk: u32, fields: &[u32], period: Period) -> u32
    ensures { Changes (by desk (SET (sheet_at fields.now period))) image.old result image.new }
{
    let worked = figures::work_out(fields, period);
    let check = worked.check;
    let refusal = refusal_of(image, desk, check);
    if refusal != 0 {
        return refusal;
    }
    let figures = worked.benchmarks;
    put_in_force(image, fields, period, figures);
    0
}

// Each place in the state that is kept of it.
fn states_back(image: &mut [u32])
    requires { length image.old ≡ word_count }
    ensures { StatesWritten image.old image.new 32 (λ i. word image.old (kept_states_at + i)) }
{
    for i in 0..32 {
        image[image::start_of(i)] = image[KEPT_STATES_AT + i];
    }
}

// UNDO, where something is kept: the sheet is the one before, or none, and each place is in the state that it had. The figures are worked
// out again; a book without a sheet has zeros for one, which SET's checks refuse, and so no figures.
fn take_back(image: &mut [u32])
    requires { (length image.old ≡ word_count) × ((book_in image.old).kept.any ≡ true) }
    ensures { Leaves image.old image.new (restored (book_in image.old)) }
{
    let period = image::period_at(image, KEPT_PERIOD_AT);
    let worked = figures::work_out(&image[KEPT_FIELDS_AT..KEPT_PERIOD_AT], period);
    let figures = worked.benchmarks;
    states_back(image);
    image::copy(image, KEPT_LOADED_AT, LOADED_AT, SHEET_WORDS);
    write_figures(image, figures);
    image::clear(image, KEPT_AT, KEPT_WORDS);
}

// UNDO. What is no image; 17; 15. Else as above.
pub fn undo(image: &mut [u32], desk: u32) -> u32
    ensures { Changes (by desk UNDO) image.old result image.new }
{
    if !image::is_image(image) {
        return NO_BOOK;
    }
    let full = desks::full_check(desk);
    let Check::Pass = full else {
        return number_of_check(full);
    };
    if image[KEPT_AT] != 1 {
        return 15;
    }
    take_back(image);
    0
}

// What TRIAL answers: a refusal, or 0 and the set of the codes that would become drafts.
#[repr(C)]
#[derive(Clone, Copy)]
pub struct Falling {
    pub refusal: u32,
    pub codes: u32,
}

// The codes whose tariffs a sheet with these figures would make drafts: bit code - 1 of each.
fn fallen(image: &[u32], figures: Benchmarks) -> u32
    requires { (length image.now ≡ word_count) × Lawful figures × AllValid image.now }
    ensures { result ≡ codes_where (fell_from (places_in image.now) (map (under figures) (places_in image.now))) }
{
    let mut codes: u64 = 0;
    let mut bit: u64 = 1;
    for i in 0..32 {
        let p = image::place_at(image, image::start_of(i));
        let q = setting::judged(p, figures);
        codes += trial::bit_if_fell(p, q, bit);
        bit *= 2;
    }
    codes as u32
}

// TRIAL (sheet, period). What SET refuses, and else the codes.
pub fn trial(image: &[u32], desk: u32, fields: &[u32], period: Period) -> Falling
    ensures { Tells image.now desk (sheet_at fields.now period) result }
{
    let worked = figures::work_out(fields, period);
    let check = worked.check;
    let refusal = refusal_of(image, desk, check);
    if refusal != 0 {
        return Falling { refusal, codes: 0 };
    }
    let figures = worked.benchmarks;
    Falling {
        refusal: 0,
        codes: fallen(image, figures),
    }
}
