// The calls on a code, made on an image in place: PUT, OPEN, CLOSE, DROP, ASK, CONFIRM and DIRECT; and a fresh image.
// Promise: each is `Changes` of the image's definitions: the number and the book after it are those of the book's own step. No book is copied:
// one place is read from the words, settled by the proved function of its call, and the words that change are written. OPEN and ASK, which judge
// a tariff, test first what they use of the words, and CONFIRM, OPEN and ASK say their whole answer (`Opens` of specs/Opening.antt).
#![tactic(auto)]

ghost use Rattle.std.specs.Prelude.{◌≤◌, ◌<◌, ◌≡◌, true, false, length};
ghost use Rattle.benchmark.specs.Lawful.{Lawful};
ghost use Rattle.tariff.specs.Tariff.{record_length, tariff_of};
ghost use Rattle.book.specs.declared.State.TheVariants.{Draft};
ghost use Rattle.book.specs.Calls.{PUT, OPEN, CLOSE, DROP, ASK, CONFIRM, DIRECT, by};
ghost use Rattle.book.specs.Book.{empty, place_with, with_state, with_direction};
ghost use Rattle.codes.specs.Codes.{act_on};
ghost use Rattle.image.specs.Layout.{word_count, start_of};
ghost use Rattle.image.specs.Image.{state_of, place_at};
ghost use Rattle.image.specs.Changing.{Changes};
ghost use Rattle.image_codes.specs.Storing.{UndoEnded, Stored, FreshImage};
ghost use Rattle.image_codes.specs.Opening.{plain, opened_of, Opens, CarriesCells, state_after, HandedOn};

use benchmark::Benchmarks;
use book::{Reply, Settled};
use codes::CodeAct;
use image::{KEPT_AT, KEPT_WORDS, LOADED_AT, MARK, NO_BOOK, PLACE_WORDS, RECORD_AT, WORD_COUNT};

// The answer of OPEN, ASK and CONFIRM: the refusal's number or 0; the number of cells; with 11 the cell, the excess, and t months.
#[repr(C)]
#[derive(Clone, Copy)]
pub struct Opened {
    pub refusal: u32,
    pub cells: u32,
    pub region: u32,
    pub method: u32,
    pub excess: u64,
    pub t: u32,
    pub months: [u32; 12],
}

// A fresh book into words of the caller.
pub fn fresh(image: &mut [u32]) -> u32
    ensures { FreshImage image.old result image.new }
{
    if image.len() != WORD_COUNT {
        return NO_BOOK;
    }
    image::clear(image, 0, WORD_COUNT);
    image[0] = MARK;
    0
}

// An accepted call on a code ends the chance to UNDO: what is kept is zeros, if it was not.
fn end_undo(image: &mut [u32])
    requires { length image.old ≡ word_count }
    ensures { UndoEnded image.old image.new }
{
    if image[KEPT_AT] != 0 {
        image::clear(image, KEPT_AT, KEPT_WORDS);
    }
}

// The place at an index, in another state.
fn store_state(image: &mut [u32], i: usize, state: u32)
    requires { (length image.old ≡ word_count) × (i < 32) × (state ≤ 3) }
    ensures { Stored image.old image.new i (with_state (state_of state) (place_at image.old (start_of i))) }
{
    end_undo(image);
    let at = image::start_of(i);
    image[at] = state;
}

// Under a direction.
fn store_direction(image: &mut [u32], i: usize)
    requires { (length image.old ≡ word_count) × (i < 32) }
    ensures { Stored image.old image.new i (with_direction (place_at image.old (start_of i))) }
{
    end_undo(image);
    let at = image::start_of(i);
    image[at + 1] = 1;
}

// Empty.
fn store_nothing(image: &mut [u32], i: usize)
    requires { (length image.old ≡ word_count) × (i < 32) }
    ensures { Stored image.old image.new i empty }
{
    end_undo(image);
    let at = image::start_of(i);
    image::clear(image, at, PLACE_WORDS);
}

// With a record, as a draft without a direction.
fn store_draft(image: &mut [u32], i: usize, x: &[u32])
    requires { (length image.old ≡ word_count) × (i < 32) × (length x.now ≡ record_length) }
    ensures { Stored image.old image.new i (place_with Draft false (tariff_of x.now)) }
{
    end_undo(image);
    let at = image::start_of(i);
    image[at] = 1;
    image[at + 1] = 0;
    image::write(image, at + RECORD_AT, x);
}

// PUT (code, tariff).
pub fn put(image: &mut [u32], desk: u32, code: u32, x: &[u32]) -> u32
    ensures { Changes (by desk (PUT code x.now)) image.old result image.new }
{
    if !image::is_image(&image[..]) {
        return NO_BOOK;
    }
    let i = checks::index_of(code);
    let p = image::place_at(&image[..], image::start_of(i));
    let drafted = putting::put_at(desk, code, p, x);
    let reply = drafted.reply;
    if !book::accepted_by(reply) {
        return image::number_of(reply);
    }
    store_draft(image, i, x);
    0
}

// CLOSE (code).
pub fn close(image: &mut [u32], desk: u32, code: u32) -> u32
    ensures { Changes (by desk (CLOSE code)) image.old result image.new }
{
    if !image::is_image(&image[..]) {
        return NO_BOOK;
    }
    let i = checks::index_of(code);
    let p = image::place_at(&image[..], image::start_of(i));
    let settled = codes::close_at(desk, code, p);
    let reply = settled.reply;
    if !book::accepted_by(reply) {
        return image::number_of(reply);
    }
    store_state(image, i, 1);
    0
}

// DROP (code).
pub fn drop(image: &mut [u32], desk: u32, code: u32) -> u32
    ensures { Changes (by desk (DROP code)) image.old result image.new }
{
    if !image::is_image(&image[..]) {
        return NO_BOOK;
    }
    let i = checks::index_of(code);
    let p = image::place_at(&image[..], image::start_of(i));
    let settled = codes::drop_at(desk, code, p);
    let reply = settled.reply;
    if !book::accepted_by(reply) {
        return image::number_of(reply);
    }
    store_nothing(image, i);
    0
}

// DIRECT (code).
pub fn direct(image: &mut [u32], desk: u32, code: u32) -> u32
    ensures { Changes (by desk (DIRECT code)) image.old result image.new }
{
    if !image::is_image(&image[..]) {
        return NO_BOOK;
    }
    let i = checks::index_of(code);
    let p = image::place_at(&image[..], image::start_of(i));
    let settled = directing::direct_at(desk, code, p);
    let reply = settled.reply;
    if !book::accepted_by(reply) {
        return image::number_of(reply);
    }
    store_direction(image, i);
    0
}

// An answer with no cell.
fn plain(refusal: u32, cells: u32) -> Opened
    ensures { result ≡ plain refusal cells }
{
    Opened {
        refusal,
        cells,
        region: 0,
        method: 0,
        excess: 0,
        t: 0,
        months: [0; 12],
    }
}

// The answer of a reply, with the months beside it.
fn opened_of(reply: Reply, months: [u32; 12]) -> Opened
    ensures { result ≡ opened_of reply months }
{
    match reply {
        Reply::Accepted => plain(0, 0),
        Reply::Cells(n) => plain(0, n),
        Reply::Refused(n) => plain(n, 0),
        Reply::Over(region, method, t, excess) => Opened {
            refusal: 11,
            cells: 0,
            region,
            method,
            excess,
            t,
            months,
        },
    }
}

// What was settled, handed on: the place in a state where it is accepted, and the answer.
fn hand_on(image: &mut [u32], i: usize, state: u32, settled: Settled) -> Opened
    requires { (length image.old ≡ word_count) × (i < 32) × (state ≤ 3) }
    ensures { HandedOn image.old i state settled result image.new }
{
    let reply = settled.reply;
    let months = settled.months;
    if !book::accepted_by(reply) {
        return opened_of(reply, months);
    }
    store_state(image, i, state);
    opened_of(reply, months)
}

// CONFIRM (code).
pub fn confirm(image: &mut [u32], desk: u32, code: u32) -> Opened
    ensures { Opens (by desk (CONFIRM code)) image.old result image.new }
{
    if !image::is_image(&image[..]) {
        return plain(NO_BOOK, 0);
    }
    let i = checks::index_of(code);
    let p = image::place_at(&image[..], image::start_of(i));
    let settled = opening::confirm_at(desk, code, p);
    hand_on(image, i, 3, settled)
}

// Whether a tariff may be judged with these figures, if a sheet is loaded.
fn figures_serve(loaded: bool, figures: Benchmarks) -> bool
    ensures { (result ≡ true → loaded ≡ true → Lawful figures) × ((loaded ≡ true → Lawful figures) → result ≡ true) }
{
    if loaded {
        return image_tests::is_lawful(figures);
    }
    true
}

// The state that an act leaves, as a word.
fn state_after(act: CodeAct) -> u32
    ensures { result ≡ state_after act }
{
    match act {
        CodeAct::Open => 3,
        CodeAct::Close => 1,
        CodeAct::Drop => 0,
        CodeAct::Ask => 2,
        CodeAct::Confirm => 3,
    }
}

// OPEN and ASK (code): the figures and the place are tested before the tariff is judged.
fn judged(image: &mut [u32], desk: u32, code: u32, act: CodeAct) -> Opened
    requires { CarriesCells act }
    ensures { Opens (by desk (act_on act code)) image.old result image.new }
{
    if !image::is_image(&image[..]) {
        return plain(NO_BOOK, 0);
    }
    let i = checks::index_of(code);
    let at = image::start_of(i);
    let loaded = image[LOADED_AT] == 1;
    let figures = image::figures_in(&image[..]);
    if !figures_serve(loaded, figures) {
        return plain(NO_BOOK, 0);
    }
    if !image_tests::holds_valid(&image[..], at) {
        return plain(NO_BOOK, 0);
    }
    let p = image::place_at(&image[..], at);
    let settled = codes::settle(desk, act, code, p, loaded, figures);
    hand_on(image, i, state_after(act), settled)
}

// OPEN (code).
pub fn open(image: &mut [u32], desk: u32, code: u32) -> Opened
    ensures { Opens (by desk (OPEN code)) image.old result image.new }
{
    judged(image, desk, code, CodeAct::Open)
}

// ASK (code).
pub fn ask(image: &mut [u32], desk: u32, code: u32) -> Opened
    ensures { Opens (by desk (ASK code)) image.old result image.new }
{
    judged(image, desk, code, CodeAct::Ask)
}
