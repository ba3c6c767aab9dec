// The image of a book: 1,279 words of 32 bits that a C program owns. Where each part stands, and how it is read and written.
// Promise: specs/Image.antt says which book the words hold (`book_in`), for any words at all; each function reads or writes a part of it, in
// place. What the layers above may use: these functions, `Changes` of specs/Changing.antt, which is what a call on an image promises, and the
// laws in proofs/.
#![tactic(auto)]

ghost use Rattle.std.specs.Prelude.{◌≡◌, List, ℕ, ◌+◌, ◌≤◌, ◌⊎◌, length};
ghost use Rattle.book.specs.Promises.{answer_of};
ghost use Rattle.image.specs.Layout.{word_count, record_at, place_words, start_of};
ghost use Rattle.image.specs.Image.{word, words, state_number, state_of, place_at, period_in, figures_in, is_image};
ghost use Rattle.image.specs.Changing.{Written, number_of};

use benchmark::Benchmarks;
use book::{Place, Reply, State};
use calendar::Period;

// How many words an image has, and the first of them: the bytes S, L, W and the version of this layout, 1.
pub const WORD_COUNT: usize = 1279;

pub const MARK: u32 = 22_498_387;

// The sheet in force: whether there is one, its fields and its period.
pub const LOADED_AT: usize = 1;

pub const FIELDS_AT: usize = 2;

pub const PERIOD_AT: usize = 98;

// What it comes to: the 112 charges, m of each arrangement, the peak share, t and the days.
pub const CHARGES_AT: usize = 101;

pub const LEVELS_AT: usize = 213;

pub const PEAK_AT: usize = 215;

pub const MONTHS_AT: usize = 216;

pub const DAYS_AT: usize = 217;

// What is kept for UNDO: whether there is something; the sheet before, in the order of the one in force; the state of each place.
pub const KEPT_AT: usize = 218;

pub const KEPT_LOADED_AT: usize = 219;

pub const KEPT_FIELDS_AT: usize = 220;

pub const KEPT_PERIOD_AT: usize = 316;

pub const KEPT_STATES_AT: usize = 319;

pub const KEPT_WORDS: usize = 133;

// The places: each has its state, whether there is a direction, and the 27 numbers of its tariff in the order of PUT.
pub const PLACES_AT: usize = 351;

pub const PLACE_WORDS: usize = 29;

pub const RECORD_AT: usize = 2;

// The number that is answered for what is no book.
pub const NO_BOOK: u32 = 100;

// Whether words are an image: so many, the mark first.
#[tactic(auto, unfolding(crate::specs::Image::is_image))]
pub fn is_image(image: &[u32]) -> bool
    ensures { result ≡ is_image image.now }
{
    image.len() == WORD_COUNT && image[0] == MARK
}

// A state as a word, and back.
pub fn state_number(s: State) -> u32
    ensures { result ≡ state_number s }
{
    match s {
        State::Empty => 0,
        State::Draft => 1,
        State::Marked => 2,
        State::Open => 3,
    }
}

pub fn state_of(n: u32) -> State
    ensures { result ≡ state_of n }
{
    match n {
        1 => State::Draft,
        2 => State::Marked,
        3 => State::Open,
        _ => State::Empty,
    }
}

// The first word of the place at an index.
pub fn start_of(i: usize) -> usize
    requires { i ≤ 31 }
    ensures { (result ≡ start_of i) × (result + place_words ≤ word_count) }
{
    PLACES_AT + PLACE_WORDS * i
}

// The place whose words begin at a word.
#[tactic(auto, using(crate::proofs::Reading::record_part), unfolding(crate::specs::Image::place_at))]
pub fn place_at(image: &[u32], at: usize) -> Place
    requires { at + place_words ≤ length image.now }
    ensures { result ≡ place_at image.now at }
{
    let state = state_of(image[at]);
    let directed = image[at + 1] == 1;
    let x = tariff::tariff_of(&image[at + RECORD_AT..at + PLACE_WORDS]);
    book::place_with(state, directed, x)
}

// The period whose words begin at a word.
pub fn period_at(image: &[u32], at: usize) -> Period
    requires { at + 3 ≤ length image.now }
    ensures { result ≡ period_in image.now at }
{
    Period {
        year: image[at],
        month: image[at + 1],
        months: image[at + 2],
    }
}

// N words, from a word on.
#[tactic(auto, using(crate::proofs::Reading::part_is_words))]
pub fn words_at<const N: usize>(image: &[u32], at: usize) -> [u32; N]
    requires { at + N ≤ length image.now }
    ensures { result ≡ words at N image.now }
{
    let mut words = [0; N];
    words.copy_from_slice(&image[at..at + N]);
    words
}

// The figures of the sheet in force.
#[tactic(auto, unfolding(crate::specs::Image::figures_in))]
pub fn figures_in(image: &[u32]) -> Benchmarks
    requires { length image.now ≡ word_count }
    ensures { result ≡ figures_in image.now }
{
    Benchmarks {
        charges: words_at(image, CHARGES_AT),
        levels: words_at(image, LEVELS_AT),
        peak: image[PEAK_AT],
        months: image[MONTHS_AT],
        days: image[DAYS_AT],
    }
}

// Zeros into n words.
pub fn clear(image: &mut [u32], at: usize, n: usize)
    requires { at + n ≤ length image.old }
    ensures { Written image.old image.new at n (λ j. 0) }
{
    image[at..at + n].fill(0);
}

// The numbers of a list, written from a word on.
pub fn write(image: &mut [u32], at: usize, x: &[u32])
    requires { at + length x.now ≤ length image.old }
    ensures { Written image.old image.new at (length x.now) (λ j. word x.now j) }
{
    for i in 0..x.len() {
        image[at + i] = x[i];
    }
}

// n words, copied to others that stand behind them or before them.
pub fn copy(image: &mut [u32], from: usize, to: usize, n: usize)
    requires { (from + n ≤ length image.old) × (to + n ≤ length image.old) × ((from + n ≤ to) ⊎ (to + n ≤ from)) }
    ensures { Written image.old image.new to n (λ j. word image.old (from + j)) }
{
    image.copy_within(from..from + n, to);
}

// The number of an answer: 0, or that of the refusal.
pub fn number_of(reply: Reply) -> u32
    ensures { (months : List ℕ) → result ≡ number_of (answer_of reply months) }
{
    match reply {
        Reply::Accepted | Reply::Cells(_) => 0,
        Reply::Refused(n) => n,
        Reply::Over(..) => 11,
    }
}
