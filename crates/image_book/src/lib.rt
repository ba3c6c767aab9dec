// The whole book that an image holds, by value, and whether its words are canonical.
// Promise: `book_in` is `book_in` of crate image, of any words; `is_canonical` answers yes exactly where the words are `Canonical`, so that no two
// images hold the same book (proofs/OneImage.antt, `one_image`). Only who has to look at a whole book uses them: the check of an image and the rebate run.
#![tactic(auto)]

ghost use Rattle.std.specs.Prelude.{◌≡◌, true, length, ◌≤◌};
ghost use Rattle.image.specs.Layout.{word_count};
ghost use Rattle.laws.specs.Notions.{every};
ghost use Rattle.book.specs.Book.{stood_as};
ghost use Rattle.image_book.specs.Testing.{canonical_at};
ghost use Rattle.image.specs.Image.{state_of, places_in, states_in, kept_in, book_in, Canonical};

use book::{Book, Kept, Place, Stood};
use image::{
    FIELDS_AT, KEPT_AT, KEPT_FIELDS_AT, KEPT_LOADED_AT, KEPT_PERIOD_AT, KEPT_STATES_AT, LOADED_AT,
    PERIOD_AT,
};
use std::array;

// The 32 places.
fn places_in(image: &[u32]) -> [Place; 32]
    requires { length image.now ≡ word_count }
    ensures { result ≡ places_in image.now }
{
    array::from_fn(|i| image::place_at(image, image::start_of(i)))
}

fn stood(n: u32) -> Stood
    ensures { result ≡ stood_as (state_of n) }
{
    Stood {
        state: image::state_of(n),
    }
}

// The state that each place had.
fn states_in(image: &[u32]) -> [Stood; 32]
    requires { length image.now ≡ word_count }
    ensures { result ≡ states_in image.now }
{
    image::words_at(image, KEPT_STATES_AT).map(stood)
}

// What is kept for UNDO.
#[tactic(auto, unfolding(image::specs::Image::kept_in))]
fn kept_in(image: &[u32]) -> Kept
    requires { length image.now ≡ word_count }
    ensures { result ≡ kept_in image.now }
{
    Kept {
        any: image[KEPT_AT] == 1,
        loaded: image[KEPT_LOADED_AT] == 1,
        fields: image::words_at(image, KEPT_FIELDS_AT),
        period: image::period_at(image, KEPT_PERIOD_AT),
        states: states_in(image),
    }
}

// The book that an image holds.
#[tactic(auto, unfolding(image::specs::Image::book_in))]
pub fn book_in(image: &[u32]) -> Book
    requires { length image.now ≡ word_count }
    ensures { result ≡ book_in image.now }
{
    Book {
        loaded: image[LOADED_AT] == 1,
        fields: image::words_at(image, FIELDS_AT),
        period: image::period_at(image, PERIOD_AT),
        benchmarks: image::figures_in(image),
        places: places_in(image),
        kept: kept_in(image),
    }
}

// Whether the words of one place, and that of the state that it had, are canonical.
#[tactic(auto, unfolding(crate::specs::Testing::canonical_at))]
fn is_canonical_at(image: &[u32], i: usize) -> bool
    requires { (length image.now ≡ word_count) × (i ≤ 31) }
    ensures { result ≡ canonical_at image.now i }
{
    let at = image::start_of(i);
    image[at] <= 3 && image[at + 1] <= 1 && image[KEPT_STATES_AT + i] <= 3
}

// Whether the words of every place are.
fn are_canonical(image: &[u32]) -> bool
    requires { length image.now ≡ word_count }
    ensures { result ≡ every 32 (canonical_at image.now) }
{
    (0..32).all(|i| is_canonical_at(image, i))
}

// Whether a yes or no is 0 or 1 and a state 0 to 3, wherever one stands.
#[tactic(auto, using(crate::proofs::Tested::canonical, crate::proofs::Tested::tested))]
pub fn is_canonical(image: &[u32]) -> bool
    requires { length image.now ≡ word_count }
    ensures { (result ≡ true → Canonical image.now) × (Canonical image.now → result ≡ true) }
{
    image[LOADED_AT] <= 1
        && image[KEPT_AT] <= 1
        && image[KEPT_LOADED_AT] <= 1
        && are_canonical(image)
}
