// The check of a whole image, for one that comes from a file: whether its words are a book that some list of calls on a fresh one leaves.
// Promise: `is_book` answers yes exactly there; `check` answers 0 there, and else 100. They require nothing.
#![tactic(auto)]

ghost use Rattle.std.specs.Prelude.{◌≡◌, true};
ghost use Rattle.image_check.specs.Checking.{IsBook, Checks};

use image::NO_BOOK;

// Whether the words are a book.
pub fn is_book(image: &[u32]) -> bool
    ensures { (result ≡ true → IsBook image.now) × (IsBook image.now → result ≡ true) }
{
    if !image::is_image(image) {
        return false;
    }
    if !image_book::is_canonical(image) {
        return false;
    }
    let b = image_book::book_in(image);
    standing::stands(b)
}

// 0 where the words are a book, else 100.
pub fn check(image: &[u32]) -> u32
    ensures { Checks image.now result }
{
    if is_book(image) { 0 } else { NO_BOOK }
}
