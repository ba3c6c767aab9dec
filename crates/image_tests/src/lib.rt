// What is tested of the words of an image before a tariff is judged by them, since no list of calls need have left them.
// Promise: `is_lawful` says whether figures are such as the cap's arithmetic needs, and `holds_valid` whether a place holds nothing or a valid
// tariff, each both ways. Of an image that holds a reachable book both are so (proofs/Reachable.antt).
#![tactic(auto)]

ghost use Rattle.std.specs.Prelude.{◌≡◌, true, ◌+◌, ◌≤◌, length};
ghost use Rattle.laws.specs.Notions.{every};
ghost use Rattle.benchmark.specs.Lawful.{Lawful};
ghost use Rattle.stands.specs.Stands.{HoldsValid};
ghost use Rattle.image.specs.Layout.{word_count, place_words};
ghost use Rattle.image.specs.Image.{place_at, figures_in};
ghost use Rattle.image_tests.specs.Tests.{pair_fits, levels_fit, rest_fits, passes, valid_as};

use benchmark::Benchmarks;
use book::State;
use image::{PLACE_WORDS, RECORD_AT};
use refusal::Check;
use shares::WHOLE_SHARE;

// The most of a charge.
pub const CHARGE_MOST: u32 = 2_400_000_000;

// Whether each of the 56 pairs of charges, at nil consumption and at m, is in order and in range.
fn pairs_fit(charges: [u32; 112]) -> bool
    ensures { result ≡ every 56 (pair_fits charges) }
{
    let (pairs, _) = charges.as_chunks::<2>();
    pairs.iter().all(|&[nil, m]| nil <= m && m <= CHARGE_MOST)
}

// Whether m of each arrangement is in range.
fn levels_fit(levels: [u32; 2]) -> bool
    ensures { result ≡ levels_fit levels }
{
    levels.iter().all(|m| (1..=20_000).contains(m))
}

// Whether the peak share, t and the days are.
fn rest_fits(peak: u32, months: u32, days: u32) -> bool
    ensures { result ≡ rest_fits peak months days }
{
    peak <= WHOLE_SHARE && (1..=12).contains(&months) && days <= 372
}

// Whether figures are such as the cap's arithmetic needs.
#[tactic(auto, using(crate::proofs::Lawfulness::told_lawful), unfolding(crate::specs::Tests::lawful_test))]
pub fn is_lawful(f: Benchmarks) -> bool
    ensures { (result ≡ true → Lawful f) × (Lawful f → result ≡ true) }
{
    pairs_fit(f.charges) && levels_fit(f.levels) && rest_fits(f.peak, f.months, f.days)
}

// Whether those of an image are.
pub fn figures_lawful(image: &[u32]) -> bool
    requires { length image.now ≡ word_count }
    ensures { (result ≡ true → Lawful (figures_in image.now)) × (Lawful (figures_in image.now) → result ≡ true) }
{
    is_lawful(image::figures_in(image))
}

fn has_passed(check: Check) -> bool
    ensures { result ≡ passes check }
{
    match check {
        Check::Pass => true,
        Check::Refuse(_) => false,
    }
}

// Whether a place in that state, whose record was checked, holds nothing or a valid tariff.
fn is_valid_as(state: State, its: Check) -> bool
    ensures { result ≡ valid_as state its }
{
    match state {
        State::Empty => true,
        State::Draft => has_passed(its),
        State::Marked => has_passed(its),
        State::Open => has_passed(its),
    }
}

// Whether the place whose words begin at a word does.
pub fn holds_valid(image: &[u32], at: usize) -> bool
    requires { at + place_words ≤ length image.now }
    ensures { (result ≡ true → HoldsValid (place_at image.now at)) × (HoldsValid (place_at image.now at) → result ≡ true) }
{
    let state = image::state_of(image[at]);
    let from = at + RECORD_AT;
    let to = at + PLACE_WORDS;
    let its = tariff::check(&image[from..to]);
    is_valid_as(state, its)
}
