// The cost sheet: 96 words, the number that each stands for and its range, and the eighteen indexed terms, worked out from fields 0 to 36.
// Promise: `fields_in_range` is refusal 2 and `terms_fit` refusal 4, turned round; each term is Round(baseline × current, initial), and
// `smncc_of` is SMNCC with its sign. What the layer above may use: the terms' names, `smncc` and `peak_share`, `Ranged` and `Indexed` of
// specs/Ranged.antt, the bounds in proofs/Bounds.antt, and what depends on fields 0 to 36 alone, proofs/CommonFields.antt.
#![tactic(auto)]

ghost use Rattle.std.specs.Prelude.{◌≡◌, true, ◌+◌, ◌*◌, ◌≤◌, ◌<◌, length};
ghost use Rattle.sheet.specs.Sheet.{field_count, range_of, value_of, smncc, field_in_range, fields_in_range, round, indexed, df_term, cm_term, pc_term, oc_term, paac_term, four_fit, paac_fits, terms_fit};
ghost use Rattle.sheet.specs.CommonFields.{common_count};
ghost use Rattle.sheet.specs.Ranged.{Ranged};

use shares::WHOLE_SHARE;

// The numbers of a sheet.
pub const FIELD_COUNT: usize = 96;

// The most of a peak share, as the end of a range.
const PEAK_MOST: i64 = WHOLE_SHARE as i64;

#[derive(Debug, Clone, Copy, PartialEq, Eq)]
pub struct Range {
    pub low: i64,
    pub high: i64,
}

// The range of a field follows from its number. Past 95 there is no field, and no value is allowed.
#[tactic(auto, using(std::proofs::lemmas::Bool::Decides::nat_tests), unfolding(crate::specs::Sheet::range_of))]
pub fn range_of(number: usize) -> Range
    ensures { result ≡ range_of number }
{
    match number {
        0..=15 | 20..=21 | 37..=92 => Range {
            low: 0,
            high: 100_000_000,
        },
        36 => Range {
            low: -100_000_000,
            high: 100_000_000,
        },
        16..=19 => Range {
            low: 0,
            high: 1_000_000,
        },
        22..=28 => Range {
            low: 1,
            high: 1_000_000_000,
        },
        29..=35 => Range {
            low: 0,
            high: 1_000_000_000,
        },
        93..=94 => Range {
            low: 1,
            high: 20_000,
        },
        95 => Range {
            low: 0,
            high: PEAK_MOST,
        },
        _ => Range { low: 1, high: 0 },
    }
}

// The number that a word stands for: two's complement in field 36, the word itself in every other.
#[tactic(auto, using(std::proofs::lemmas::Bool::Decides::nat_tests), unfolding(crate::specs::Sheet::value_of, crate::specs::Sheet::signed))]
fn value_of(number: usize, word: u32) -> i64
    ensures { result ≡ value_of number word }
{
    if number == 36 && word >= 2_147_483_648 {
        i64::from(word) - 4_294_967_296
    } else {
        i64::from(word)
    }
}

#[tactic(auto, unfolding(crate::specs::Sheet::field_in_range))]
fn field_in_range(number: usize, word: u32) -> bool
    ensures { result ≡ field_in_range number word }
{
    let r = range_of(number);
    let value = value_of(number, word);
    (r.low..=r.high).contains(&value)
}

// Whether each of the 96 fields is in its range.
pub fn fields_in_range(s: &[u32]) -> bool
    requires { length s.now ≡ field_count }
    ensures { result ≡ fields_in_range s.now }
{
    s.iter()
        .enumerate()
        .all(|(k, word)| field_in_range(k, *word))
}

// n / d to the nearest whole, halves up.
#[tactic(auto, unfolding(crate::specs::Sheet::round))]
pub fn rounded(n: u64, d: u64) -> u64
    requires { (n ≤ 1000000000000000000) × (1 ≤ d) × (d ≤ 1000000000) }
    ensures { result ≡ round n d }
{
    (2 * n + d) / (2 * d)
}

// SMNCC, the number that field 36 stands for.
pub fn smncc_of(part: &[u32]) -> i64
    requires { Ranged common_count part.now }
    ensures { result ≡ smncc part.now }
{
    value_of(36, part[36])
}

// An indexed term: Round(baseline × current, initial), each given by its field number. It is lent the common fields, 0 to 36.
fn indexed_term(part: &[u32], baseline: usize, current: usize, initial: usize) -> u64
    requires { Ranged common_count part.now × (baseline < 22) × (29 ≤ current) × (current < 36) × (22 ≤ initial) × (initial < 29) }
    ensures { result ≡ indexed part.now baseline current initial }
{
    rounded(
        u64::from(part[baseline]) * u64::from(part[current]),
        u64::from(part[initial]),
    )
}

// The terms of place f of a four: DF, CM, PC and OC; and PAAC's of a method p.
pub fn df_term(part: &[u32], f: usize) -> u64
    requires { Ranged common_count part.now × (f < 4) }
    ensures { result ≡ df_term part.now f }
{
    indexed_term(part, f, 29, 22)
}

pub fn cm_term(part: &[u32], f: usize) -> u64
    requires { Ranged common_count part.now × (f < 4) }
    ensures { result ≡ cm_term part.now f }
{
    indexed_term(part, 4 + f, 30, 23)
}

pub fn pc_term(part: &[u32], f: usize) -> u64
    requires { Ranged common_count part.now × (f < 4) }
    ensures { result ≡ pc_term part.now f }
{
    indexed_term(part, 8 + f, 32 + f, 25 + f)
}

pub fn oc_term(part: &[u32], f: usize) -> u64
    requires { Ranged common_count part.now × (f < 4) }
    ensures { result ≡ oc_term part.now f }
{
    indexed_term(part, 12 + f, 31, 24)
}

pub fn paac_term(part: &[u32], p: usize) -> u64
    requires { Ranged common_count part.now × (p < 2) }
    ensures { result ≡ paac_term part.now p }
{
    indexed_term(part, 20 + p, 31, 24)
}

#[tactic(auto, using(std::proofs::lemmas::Bool::Decides::nat_tests), unfolding(crate::specs::Sheet::four_fit))]
fn four_fit(part: &[u32], f: usize) -> bool
    requires { Ranged common_count part.now × (f < 4) }
    ensures { result ≡ four_fit part.now f }
{
    df_term(part, f) <= 100_000_000
        && cm_term(part, f) <= 100_000_000
        && pc_term(part, f) <= 100_000_000
        && oc_term(part, f) <= 100_000_000
}

#[tactic(auto, unfolding(crate::specs::Sheet::paac_fits))]
fn paac_fits(part: &[u32], p: usize) -> bool
    requires { Ranged common_count part.now × (p < 2) }
    ensures { result ≡ paac_fits part.now p }
{
    paac_term(part, p) <= 100_000_000
}

// Whether no indexed term is above 100,000,000.
pub fn terms_fit(part: &[u32]) -> bool
    requires { Ranged common_count part.now }
    ensures { result ≡ terms_fit part.now }
{
    (0..4).all(|f| four_fit(part, f)) && paac_fits(part, 0) && paac_fits(part, 1)
}
