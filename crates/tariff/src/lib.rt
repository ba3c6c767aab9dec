// A tariff: its record of 27 numbers, the standing charge of each region, and refusal 8.
// Promise: `check` is refusal 8, "not such a record, its length included", for any list of numbers; `standing_in` is what a valid tariff
// charges a day in a region. What the layer above may use: `Tariff`, `Kind`, `tariff_of`, `standing_in`, `valid_tariff` and `record_check` of
// specs/Tariff.antt, `has`, `is_valid`, and the laws of a valid tariff in proofs/Validity.antt.
#![tactic(auto)]

ghost use Rattle.std.specs.Prelude.{◌≡◌, true, ◌&&◌, ◌||◌, ◌+◌, ◌≤◌, ◌<◌, leb, eqb, length, take};
ghost use Rattle.laws.specs.Notions.{every, sum, bit};
ghost use Rattle.tariff.specs.Tariff.{standing_most, record_length, kind_of, tariff_of, standing_in, single_register, economy7, multi_register, region_fits, valid_tariff, record_check};

use refusal::Check;
use shares::{WHOLE, WHOLE_SHARE};

// The most of a rate, of a standing charge and of a step.
pub const RATE_MOST: u32 = 200_000;

pub const STANDING_MOST: u32 = 1_000_000;

pub const STEP_MOST: u32 = 9_999;

// All fourteen regions, bits 0 to 13.
pub const ALL_FOURTEEN: u32 = 16_383;

// How many numbers a record has.
pub const RECORD_LENGTH: usize = 27;

// A record: numbers 0 to 4, the rates (5 to 8), the steps (9 to 12) and what each region adds to the standing charge (13 to 26).
#[derive(Clone, Copy, PartialEq, Eq)]
pub struct Tariff {
    pub kind: u32,
    pub n: u32,
    pub standing: u32,
    pub regions: u32,
    pub methods: u32,
    pub rates: [u32; 4],
    pub steps: [u32; 4],
    pub regional: [u32; 14],
}

// What number 0 of a record may be.
#[derive(Clone, Copy, Debug, PartialEq, Eq)]
pub enum Kind {
    SingleRegister = 1,
    Economy7 = 2,
    MultiRegister = 3,
}

impl Kind {
    // The kind of a number, if there is one.
    pub fn of(number: u32) -> Option<Kind>
        ensures { result ≡ kind_of number }
    {
        match number {
            1 => Some(Kind::SingleRegister),
            2 => Some(Kind::Economy7),
            3 => Some(Kind::MultiRegister),
            _ => None,
        }
    }
}

// The tariff of a record.
pub fn tariff_of(x: &[u32]) -> Tariff
    requires { length x.now ≡ record_length }
    ensures { result ≡ tariff_of x.now }
{
    Tariff {
        kind: x[0],
        n: x[1],
        standing: x[2],
        regions: x[3],
        methods: x[4],
        rates: [x[5], x[6], x[7], x[8]],
        steps: [x[9], x[10], x[11], x[12]],
        regional: [
            x[13], x[14], x[15], x[16], x[17], x[18], x[19], x[20], x[21], x[22], x[23], x[24],
            x[25], x[26],
        ],
    }
}

// Bit i of a set.
#[tactic(auto, unfolding(laws::specs::Notions::bit))]
pub fn has(set: u32, i: u32) -> bool
    requires { i < 32 }
    ensures { result ≡ bit set i }
{
    (set >> i) % 2 == 1
}

#[tactic(auto, using(std::proofs::lemmas::Bool::Decides::nat_tests), unfolding(crate::specs::Tariff::single_register))]
fn single_register(x: Tariff) -> bool
    ensures { result ≡ single_register x }
{
    let tiers = x.n as usize;
    (1..=4).contains(&tiers)
        && fours::all_within(x.steps, tiers - 1, 1, STEP_MOST)
        && fours::all_rising(x.steps, tiers - 1)
        && fours::zero_from(x.rates, tiers)
        && fours::zero_from(x.steps, tiers - 1)
}

#[tactic(auto, using(std::proofs::lemmas::Bool::Decides::nat_tests), unfolding(crate::specs::Tariff::economy7))]
fn economy_7(x: Tariff) -> bool
    ensures { result ≡ economy7 x }
{
    x.n == 2 && fours::zero_from(x.rates, 2) && fours::zero_from(x.steps, 0)
}

#[tactic(auto, using(std::proofs::lemmas::Bool::Decides::nat_tests), unfolding(crate::specs::Tariff::multi_register))]
fn multi_register(x: Tariff) -> bool
    ensures { result ≡ multi_register x }
{
    let registers = x.n as usize;
    (2..=4).contains(&registers)
        && fours::all_within(x.steps, registers, 0, WHOLE_SHARE)
        && fours::sum_of(x.steps, registers) == WHOLE
        && fours::zero_from(x.rates, registers)
        && fours::zero_from(x.steps, registers)
}

// Whether what a region adds leaves its standing charge within the most, and is 0 where the region is not offered.
fn region_fits(standing: u32, added: u32, offered: bool) -> bool
    ensures { result ≡ (leb (standing + added) standing_most && (offered || eqb added 0)) }
{
    u64::from(standing) + u64::from(added) <= u64::from(STANDING_MOST) && (offered || added == 0)
}

// Whether each of the fourteen regions has a number that fits.
fn regions_fit(x: Tariff) -> bool
    ensures { result ≡ every 14 (region_fits x) }
{
    (0..14).all(|region: u32| {
        region_fits(
            x.standing,
            x.regional[region as usize],
            has(x.regions, region),
        )
    })
}

// The standing charge of the region concerned.
#[tactic(auto, using(crate::proofs::Validity::valid_standing_in), unfolding(crate::specs::Tariff::standing_in))]
pub fn standing_in(x: Tariff, region: u32) -> u32
    requires { (valid_tariff x ≡ true) × (region < 14) }
    ensures { (result ≡ standing_in x region) × (result ≤ standing_most) }
{
    x.standing + x.regional[region as usize]
}

// Whether the numbers of a record are such as the papers allow.
#[tactic(auto, using(std::proofs::lemmas::Bool::Decides::nat_tests), unfolding(crate::specs::Tariff::valid_tariff, crate::specs::Tariff::rates_within, crate::specs::Tariff::valid_kind))]
pub fn is_valid(x: Tariff) -> bool
    ensures { result ≡ valid_tariff x }
{
    x.standing <= STANDING_MOST
        && (1..=ALL_FOURTEEN).contains(&x.regions)
        && (1..=3).contains(&x.methods)
        && fours::all_within(x.rates, 4, 0, RATE_MOST)
        && regions_fit(x)
        && match Kind::of(x.kind) {
            Some(Kind::SingleRegister) => single_register(x),
            Some(Kind::Economy7) => economy_7(x),
            Some(Kind::MultiRegister) => multi_register(x),
            None => false,
        }
}

// The same of the 27 numbers of a record, as they lie.
pub fn is_record(x: &[u32]) -> bool
    requires { length x.now ≡ record_length }
    ensures { result ≡ valid_tariff (tariff_of x.now) }
{
    is_valid(tariff_of(x))
}

// Refusal 8: not such a record, its length included.
pub fn check(x: &[u32]) -> Check
    ensures { result ≡ record_check x.now }
{
    if x.len() != RECORD_LENGTH {
        return Check::Refuse(8);
    }
    if is_valid(tariff_of(x)) {
        Check::Pass
    } else {
        Check::Refuse(8)
    }
}
