// OPEN's walk over the offered cells, and its verdict.
// Promise: `verdict_of` answers the number of cells of a tariff that exceeds nowhere, or the first cell that exceeds, with the months
// of answer 11 and their excess. Each offered cell is looked at once, with the standing charge of its region; where a share may be greatest
// is worked out once for the tariff. What the layer above may use: `verdict`, `first_over`, `Offered`, `ExceedsIn`, `cell_numbers`,
// `tariff_numbers` of specs/Cells.antt, and the theorems in proofs/Meaning.antt, Count.antt and Regional.antt.
#![tactic(auto)]

ghost use Rattle.std.specs.Prelude.{◌≡◌, true, ◌<◌, ◌≤◌, length, get_or};
ghost use Rattle.tariff.specs.declared.Tariff.{Tariff};
ghost use Rattle.benchmark.specs.declared.Benchmarks.{Benchmarks};
ghost use Rattle.benchmark.specs.Lawful.{Lawful};
ghost use Rattle.tariff.specs.Tariff.{standing_most, record_length, tariff_of, valid_tariff};
ghost use Rattle.charge.specs.Charge.{arrangement};
ghost use Rattle.cap.specs.Corners.{Fits};
ghost use Rattle.verdict.specs.Cells.{cell, cell_numbers, tariff_numbers, first_over, cell_count};
ghost use Rattle.verdict.specs.Rulings.{Finds, found_at, figures_by, Rules};

use benchmark::Benchmarks;
use cap::CellNumbers;
use tariff::{Kind, Tariff};

// The first cell that exceeds, as region and method.
#[derive(Clone, Copy)]
pub enum Found {
    Nowhere,
    Over(u32, u32),
}

// The number of cells, or the first cell that exceeds and the excess there.
#[derive(Clone, Copy)]
pub enum Outcome {
    Opens(u32),
    Over(u32, u32, u64),
}

// An outcome, and the months of answer 11 in the first t places.
#[derive(Clone, Copy)]
pub struct Ruling {
    pub outcome: Outcome,
    pub months: [u32; 12],
}

// The arrangement that a tariff is held to.
#[tactic(auto, using(std::proofs::lemmas::Bool::Decides::nat_tests), unfolding(charge::specs::Charge::arrangement))]
pub fn arrangement_of(x: Tariff) -> usize
    ensures { (result ≡ arrangement x) × (result < 2) }
{
    match Kind::of(x.kind) {
        Some(Kind::SingleRegister) => 0,
        _ => 1,
    }
}

// The number of offered cells.
#[tactic(auto, unfolding(crate::specs::Cells::cell_count))]
pub fn cell_count(x: Tariff) -> u32
    ensures { result ≡ cell_count x }
{
    x.regions.count_ones() * x.methods.count_ones()
}

// The numbers of a cell in an arrangement, for a standing charge, from the 112 figures, m, the peak share, t and the days.
fn cell_numbers(
    charges: &[u32],
    m: u32,
    peak: u32,
    months: u32,
    days: u32,
    arrangement: usize,
    standing: u32,
    region: u32,
    method: u32,
) -> CellNumbers
    requires { (length charges.now ≡ 112) × (arrangement < 2) × (region < 14) × (method < 2) }
    ensures { (b : Benchmarks) → b.charges ≡ charges.now → get_or b.levels arrangement 0 ≡ m → b.peak ≡ peak → b.months ≡ months → b.days ≡ days → result ≡ cell_numbers b arrangement standing (cell region method) }
{
    let at = benchmark::figure_index(region as usize, arrangement, method as usize, 0);
    CellNumbers {
        lower: u64::from(charges[at]),
        upper: u64::from(charges[at + 1]),
        m: u64::from(m),
        months: u64::from(months),
        days,
        standing,
        peak,
    }
}

// The numbers of a cell, from the figures of the sheet in force.
pub fn numbers_in(
    b: Benchmarks,
    arrangement: usize,
    standing: u32,
    region: u32,
    method: u32,
) -> CellNumbers
    requires { Lawful b × (arrangement < 2) × (standing ≤ standing_most) × (region < 14) × (method < 2) }
    ensures { (result ≡ cell_numbers b arrangement standing (cell region method)) × Fits result }
{
    cell_numbers(
        &b.charges,
        b.levels[arrangement],
        b.peak,
        b.months,
        b.days,
        arrangement,
        standing,
        region,
        method,
    )
}

// The numbers of a tariff's cell, with the standing charge of the region concerned.
pub fn numbers_of(b: Benchmarks, x: Tariff, region: u32, method: u32) -> CellNumbers
    requires { Lawful b × (valid_tariff x ≡ true) × (region < 14) × (method < 2) }
    ensures { (result ≡ tariff_numbers b x (cell region method)) × Fits result }
{
    numbers_in(
        b,
        arrangement_of(x),
        tariff::standing_in(x, region),
        region,
        method,
    )
}

// The walk: by region, then method, both rising, to the first offered cell that exceeds.
pub fn first_over(b: Benchmarks, x: Tariff) -> Found
    requires { Lawful b × (valid_tariff x ≡ true) }
    ensures { Finds b x result }
{
    let arrangement = arrangement_of(x);
    let m = b.levels[arrangement];
    let k = cap::corners_of(x, b.peak, u64::from(m));
    'walk: {
        for region in 0..14 {
            if tariff::has(x.regions, region) {
                let standing = tariff::standing_in(x, region);
                for method in 0..2 {
                    if tariff::has(x.methods, method) {
                        let e = cell_numbers(
                            &b.charges,
                            m,
                            b.peak,
                            b.months,
                            b.days,
                            arrangement,
                            standing,
                            region,
                            method,
                        );
                        if cap::exceeds(x, k, e) {
                            break 'walk Found::Over(region, method);
                        }
                    }
                }
            }
        }
        Found::Nowhere
    }
}

// The verdict on a tariff.
pub fn verdict_of(b: Benchmarks, x: Tariff) -> Ruling
    requires { Lawful b × (valid_tariff x ≡ true) }
    ensures { Rules b x result }
{
    match first_over(b, x) {
        Found::Nowhere => Ruling {
            outcome: Outcome::Opens(cell_count(x)),
            months: [0; 12],
        },
        Found::Over(region, method) => {
            let e = numbers_of(b, x, region, method);
            let worst = cap::worst_case(x, e);
            let months = worst.months;
            Ruling {
                outcome: Outcome::Over(region, method, worst.excess),
                months,
            }
        }
    }
}

// The figures of a sheet, from its parts.
fn figures_by(charges: &[u32], levels: [u32; 2], peak: u32, months: u32, days: u32) -> Benchmarks
    requires { length charges.now ≡ 112 }
    ensures { result ≡ figures_by charges.now levels peak months days }
{
    let mut copy = [0u32; 112];
    copy.copy_from_slice(charges);
    Benchmarks {
        charges: copy,
        levels,
        peak,
        months,
        days,
    }
}

// The number of the cell that the walk found, 28 where there is none.
fn cell_number(found: Found) -> u32
    requires { (b : Benchmarks) × (x : Tariff) × Finds b x found }
    ensures { (b : Benchmarks) (x : Tariff) → Finds b x found → first_over b x ≡ found_at result }
{
    match found {
        Found::Nowhere => 28,
        Found::Over(region, method) => 2 * region + method,
    }
}

// The walk of a tariff's record as it lies, with the figures of a sheet in their parts: the number of the first cell that exceeds, or 28.
pub fn first_in(
    charges: &[u32],
    x: &[u32],
    levels: [u32; 2],
    peak: u32,
    months: u32,
    days: u32,
) -> u32
    requires { (length x.now ≡ record_length) × Lawful (figures_by charges.now levels peak months days) × (valid_tariff (tariff_of x.now) ≡ true) }
    ensures { first_over (figures_by charges.now levels peak months days) (tariff_of x.now) ≡ found_at result }
{
    let b = figures_by(charges, levels, peak, months, days);
    cell_number(first_over(b, tariff::tariff_of(x)))
}

// The verdict on a tariff's record as it lies.
pub fn verdict_in(
    charges: &[u32],
    x: &[u32],
    levels: [u32; 2],
    peak: u32,
    months: u32,
    days: u32,
) -> Ruling
    requires { (length x.now ≡ record_length) × Lawful (figures_by charges.now levels peak months days) × (valid_tariff (tariff_of x.now) ≡ true) }
    ensures { Rules (figures_by charges.now levels peak months days) (tariff_of x.now) result }
{
    let b = figures_by(charges, levels, peak, months, days);
    verdict_of(b, tariff::tariff_of(x))
}
