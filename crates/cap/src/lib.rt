// The cap in one cell: the Relevant Maximum Charge of 28AD.6, the excess of a tariff over it, and whether the tariff exceeds
// for any list of t months. Promise: `exceeds` says so exactly, though it looks at no more than five consumptions; `worst_case`
// gives the months of answer 11 and their excess; `sides_of` gives QUOTE's two numbers, and `maximum_of` MAXIMUM's. Each kWh is
// charged by `charge::charge_for` and allowed by `allowed_for`. What the layer above may use: `Exceeds`, `excess`, `worst_months` of
// specs/Cap.antt, `exceeds?` of proofs/Decided.antt, `Fits` and `Carries` of specs/Corners.antt, and the theorems in proofs/Worst.antt.
#![tactic(auto)]

ghost use Rattle.std.specs.Prelude.{◌≡◌, true, ◌++◌, ℕ, ◌+◌, ◌-◌, ◌*◌, ◌≤◌, ◌<◌, length, get_or, drop, replicate};
ghost use Rattle.laws.specs.Notions.{sum};
ghost use Rattle.laws.proofs.Greatest.{better};
ghost use Rattle.laws.proofs.Pieces.{scan};
ghost use Rattle.shares.specs.Shares.{whole_share};
ghost use Rattle.tariff.specs.Tariff.{valid_tariff};
ghost use Rattle.charge.specs.Charge.{month_most};
ghost use Rattle.charge.specs.Most.{months_most, scaled_rate_most};
ghost use Rattle.charge.specs.Tiers.{TiersFit};
ghost use Rattle.cap.specs.Cap.{maximum, charged, capped, Months, Exceeds};
ghost use Rattle.cap.specs.Corners.{level_most, total_most, maximum_most, slope_most, room, month_charged_most, Fits, corners_of, Bounded, Priced, Raised, Cornered, Compares, Carries};

use charge::{Kwh, Mills, Tiers};
use shares::WHOLE;
use tariff::Tariff;

// The most of a month's consumption and of a benchmark; the scale of an excess, which is this times m; and what the cap allows at most
// for a month's kWh, so scaled.
const MONTH_MOST: u64 = 10_000;

const BENCHMARK_MOST: u64 = 2_400_000_000;

pub const SCALE: u64 = 12 * WHOLE;

const ROOM: u64 = SCALE * BENCHMARK_MOST * MONTH_MOST;

// The numbers of a cell: N and M, the benchmarks at nil and at m; m; t; the days; the standing charge that counts there; and the
// peak share of Economy 7.
#[derive(Debug, Clone, Copy, PartialEq, Eq)]
pub struct CellNumbers {
    pub lower: u64,
    pub upper: u64,
    pub m: u64,
    pub months: u64,
    pub days: u32,
    pub standing: u32,
    pub peak: u32,
}

// The charge and the maximum, each times the scale.
#[derive(Debug, Clone, Copy, PartialEq, Eq)]
pub struct Sides {
    pub charged: u64,
    pub capped: u64,
}

// The consumptions, beside 0, at which a month's share may be greatest: each step, and the end in every place that is left; and a
// month's charge at each, times the scale.
#[derive(Debug, Clone, Copy, PartialEq, Eq)]
pub struct Corners {
    pub at: [u64; 4],
    pub charged: [u64; 4],
}

// A month, and its share raised by the most that the cap allows for a month's kWh, so that it is not below 0.
#[derive(Debug, Clone, Copy, PartialEq, Eq)]
pub struct Share {
    pub month: u64,
    pub raised: u64,
}

// The worst month, and both sides of the comparison for t of it, raised by as much.
#[derive(Debug, Clone, Copy, PartialEq, Eq)]
pub struct Comparison {
    pub month: u64,
    pub charged: u64,
    pub capped: u64,
}

// The months of answer 11, in the first t places, and their excess.
#[derive(Debug, Clone, Copy, PartialEq, Eq)]
pub struct WorstCase {
    pub months: [u32; 12],
    pub excess: u64,
}

// The maximum helper: what each kWh adds, and the kWh.
fn allowed_for(slope: Mills, used: Kwh) -> Mills
    requires { (slope.0 ≤ slope_most) × (used.0 ≤ total_most) }
    ensures { result.0 ≡ slope.0 * used.0 }
{
    Mills(slope.0 * used.0)
}

// 12 × m times the Relevant Maximum Charge for a total consumption.
pub fn maximum_of(e: CellNumbers, total: Kwh) -> Mills
    requires { Fits e × (total.0 ≤ total_most) }
    ensures { (result.0 ≡ maximum e total.0) × (result.0 ≤ maximum_most) }
{
    let above = allowed_for(Mills(12 * (e.upper - e.lower)), total);
    Mills(e.lower * e.months * e.m + above.0)
}

// The total of a list of months.
fn total_of(months: &[u32]) -> u64
    requires { Months (length months.now) months.now × (length months.now ≤ months_most) }
    ensures { (result ≡ sum months.now) × (result ≤ total_most) }
{
    months.iter().map(|kwh| u64::from(*kwh)).sum()
}

// Both sides of the comparison for a lent list of months.
pub fn sides_of(e: CellNumbers, x: Tariff, months: &[u32]) -> Sides
    requires { Fits e × (valid_tariff x ≡ true) × Months e.months months.now }
    ensures { (result.charged ≡ charged e x months.now) × (result.capped ≡ capped e months.now) }
{
    let charge = charge::charge_of(e.standing, e.days, e.peak, x, months);
    let maximum = maximum_of(e, Kwh(total_of(months)));
    Sides {
        charged: 12 * e.m * charge.0,
        capped: WHOLE * maximum.0,
    }
}

// The corner after i steps: the step there, or the end where there is none.
fn corner(t: Tiers, end: u64, i: usize) -> u64
    requires { TiersFit end t × (i < 4) }
    ensures { (result ≡ get_or (corners_of end t) i 0) × (result ≤ end) }
{
    if i + 1 < t.n {
        u64::from(t.steps[i])
    } else {
        end
    }
}

// A month's charge at a corner, times the scale, from the charge at the corner before it.
fn charged_up_to(before: u64, m: u64, rate: u64, from: u64, to: u64) -> u64
    requires { (before ≤ month_charged_most) × (m ≤ level_most) × (rate ≤ scaled_rate_most) × (from ≤ to) × (to ≤ month_most) }
    ensures { result ≡ before + 12 * m * (rate * (to - from)) }
{
    let between = charge::charge_for(Mills(rate), Kwh(to - from));
    before + 12 * m * between.0
}

// The corners of a tariff, for a sheet's m and the peak share of Economy 7.
pub fn corners_of(x: Tariff, peak: u32, m: u64) -> Corners
    requires { (valid_tariff x ≡ true) × (peak ≤ whole_share) × (m ≤ level_most) }
    ensures { Cornered peak x m result }
{
    let t = charge::tiers_of(x, peak);
    let a = corner(t, MONTH_MOST, 0);
    let b = corner(t, MONTH_MOST, 1);
    let c = corner(t, MONTH_MOST, 2);
    let d = corner(t, MONTH_MOST, 3);
    let at_a = charged_up_to(0, m, t.rates[0], 0, a);
    let at_b = charged_up_to(at_a, m, t.rates[1], a, b);
    let at_c = charged_up_to(at_b, m, t.rates[2], b, c);
    let at_d = charged_up_to(at_c, m, t.rates[3], c, d);
    Corners {
        at: [a, b, c, d],
        charged: [at_a, at_b, at_c, at_d],
    }
}

// The one of greater share: a month, or a corner with what is charged there. Of equals the month.
fn worse(best: Share, at: u64, charged: u64, slope: u64) -> Share
    requires { (slope ≤ slope_most) × (at ≤ month_most) × (charged ≤ month_charged_most) }
    ensures { (u : ℕ → ℕ) → Raised u slope best → charged ≡ u at → Raised u slope result × (result.month ≡ better u (λ kwh. slope * kwh) at best.month) }
{
    let allowed = allowed_for(Mills(slope), Kwh(at));
    let raised = charged + ROOM - allowed.0;
    if best.raised < raised {
        Share { month: at, raised }
    } else {
        best
    }
}

// The same for a corner that stands after another: where it is the same one again, it has been looked at.
fn worse_after(best: Share, before: u64, at: u64, charged: u64, slope: u64) -> Share
    requires { (slope ≤ slope_most) × (at ≤ month_most) × (charged ≤ month_charged_most) }
    ensures { (u : ℕ → ℕ) (b : ℕ) → Raised u slope best → charged ≡ u at → best.month ≡ better u (λ kwh. slope * kwh) before b → Raised u slope result × (result.month ≡ better u (λ kwh. slope * kwh) at best.month) }
{
    if at == before {
        return best;
    }
    worse(best, at, charged, slope)
}

// The corner of greatest share, or no consumption; the first of equals.
fn worst_corner(k: Corners, slope: u64) -> Share
    requires { Bounded k × (slope ≤ slope_most) }
    ensures { (u : ℕ → ℕ) → u 0 ≡ 0 → Priced k u → Raised u slope result × (result.month ≡ scan u (λ kwh. slope * kwh) 0 k.at) }
{
    let none = Share {
        month: 0,
        raised: ROOM,
    };
    let first = worse(none, k.at[0], k.charged[0], slope);
    let second = worse_after(first, k.at[0], k.at[1], k.charged[1], slope);
    let third = worse_after(second, k.at[1], k.at[2], k.charged[2], slope);
    worse_after(third, k.at[2], k.at[3], k.charged[3], slope)
}

// The charge of t months alike, times the scale, from a month's charge so scaled.
fn charged_by(e: CellNumbers, month: u64) -> u64
    requires { Fits e × (month ≤ month_charged_most + room) }
    ensures { result ≡ 12 * e.m * (whole_share * (e.standing * e.days)) + e.months * month }
{
    12 * e.m * (WHOLE * (u64::from(e.standing) * u64::from(e.days))) + e.months * month
}

// The maximum of t months alike, times the scale, from what the cap allows for a month's kWh.
fn capped_by(e: CellNumbers, month: u64) -> u64
    requires { Fits e × (month ≤ room) }
    ensures { result ≡ whole_share * (e.lower * e.months * e.m) + e.months * month }
{
    WHOLE * (e.lower * e.months * e.m) + e.months * month
}

// The comparison at the worst months.
fn compared(x: Tariff, k: Corners, e: CellNumbers) -> Comparison
    requires { (valid_tariff x ≡ true) × Cornered e.peak x e.m k × Fits e }
    ensures { Compares e x result }
{
    let slope = SCALE * (e.upper - e.lower);
    let worst = worst_corner(k, slope);
    let charged = charged_by(e, worst.raised);
    let capped = capped_by(e, ROOM);
    Comparison {
        month: worst.month,
        charged,
        capped,
    }
}

// Whether a tariff exceeds in a cell for any list of t months.
pub fn exceeds(x: Tariff, k: Corners, e: CellNumbers) -> bool
    requires { (valid_tariff x ≡ true) × Cornered e.peak x e.m k × Fits e }
    ensures { (result ≡ true → Exceeds e x) × (Exceeds e x → result ≡ true) }
{
    let worst = compared(x, k, e);
    worst.capped < worst.charged
}

// t months alike, and no others.
fn equal_months(month: u32, t: usize) -> [u32; 12]
    requires { t ≤ months_most }
    ensures { result ≡ replicate t month ++ drop t (replicate months_most 0) }
{
    let mut months = [0; 12];
    months[..t].fill(month);
    months
}

// The months of answer 11 and their excess, where a tariff exceeds in a cell.
pub fn worst_case(x: Tariff, e: CellNumbers) -> WorstCase
    requires { (valid_tariff x ≡ true) × Fits e × Exceeds e x }
    ensures { Carries e x result }
{
    let worst = compared(x, corners_of(x, e.peak, e.m), e);
    WorstCase {
        months: equal_months(worst.month as u32, e.months as usize),
        excess: worst.charged - worst.capped,
    }
}
