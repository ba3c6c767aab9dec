// The 112 figures of a sheet, each its sum of the common part with NC and PANC, and SET's refusals 1 to 5 and 14.
// Promise: `work_out` answers SET's first refusal, or the figures with which tariffs are judged. What the layer above may use: its contract,
// and `worked_if` of specs/Working.antt.
#![tactic(auto)]

ghost use Rattle.std.specs.Prelude.{◌≡◌, ◌%◌, ◌≤◌, ◌<◌, pos, ◌+ℤ◌, eqb, length, get_or};
ghost use Rattle.refusal.specs.declared.Check.TheVariants.{Pass};
ghost use Rattle.refusal.specs.Checks.{unless};
ghost use Rattle.calendar.specs.Calendar.{period_in_range};
ghost use Rattle.sheet.specs.Sheet.{field_count, fields_in_range, terms_fit};
ghost use Rattle.sheet.specs.CommonFields.{common_fields};
ghost use Rattle.sheet.specs.Ranged.{Ranged, Indexed};
ghost use Rattle.benchmark.specs.Benchmark.{nc, panc, figure, figures, ocs_fit, ordered, benchmarks_of, set_check, no_benchmarks};
ghost use Rattle.benchmark.specs.Common.{commons};
ghost use Rattle.benchmark.specs.Signs.{Costed};
ghost use Rattle.figures.specs.Working.{worked_if};

use benchmark::Benchmarks;
use calendar::Period;
use refusal::Check;
use sheet::FIELD_COUNT;

// SET's answer on a sheet and a period, and what they come to where it passes.
#[derive(Clone, Copy)]
pub struct Worked {
    pub check: Check,
    pub benchmarks: Benchmarks,
}

// The Benchmark Maximum Charge of a region, at place f of the four and for a method, where its sum is known.
fn charge_at(s: &[u32], sum: u64, region: usize, f: usize, method: usize) -> u64
    requires { Ranged field_count s.now × (sum ≤ 2200000000) × (region < 14) × (f < 4) × (method < 2) }
    ensures { (pos result ≡ pos sum +ℤ nc s.now region f +ℤ panc s.now method (nc s.now region f)) × (result ≤ 2400000000) }
{
    let network = u64::from(s[37 + 4 * region + f]);
    sum + network + benchmark::ppm_of(s[18 + method], network)
}

// The figure at an index of the 112, where its sum is known.
fn figure_at(s: &[u32], sum: u64, k: usize) -> u32
    requires { Ranged field_count s.now × Costed (common_fields s.now) × (k < 112) × (sum ≡ get_or (commons (common_fields s.now)) (k % 8) 0) }
    ensures { result ≡ figure s.now k }
{
    charge_at(s, sum, k / 8, 2 * (k / 4 % 2) + k % 2, k / 2 % 2) as u32
}

// The 112 figures: the eight sums, lent no field of a region, then NC and PANC of each region.
#[tactic(auto, using(laws::proofs::Lists::is_table), unfolding(benchmark::specs::Benchmark::figures))]
fn figures_of(s: &[u32]) -> [u32; 112]
    requires { Ranged field_count s.now × Costed (common_fields s.now) }
    ensures { result ≡ figures s.now }
{
    let sums = benchmark::commons_of(&s[..37]);
    let mut charges = [0u32; 112];
    for k in 0..112 {
        charges[k] = figure_at(s, sums[k % 8], k);
    }
    charges
}

// Whether no benchmark at m is below its benchmark at nil.
fn all_ordered(charges: [u32; 112]) -> bool
    ensures { result ≡ ordered charges }
{
    (0..56).all(|j: usize| charges[2 * j] <= charges[2 * j + 1])
}

// Refusal n, unless the test holds.
fn refuse_unless(holds: bool, n: u32) -> Check
    ensures { result ≡ unless holds n Pass }
{
    if holds { Check::Pass } else { Check::Refuse(n) }
}

// 1: not 96 numbers.
fn count_check(s: &[u32]) -> Check
    ensures { result ≡ unless (eqb (length s.now) field_count) 1 Pass }
{
    refuse_unless(s.len() == FIELD_COUNT, 1)
}

// 2: a field outside its range.
fn fields_check(s: &[u32]) -> Check
    requires { length s.now ≡ field_count }
    ensures { result ≡ unless (fields_in_range s.now) 2 Pass }
{
    refuse_unless(sheet::fields_in_range(s), 2)
}

// 3: a period outside its range.
fn period_check(p: Period) -> Check
    ensures { result ≡ unless (period_in_range p) 3 Pass }
{
    refuse_unless(calendar::in_range(p), 3)
}

// 4: an indexed term above 100,000,000.
fn terms_check(s: &[u32]) -> Check
    requires { Ranged field_count s.now }
    ensures { result ≡ unless (terms_fit s.now) 4 Pass }
{
    refuse_unless(sheet::terms_fit(&s[..37]), 4)
}

// 14: some OC below zero.
fn ocs_check(s: &[u32]) -> Check
    requires { Ranged field_count s.now × Indexed (common_fields s.now) }
    ensures { result ≡ unless (ocs_fit s.now) 14 Pass }
{
    refuse_unless(benchmark::ocs_fit(&s[..37]), 14)
}

// 5: some benchmark at m below its benchmark at nil.
fn order_check(charges: [u32; 112]) -> Check
    ensures { result ≡ unless (ordered charges) 5 Pass }
{
    refuse_unless(all_ordered(charges), 5)
}

// The answer of a check that refuses, with nothing worked out.
fn refused(check: Check) -> Worked
    ensures { (result.check ≡ check) × (result.benchmarks ≡ no_benchmarks) }
{
    Worked {
        check,
        benchmarks: Benchmarks {
            charges: [0; 112],
            levels: [0; 2],
            peak: 0,
            months: 0,
            days: 0,
        },
    }
}

// SET's checks on a lent sheet and a period, and what they come to where all pass. An answer is worked out as soon as the answers
// before it allow, and opened in the order of documents 01 and 02.
pub fn work_out(s: &[u32], p: Period) -> Worked
    ensures { (result.check ≡ set_check s.now p) × (result.benchmarks ≡ worked_if (set_check s.now p) (benchmarks_of s.now p)) }
{
    let counted = count_check(s);
    let period = period_check(p);
    let Check::Pass = counted else {
        return refused(counted);
    };
    let fields = fields_check(s);
    let Check::Pass = fields else {
        return refused(fields);
    };
    let terms = terms_check(s);
    let Check::Pass = period else {
        return refused(period);
    };
    let Check::Pass = terms else {
        return refused(terms);
    };
    let ocs = ocs_check(s);
    let Check::Pass = ocs else {
        return refused(ocs);
    };
    let charges = figures_of(s);
    let order = order_check(charges);
    let Check::Pass = order else {
        return refused(order);
    };
    let single = s[93];
    let economy = s[94];
    let peak = s[95];
    Worked {
        check: Check::Pass,
        benchmarks: Benchmarks {
            charges,
            levels: [single, economy],
            peak,
            months: p.months,
            days: calendar::days(p),
        },
    }
}
