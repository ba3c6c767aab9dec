// The Benchmark Maximum Charge of 28AD.7 to 28AD.13: the paper's formula, and the code for the part of it with no region in it.
// Promise: `commons_of` is lent fields 0 to 36 and hands back the eight sums of WC, PC, OC, PAENC and H (specs/Common.antt); each benchmark
// is its sum, NC and PANC (proofs/Commons.antt, `benchmark_is_sum`). `ocs_fit` is refusal 14, turned round; where it lets a sheet pass, no part
// is below zero (specs/Signs.antt). What the layer above may use: `benchmark`, `figures`, `benchmarks_of` and `set_check` of
// specs/Benchmark.antt, `Lawful` of specs/Lawful.antt, and `commons`.
#![tactic(auto)]

ghost use Rattle.std.specs.Prelude.{◌≡◌, ◌*◌, ◌≤◌, ◌<◌, pos, nat_abs};
ghost use Rattle.laws.specs.Notions.{tabulate};
ghost use Rattle.sheet.specs.Sheet.{round};
ghost use Rattle.sheet.specs.Ranged.{Indexed};
ghost use Rattle.benchmark.specs.Benchmark.{figure_index, wc, oc, paenc, headroom, ocs_fit};
ghost use Rattle.benchmark.specs.Common.{costs_at, sum_from, commons};
ghost use Rattle.benchmark.specs.Signs.{Costed};

use std::array;

// What a sheet and its period come to: the 112 charges by region, arrangement, method and level; m of each arrangement;
// the peak share of Economy 7; t; and the days.
#[derive(Debug, Clone, Copy, PartialEq, Eq)]
pub struct Benchmarks {
    pub charges: [u32; 112],
    pub levels: [u32; 2],
    pub peak: u32,
    pub months: u32,
    pub days: u32,
}

// A part per million of a charge.
#[tactic(auto, using(crate::proofs::Sizes::share_most))]
pub fn ppm_of(p: u32, n: u64) -> u64
    requires { (p ≤ 1000000) × (n ≤ 10000000000) }
    ensures { (result ≡ round (p * n) 1000000) × (result ≤ n) }
{
    sheet::rounded(u64::from(p) * n, 1_000_000)
}

// WC at place f of the four.
#[tactic(auto, using(sheet::proofs::Bounds::df_most, sheet::proofs::Bounds::cm_most), unfolding(crate::specs::Benchmark::wc))]
fn wc_of(part: &[u32], f: usize) -> u64
    requires { Indexed part.now × (f < 4) }
    ensures { (pos result ≡ wc part.now f) × (result ≤ 200000000) }
{
    sheet::df_term(part, f) + sheet::cm_term(part, f)
}

// OC at place f of the four: SMNCC is the same at both levels, and can be a saving.
#[tactic(auto, using(sheet::proofs::Bounds::oc_most, sheet::proofs::Bounds::smncc_mag), unfolding(crate::specs::Benchmark::oc))]
fn oc_of(part: &[u32], f: usize) -> i64
    requires { Indexed part.now × (f < 4) }
    ensures { result ≡ oc part.now f }
{
    sheet::oc_term(part, f) as i64 + sheet::smncc_of(part)
}

// Whether no OC is below zero.
pub fn ocs_fit(part: &[u32]) -> bool
    requires { Indexed part.now }
    ensures { result ≡ ocs_fit part.now }
{
    (0..4).all(|f| oc_of(part, f) >= 0)
}

// WC + PC + OC at place f of the four.
fn costs_at(part: &[u32], f: usize) -> u64
    requires { Costed part.now × (f < 4) }
    ensures { (pos result ≡ costs_at part.now f) × (result ≤ 500000000) }
{
    wc_of(part, f) + sheet::pc_term(part, f) + oc_of(part, f) as u64
}

// The four of them, by arrangement and level.
fn costs_of(part: &[u32]) -> [u64; 4]
    requires { Costed part.now }
    ensures { result ≡ tabulate 4 (λ f. nat_abs (costs_at part.now f)) }
{
    array::from_fn(|f| costs_at(part, f))
}

// PAENC for a method, where WC + PC + OC is known.
fn paenc_of(part: &[u32], method: usize, costs: u64) -> u64
    requires { Indexed part.now × (method < 2) × (costs ≤ 500000000) }
    ensures { (pos result ≡ paenc part.now method (pos costs)) × (result ≤ 600000000) }
{
    sheet::paac_term(part, method) + ppm_of(part[18 + method], costs)
}

// H for an arrangement, where WC + PC + OC + PAENC is known.
fn headroom_of(part: &[u32], arrangement: usize, costs: u64) -> u64
    requires { Indexed part.now × (arrangement < 2) × (costs ≤ 1100000000) }
    ensures { (pos result ≡ headroom part.now arrangement (pos costs)) × (result ≤ costs) }
{
    ppm_of(part[16 + arrangement], costs)
}

// WC + PC + OC with PAENC and H of an arrangement and a method.
#[tactic(auto, unfolding(crate::specs::Common::sum_from))]
fn common_of(part: &[u32], arrangement: usize, method: usize, costs: u64) -> u64
    requires { Indexed part.now × (arrangement < 2) × (method < 2) × (costs ≤ 500000000) }
    ensures { pos result ≡ sum_from part.now arrangement method (pos costs) }
{
    let known = costs + paenc_of(part, method, costs);
    known + headroom_of(part, arrangement, known)
}

// The eight sums, by arrangement, method and level, from the fields in which no region is: a sheet's first 37.
pub fn commons_of(part: &[u32]) -> [u64; 8]
    requires { Costed part.now }
    ensures { result ≡ commons part.now }
{
    let costs = costs_of(part);
    array::from_fn(|j| {
        let arrangement = j / 4;
        let method = j / 2 % 2;
        common_of(part, arrangement, method, costs[2 * arrangement + j % 2])
    })
}

// The index of a figure among the 112.
pub fn figure_index(region: usize, arrangement: usize, method: usize, level: usize) -> usize
    requires { (region < 14) × (arrangement < 2) × (method < 2) × (level < 2) }
    ensures { (result ≡ figure_index region arrangement method level) × (result < 112) }
{
    8 * region + 4 * arrangement + 2 * method + level
}
