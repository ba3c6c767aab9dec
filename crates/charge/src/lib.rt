// What a tariff charges: tiers month by month, weighted rates on the total, and the standing charge by the day.
// Promise: `charge_of` gives the charge of a lent list of months, times the whole of the shares, since a weighted rate is a fraction
// of a mill. What the layer above may use: `month_charge`, `charge` and `arrangement` of specs/Charge.antt, the charge helper
// `charge_for`, `tiers_of` with specs/Tiers.antt and Most.antt, and the laws in proofs/.
#![tactic(auto)]

ghost use Rattle.std.specs.Prelude.{◌≡◌, true, ℕ, ◌+◌, ◌-◌, ◌*◌, ◌≤◌, ◌<◌, min, length, get_or, take};
ghost use Rattle.laws.specs.Notions.{sum};
ghost use Rattle.shares.specs.Shares.{whole_share, weighted};
ghost use Rattle.tariff.specs.Tariff.{standing_most, rates_within, valid_tariff};
ghost use Rattle.charge.specs.Charge.{month_most, charge};
ghost use Rattle.charge.specs.Most.{months_most, days_most, scaled_rate_most, month_charge_most, charge_most};
ghost use Rattle.charge.specs.Tiers.{tiers_of, by_tiers, TiersFit};

use shares::{WHOLE, WHOLE_SHARE};
use tariff::Tariff;

// A charge is counted in mills and a consumption in kWh.
#[derive(Debug, Clone, Copy, PartialEq, Eq)]
pub struct Mills(pub u64);

#[derive(Debug, Clone, Copy, PartialEq, Eq)]
pub struct Kwh(pub u64);

// What a tariff of any kind charges for a month's kWh: n rates times the whole of the shares, all but the last up to a step.
#[derive(Debug, Clone, Copy, PartialEq, Eq)]
pub struct Tiers {
    pub n: usize,
    pub rates: [u64; 4],
    pub steps: [u32; 4],
}

// The charge helper: a rate for each kWh, and the kWh.
pub fn charge_for(rate: Mills, used: Kwh) -> Mills
    requires { (rate.0 ≤ scaled_rate_most) × (used.0 ≤ month_most) }
    ensures { result.0 ≡ rate.0 * used.0 }
{
    Mills(rate.0 * used.0)
}

// The weighted rate, times the whole of the shares: each rate times its share, added up.
fn weighted_rate(rates: [u32; 4], shares: [u32; 4], n: usize) -> u64
    requires { (n ≤ 4) × (rates_within rates ≡ true) × (sum (take n shares) ≡ whole_share) }
    ensures { (result ≡ weighted (take n rates) (take n shares)) × (result ≤ scaled_rate_most) }
{
    rates[..n]
        .iter()
        .zip(&shares[..n])
        .map(|(rate, share)| u64::from(*rate) * u64::from(*share))
        .sum()
}

// The tiers of a single-register tariff, or the one tier of a weighted rate.
pub fn tiers_of(x: Tariff, peak: u32) -> Tiers
    requires { (valid_tariff x ≡ true) × (peak ≤ whole_share) }
    ensures { (result ≡ tiers_of peak x) × TiersFit month_most result }
{
    match x.kind {
        1 => {
            let rates = x.rates.map(|rate| WHOLE * u64::from(rate));
            let steps = x.steps;
            Tiers {
                n: x.n as usize,
                rates,
                steps,
            }
        }
        2 => Tiers {
            n: 1,
            rates: [
                weighted_rate(x.rates, [peak, WHOLE_SHARE - peak, 0, 0], 2),
                0,
                0,
                0,
            ],
            steps: [0; 4],
        },
        _ => Tiers {
            n: 1,
            rates: [weighted_rate(x.rates, x.steps, x.n as usize), 0, 0, 0],
            steps: [0; 4],
        },
    }
}

// The charge at one rate for what lies above `from`, up to `top`.
fn part(rate: u64, top: u64, from: u64) -> Mills
    requires { (rate ≤ scaled_rate_most) × (top ≤ month_most) }
    ensures { result.0 ≡ rate * (top - from) }
{
    charge_for(Mills(rate), Kwh(top.saturating_sub(from)))
}

// The charge for a month's kWh, times the whole of the shares.
pub fn tier_charge(t: Tiers, used: Kwh) -> Mills
    requires { TiersFit month_most t × (used.0 ≤ month_most) }
    ensures { (result.0 ≡ by_tiers t used.0) × (result.0 ≤ month_charge_most) }
{
    let x = used.0;
    let last = t.n - 1;
    let mut from = 0;
    let mut sum = 0;
    for i in 0..last {
        let step = u64::from(t.steps[i]);
        sum += part(t.rates[i], x.min(step), from).0;
        from = step;
    }
    Mills(sum + part(t.rates[last], x, from).0)
}

// The charge of a tariff for a list of months, times the whole of the shares: with a standing charge for each day of the period,
// and the peak share of Economy 7.
pub fn charge_of(standing: u32, days: u32, peak: u32, x: Tariff, months: &[u32]) -> Mills
    requires { (valid_tariff x ≡ true) × (standing ≤ standing_most) × (days ≤ days_most) × (peak ≤ whole_share) × (length months.now ≤ months_most) × ((i : ℕ) → get_or months.now i 0 ≤ month_most) }
    ensures { (result.0 ≡ charge standing days peak x months.now) × (result.0 ≤ charge_most) }
{
    let tiers = tiers_of(x, peak);
    let sum: u64 = months
        .iter()
        .map(|kwh| tier_charge(tiers, Kwh(u64::from(*kwh))).0)
        .sum();
    Mills(WHOLE * (u64::from(standing) * u64::from(days)) + sum)
}
