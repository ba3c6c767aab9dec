// Lists of four places, as a tariff has for its rates and its steps: which of them are used, within their limits, and rising.
// Promise: each function equals its definition in specs/Fours.antt, for any four numbers and the first k of them.
#![tactic(auto)]

ghost use Rattle.std.specs.Prelude.{◌≡◌, ◌≤◌, take};
ghost use Rattle.laws.specs.Notions.{sum};
ghost use Rattle.fours.specs.Fours.{within, zero_from, rising};

// The places from k on are 0.
pub fn zero_from(a: [u32; 4], k: usize) -> bool
    requires { k ≤ 4 }
    ensures { result ≡ zero_from a k }
{
    a[k..].iter().all(|x| *x == 0)
}

// The first k numbers are from low to high.
pub fn all_within(a: [u32; 4], k: usize, low: u32, high: u32) -> bool
    requires { k ≤ 4 }
    ensures { result ≡ within a k low high }
{
    a[..k].iter().all(|x| (low..=high).contains(x))
}

// The first k numbers rise strictly.
pub fn all_rising(a: [u32; 4], k: usize) -> bool
    requires { k ≤ 4 }
    ensures { result ≡ rising a k }
{
    a[..k].windows(2).all(|w| w[0] < w[1])
}

// The sum of the first k numbers.
#[tactic(auto, using(laws::proofs::Chains::is_sum, std::proofs::lemmas::List::take_all))]
pub fn sum_of(a: [u32; 4], k: usize) -> u64
    requires { k ≤ 4 }
    ensures { result ≡ sum (take k a) }
{
    let mut sum = 0;
    for x in &a[..k] {
        sum += u64::from(*x);
    }
    sum
}
