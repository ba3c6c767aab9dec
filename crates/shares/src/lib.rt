// The shares that the registers of a tariff have of its consumption, in tenths of a percent: the whole that they add up to, and how
// rates are weighted by them. No function is here. What the layers above may use: `WHOLE_SHARE` and `WHOLE`; `whole_share`, `weighted`
// and `registers` of specs/Shares.antt, and the one fact of weighting, `registers_weighted` in proofs/Weighted.antt.
#![tactic(auto)]

// What shares add up to, the base of all of them, and the same as a factor of charges.
pub const WHOLE_SHARE: u32 = 1_000;

pub const WHOLE: u64 = WHOLE_SHARE as u64;
