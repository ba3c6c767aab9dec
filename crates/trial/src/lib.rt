// TRIAL: which open tariffs a sheet would send back to draft, told and not done.
// Promise: `trial` answers what specs/Trial.antt says by SET itself, on refused input too: the refusal that SET would give, or the set of
// the codes that are open in the book and drafts in the one that SET would leave. The checks and the judging are SET's own,
// `setting::judge`. Only a desk with all fourteen regions may try one: 17 to any other. It requires document 01's own sentence on the book, `Reachable`.
#![tactic(auto)]

ghost use Rattle.std.specs.Prelude.{◌≡◌, cond};
ghost use Rattle.tariff.specs.Tariff.{all_fourteen};
ghost use Rattle.book.specs.Calls.{sheet_at};
ghost use Rattle.book.specs.Book.{Reachable};
ghost use Rattle.queries.specs.Queries.{telling_of};
ghost use Rattle.trial.specs.Trial.{codes_where, trial_of};
ghost use Rattle.trial.specs.Places.{fell, fell_from};

use book::{Book, Place, State};
use calendar::Period;
use queries::Told;
use refusal::Check;

// Whether a tariff was open and is a draft.
fn fell(before: Place, after: Place) -> bool
    ensures { result ≡ fell before after }
{
    matches!(before.state, State::Open) && matches!(after.state, State::Draft | State::Marked)
}

// The bit of a code whose tariff was open and is a draft; 0 for every other.
pub fn bit_if_fell(before: Place, after: Place, bit: u64) -> u64
    ensures { result ≡ cond (fell before after) bit 0 }
{
    if fell(before, after) { bit } else { 0 }
}

// The codes whose tariffs were open and are drafts: bit code - 1 of each.
fn fallen(before: [Place; 32], after: [Place; 32]) -> u32
    ensures { result ≡ codes_where (fell_from before after) }
{
    let mut codes: u64 = 0;
    let mut bit: u64 = 1;
    for i in 0..32 {
        codes += bit_if_fell(before[i], after[i], bit);
        bit *= 2;
    }
    codes as u32
}

// TRIAL of a desk with all fourteen regions. 1 to 4, 14, 5. Else the codes that SET would make drafts.
fn try_out(b: Book, fields: &[u32], period: Period) -> Told
    requires { Reachable b }
    ensures { telling_of result ≡ trial_of b all_fourteen (sheet_at fields.now period) }
{
    let before = b.places;
    let judged = setting::judge(before, fields, period);
    let check = judged.check;
    let Check::Pass = check else {
        return queries::refused(check);
    };
    let after = judged.places;
    Told::Falling(fallen(before, after))
}

// TRIAL (sheet, period). 17, and then as above.
pub fn trial(b: Book, desk: u32, fields: &[u32], period: Period) -> Told
    requires { Reachable b }
    ensures { telling_of result ≡ trial_of b desk (sheet_at fields.now period) }
{
    let full = desks::full_check(desk);
    let Check::Pass = full else {
        return queries::refused(full);
    };
    try_out(b, fields, period)
}
