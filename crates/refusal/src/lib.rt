// What a check answers, and the first of several that refuses.
// Promise: `first` is document 01's "the first that applies is the answer": each check's answer is opened by let .. else, which passes on
// its refusal. What the layer above may use: `Check`, the definitions of specs/Checks.antt and their laws in proofs/Checks.antt.
#![tactic(auto)]

ghost use Rattle.std.specs.Prelude.{◌≡◌};
ghost use Rattle.refusal.specs.Checks.{first};

// A check passes, or refuses with a number of document 01.
#[derive(Clone, Copy)]
pub enum Check {
    Pass,
    Refuse(u32),
}

// A check, and then the next.
pub fn first(check: Check, next: Check) -> Check
    ensures { result ≡ first check next }
{
    let Check::Pass = check else {
        return check;
    };
    next
}
