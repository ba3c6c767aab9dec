// The checks that the calls on a code share: 6, 9, 7, 12, 16 and 10, and the index of a code's place.
// Promise: each equals its definition in the book's specs/Settling.antt, for every code and every place.
#![tactic(auto)]

ghost use Rattle.std.specs.Prelude.{◌≡◌, true, suc, ◌<◌};
ghost use Rattle.refusal.specs.declared.Check.TheVariants.{Pass};
ghost use Rattle.refusal.specs.Checks.{unless};
ghost use Rattle.book.specs.Checks.{inside};
ghost use Rattle.book.specs.Settling.{code_check, empty_check, open_check, closed_check, mark_check, held_check};

use book::{Place, State};
use refusal::Check;

// 6: code outside 1 to 32.
pub fn code_check(code: u32) -> Check
    ensures { result ≡ code_check code }
{
    if code < 1 {
        return Check::Refuse(6);
    }
    if 32 < code {
        return Check::Refuse(6);
    }
    Check::Pass
}

// 9: the place is empty.
pub fn empty_by(state: State) -> Check
    ensures { result ≡ empty_check state }
{
    match state {
        State::Empty => Check::Refuse(9),
        State::Draft => Check::Pass,
        State::Marked => Check::Pass,
        State::Open => Check::Pass,
    }
}

pub fn empty_check(p: Place) -> Check
    ensures { result ≡ empty_check p.state }
{
    let state = p.state;
    empty_by(state)
}

// 7: the place is open.
pub fn open_by(state: State) -> Check
    ensures { result ≡ open_check state }
{
    match state {
        State::Empty => Check::Pass,
        State::Draft => Check::Pass,
        State::Marked => Check::Pass,
        State::Open => Check::Refuse(7),
    }
}

pub fn open_check(p: Place) -> Check
    ensures { result ≡ open_check p.state }
{
    let state = p.state;
    open_by(state)
}

// 12: not open.
pub fn closed_by(state: State) -> Check
    ensures { result ≡ closed_check state }
{
    match state {
        State::Empty => Check::Refuse(12),
        State::Draft => Check::Refuse(12),
        State::Marked => Check::Refuse(12),
        State::Open => Check::Pass,
    }
}

pub fn closed_check(p: Place) -> Check
    ensures { result ≡ closed_check p.state }
{
    let state = p.state;
    closed_by(state)
}

// 16: the draft is not marked.
pub fn mark_by(state: State) -> Check
    ensures { result ≡ mark_check state }
{
    match state {
        State::Empty => Check::Refuse(16),
        State::Draft => Check::Refuse(16),
        State::Marked => Check::Pass,
        State::Open => Check::Refuse(16),
    }
}

pub fn mark_check(p: Place) -> Check
    ensures { result ≡ mark_check p.state }
{
    let state = p.state;
    mark_by(state)
}

// 10: no sheet.
pub fn sheet_check(loaded: bool) -> Check
    ensures { result ≡ unless loaded 10 Pass }
{
    if loaded {
        Check::Pass
    } else {
        Check::Refuse(10)
    }
}

// 6 and 9, and then what a call on the place of a code checks besides.
pub fn held_by(code: u32, state: State, next: Check) -> Check
    ensures { result ≡ held_check code state next }
{
    let filled = refusal::first(empty_by(state), next);
    refusal::first(code_check(code), filled)
}

pub fn held_check(code: u32, p: Place, next: Check) -> Check
    ensures { result ≡ held_check code p.state next }
{
    let state = p.state;
    held_by(code, state, next)
}

// The index of a code's place. A code outside 1 to 32 has none: no call passes its check, and any index serves.
pub fn index_of(code: u32) -> usize
    ensures { (result < 32) × (inside code ≡ true → suc result ≡ code) }
{
    let inside = code_check(code);
    let Check::Pass = inside else {
        return 0;
    };
    (code - 1) as usize
}
