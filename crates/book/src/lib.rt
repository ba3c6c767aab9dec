// The tariff book: 32 places and a sheet in force, and what every call opens: its places and its answer. The checks are in crate checks.
// Promise: specs/Book.antt says what each call answers and leaves (`step`), and `Does` of specs/Promises.antt is what a call promises of it.
// What the layer above may use: the types, `settled_by` and `answered`; proofs/Steps.antt, which turns what a call's checks came
// to into `Does`; and proofs/Reached.antt, lists of calls. The book goes into a call by value and comes back.
#![tactic(auto)]

ghost use Rattle.std.specs.Prelude.{◌≡◌, ◌&&◌};
ghost use Rattle.book.specs.Settling.{reply_of, settled_by, done_by, accepted_by};
ghost use Rattle.book.specs.Book.{empty, fresh, nothing_kept, place_with, tariff_in, with_state};

use benchmark::Benchmarks;
use calendar::Period;
use refusal::Check;
use sheet::FIELD_COUNT;
use tariff::Tariff;

// A place holds nothing, a draft, a marked draft or an open tariff.
#[derive(Clone, Copy)]
pub enum State {
    Empty,
    Draft,
    Marked,
    Open,
}

// A place: its state, and whether its tariff is under a direction, beside the tariff's numbers and arrays.
#[derive(Clone, Copy)]
pub struct Place {
    pub state: State,
    pub directed: bool,
    pub kind: u32,
    pub n: u32,
    pub standing: u32,
    pub regions: u32,
    pub methods: u32,
    pub rates: [u32; 4],
    pub steps: [u32; 4],
    pub regional: [u32; 14],
}

// The state that a place had.
#[derive(Clone, Copy)]
pub struct Stood {
    pub state: State,
}

// What UNDO takes back, if there is any: the sheet before, with its period, or none, and the state of each place. Else zeros.
#[derive(Clone, Copy)]
pub struct Kept {
    pub any: bool,
    pub loaded: bool,
    pub fields: [u32; FIELD_COUNT],
    pub period: Period,
    pub states: [Stood; 32],
}

// 32 places; a sheet with its period, or none; what they come to; and what is kept for UNDO.
#[derive(Clone, Copy)]
pub struct Book {
    pub loaded: bool,
    pub fields: [u32; FIELD_COUNT],
    pub period: Period,
    pub benchmarks: Benchmarks,
    pub places: [Place; 32],
    pub kept: Kept,
}

// An answer: accepted; accepted, with the number of cells; refused, with its number; or refused by 11, with region, method, the
// number of months that stand beside it, and the excess.
#[derive(Clone, Copy)]
pub enum Reply {
    Accepted,
    Cells(u32),
    Refused(u32),
    Over(u32, u32, u32, u64),
}

// What a call on one place comes to: its answer, the months of answer 11, and the place after the call.
#[derive(Clone, Copy)]
pub struct Settled {
    pub reply: Reply,
    pub months: [u32; 12],
    pub place: Place,
}

// A call's answer, the months of answer 11, and the book after the call.
#[derive(Clone, Copy)]
pub struct Done {
    pub reply: Reply,
    pub months: [u32; 12],
    pub book: Book,
}

// A tariff in a place, under a direction or not.
pub fn place_with(state: State, directed: bool, x: Tariff) -> Place
    ensures { result ≡ place_with state directed x }
{
    let rates = x.rates;
    let steps = x.steps;
    let regional = x.regional;
    Place {
        state,
        directed,
        kind: x.kind,
        n: x.n,
        standing: x.standing,
        regions: x.regions,
        methods: x.methods,
        rates,
        steps,
        regional,
    }
}

// The tariff of a place.
pub fn tariff_in(p: Place) -> Tariff
    ensures { result ≡ tariff_in p }
{
    let rates = p.rates;
    let steps = p.steps;
    let regional = p.regional;
    Tariff {
        kind: p.kind,
        n: p.n,
        standing: p.standing,
        regions: p.regions,
        methods: p.methods,
        rates,
        steps,
        regional,
    }
}

// A place in another state.
pub fn in_state(p: Place, state: State) -> Place
    ensures { result ≡ with_state state p }
{
    place_with(state, p.directed, tariff_in(p))
}

// A place that holds nothing.
pub fn empty_place() -> Place
    ensures { result ≡ empty }
{
    Place {
        state: State::Empty,
        directed: false,
        kind: 0,
        n: 0,
        standing: 0,
        regions: 0,
        methods: 0,
        rates: [0; 4],
        steps: [0; 4],
        regional: [0; 14],
    }
}

// Nothing to take back.
pub fn nothing_kept() -> Kept
    ensures { result ≡ nothing_kept }
{
    Kept {
        any: false,
        loaded: false,
        fields: [0; FIELD_COUNT],
        period: Period {
            year: 0,
            month: 0,
            months: 0,
        },
        states: [Stood {
            state: State::Empty,
        }; 32],
    }
}

// A fresh book has no sheet and all places empty.
pub fn fresh_book() -> Book
    ensures { result ≡ fresh }
{
    Book {
        loaded: false,
        fields: [0; FIELD_COUNT],
        period: Period {
            year: 0,
            month: 0,
            months: 0,
        },
        benchmarks: Benchmarks {
            charges: [0; 112],
            levels: [0; 2],
            peak: 0,
            months: 0,
            days: 0,
        },
        places: [empty_place(); 32],
        kept: nothing_kept(),
    }
}

// The answer of a call's checks: accepted, or the refusal's number.
fn reply_of(check: Check) -> Reply
    ensures { result ≡ reply_of check }
{
    match check {
        Check::Pass => Reply::Accepted,
        Check::Refuse(n) => Reply::Refused(n),
    }
}

// That answer with the place of a code: as it was where a check refused, and else as the call leaves it.
pub fn settled_by(check: Check, before: Place, after: Place) -> Settled
    ensures { result ≡ settled_by check before after }
{
    let reply = reply_of(check);
    let Check::Pass = check else {
        return Settled {
            reply,
            months: [0; 12],
            place: before,
        };
    };
    Settled {
        reply,
        months: [0; 12],
        place: after,
    }
}

// Whether a call with this answer was accepted: on a code, it leaves nothing to take back.
pub fn accepted_by(reply: Reply) -> bool
    ensures { result ≡ accepted_by reply }
{
    match reply {
        Reply::Accepted => true,
        Reply::Cells(_) => true,
        Reply::Refused(_) => false,
        Reply::Over(_, _, _, _) => false,
    }
}

// Whether it takes away what there is to take back.
pub fn ends_undo(reply: Reply, any: bool) -> bool
    ensures { result ≡ (any && accepted_by reply) }
{
    if any {
        return accepted_by(reply);
    }
    false
}

// That answer with a book.
pub fn answered(check: Check, b: Book) -> Done
    ensures { result ≡ done_by check b }
{
    Done {
        reply: reply_of(check),
        months: [0; 12],
        book: b,
    }
}
