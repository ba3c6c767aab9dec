// SET: the checks of a sheet and its period, and every open tariff judged by it.
// Promise: `set` answers and leaves what `step` says of SET, on refused input too: the sheet is replaced, each open tariff that
// exceeds somewhere becomes a draft, unless it is under a direction, and no draft is marked. Only a desk with all fourteen regions may: 17 to any other. `judge` does all of that but storing it, for TRIAL too, and asks only
// that the places hold nothing or valid tariffs. `set` requires document 01's own sentence on the book, `Reachable`.
#![tactic(auto)]

ghost use Rattle.std.specs.Prelude.{◌≡◌, true, map, ℕ, ◌<◌, length, get_or};
ghost use Rattle.sheet.specs.Sheet.{field_count};
ghost use Rattle.benchmark.specs.Lawful.{Lawful};
ghost use Rattle.book.specs.Calls.{SET, sheet_at, by, call};
ghost use Rattle.book.specs.Book.{beyond, under, stood_as, Reachable};
ghost use Rattle.book.specs.Promises.{Does};
ghost use Rattle.stands.specs.Stands.{HoldsValid};
ghost use Rattle.setting.specs.Judging.{Judges};

use benchmark::Benchmarks;
use book::{Book, Done, Kept, Place, State, Stood};
use calendar::Period;
use refusal::Check;
use sheet::FIELD_COUNT;
use verdict::Found;

// A place under the figures of a new sheet: a mark is cleared, and an open tariff that exceeds somewhere becomes a draft, unless it is
// under a direction.
pub fn judged(p: Place, figures: Benchmarks) -> Place
    requires { Lawful figures × HoldsValid p }
    ensures { result ≡ under figures p }
{
    match p.state {
        State::Empty | State::Draft => p,
        State::Marked => book::in_state(p, State::Draft),
        State::Open => {
            if p.directed {
                return p;
            }
            let found = verdict::first_over(figures, book::tariff_in(p));
            match found {
                Found::Nowhere => p,
                Found::Over(_, _) => book::in_state(p, State::Draft),
            }
        }
    }
}

// All places under the figures of a new sheet.
pub fn all_judged(places: [Place; 32], figures: Benchmarks) -> [Place; 32]
    requires { Lawful figures × ((i : ℕ) → i < 32 → HoldsValid (get_or places i beyond)) }
    ensures { result ≡ map (under figures) places }
{
    let mut next = places;
    for i in 0..32 {
        next[i] = judged(next[i], figures);
    }
    next
}

// The fields of a lent sheet.
fn fields_of(fields: &[u32]) -> [u32; FIELD_COUNT]
    requires { length fields.now ≡ field_count }
    ensures { result ≡ fields.now }
{
    let mut copy = [0; FIELD_COUNT];
    copy.copy_from_slice(fields);
    copy
}

// The answer of SET's checks and, where they pass, the figures of the sheet and the places judged by them.
#[derive(Clone, Copy)]
pub struct Judgement {
    pub check: Check,
    pub figures: Benchmarks,
    pub places: [Place; 32],
}

// What a sheet would do to the places of a book.
pub fn judge(places: [Place; 32], fields: &[u32], period: Period) -> Judgement
    requires { (i : ℕ) → i < 32 → HoldsValid (get_or places i beyond) }
    ensures { Judges places (sheet_at fields.now period) result }
{
    let worked = figures::work_out(fields, period);
    let check = worked.check;
    let figures = worked.benchmarks;
    let Check::Pass = check else {
        return Judgement {
            check,
            figures,
            places,
        };
    };
    Judgement {
        check,
        figures,
        places: all_judged(places, figures),
    }
}

// The state of each place.
pub fn states_of(places: [Place; 32]) -> [Stood; 32]
    ensures { result ≡ map (λ p. stood_as p.state) places }
{
    places.map(|p| Stood { state: p.state })
}

// What is kept for UNDO of a book with this sheet, or none, and these places.
fn kept_of(loaded: bool, fields: [u32; FIELD_COUNT], period: Period, places: [Place; 32]) -> Kept
    ensures { result ≡ record { any = true; loaded = loaded; fields = fields; period = period; states = map (λ p. stood_as p.state) places } }
{
    Kept {
        any: true,
        loaded,
        fields,
        period,
        states: states_of(places),
    }
}

// SET of a desk with all fourteen regions: 1 to 4, 14, 5. Else the sheet is replaced, each open tariff that exceeds somewhere becomes a
// draft, unless it is under a direction, and UNDO may take it back.
fn put_in_force(b: Book, fields: &[u32], period: Period) -> Done
    requires { Reachable b }
    ensures { Does b (call (SET (sheet_at fields.now period))) result }
{
    let before = b.places;
    let judged = judge(before, fields, period);
    let check = judged.check;
    let Check::Pass = check else {
        return book::answered(check, b);
    };
    let old = b.fields;
    let since = b.period;
    let mut next = b;
    next.kept = kept_of(b.loaded, old, since, before);
    next.loaded = true;
    let copy = fields_of(fields);
    next.fields = copy;
    next.period = period;
    let figures = judged.figures;
    next.benchmarks = figures;
    let places = judged.places;
    next.places = places;
    book::answered(check, next)
}

// SET (sheet, period). 17, and then as above.
pub fn set(b: Book, desk: u32, fields: &[u32], period: Period) -> Done
    requires { Reachable b }
    ensures { Does b (by desk (SET (sheet_at fields.now period))) result }
{
    let full = desks::full_check(desk);
    let Check::Pass = full else {
        return book::answered(full, b);
    };
    put_in_force(b, fields, period)
}
