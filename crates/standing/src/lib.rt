// Whether a book is one that some list of calls leaves from a fresh book.
// Promise: `stands` answers exactly that, of any book at all. What such a book is, crate stands proves; here it is tested: each place by its
// state, the figures against those worked out again from the sheet, and what is kept for UNDO by the book that UNDO would bring back and by
// what SET of the sheet in force would make of it.
#![tactic(auto)]

ghost use Rattle.std.specs.Prelude.{◌≡◌, true, ◌↔◌, ℕ, ◌<◌, length, get_or};
ghost use Rattle.refusal.specs.declared.Check.TheVariants.{Pass};
ghost use Rattle.benchmark.specs.Lawful.{Lawful};
ghost use Rattle.benchmark.specs.Benchmark.{benchmarks_of, set_check};
ghost use Rattle.book.specs.declared.State.TheVariants.{Empty};
ghost use Rattle.book.specs.Calls.{Sheet, SET};
ghost use Rattle.book.specs.Checks.{figures_of};
ghost use Rattle.book.specs.Book.{empty, beyond, tariff_in, place_with, fresh, nothing_kept, sheet_if, sheet_in, restored, changed, Reachable};
ghost use Rattle.stands.specs.Stands.{Recorded, MayOpen, MayStand, Fits};
ghost use Rattle.standing.specs.Standing.{rank};

use benchmark::Benchmarks;
use book::{Book, Kept, Place, State, Stood};
use calendar::Period;
use refusal::Check;
use tariff::Tariff;
use verdict::Found;

// Whether two lists have the same numbers.
fn same(a: &[u32], b: &[u32]) -> bool
    ensures { (result ≡ true) ↔ (a.now ≡ b.now) }
{
    if a.len() != b.len() {
        return false;
    }
    let mut i: usize = 0;
    while i < a.len() {
        if a[i] != b[i] {
            return false;
        }
        i += 1;
    }
    true
}

// Whether two periods are the same.
fn same_period(p: Period, q: Period) -> bool
    ensures { (result ≡ true) ↔ (p ≡ q) }
{
    let one = [p.year, p.month, p.months];
    let other = [q.year, q.month, q.months];
    same(&one, &other)
}

// Whether two sheets come to the same.
fn same_figures(f: Benchmarks, g: Benchmarks) -> bool
    ensures { (result ≡ true) ↔ (f ≡ g) }
{
    let charges = f.charges;
    let other_charges = g.charges;
    if !same(&charges, &other_charges) {
        return false;
    }
    let levels = f.levels;
    let other_levels = g.levels;
    if !same(&levels, &other_levels) {
        return false;
    }
    let one = [f.peak, f.months, f.days];
    let other = [g.peak, g.months, g.days];
    same(&one, &other)
}

// A state by its number, to compare two.
fn rank(s: State) -> u32
    ensures { result ≡ rank s }
{
    match s {
        State::Empty => 0,
        State::Draft => 1,
        State::Marked => 2,
        State::Open => 3,
    }
}

// Whether 32 places are in the same states as 32 others.
fn same_states(a: [Stood; 32], b: [Stood; 32]) -> bool
    ensures { (result ≡ true) ↔ (a ≡ b) }
{
    let mut at: usize = 0;
    while at < 32 {
        let one = a[at];
        let other = b[at];
        let s = one.state;
        let t = other.state;
        if rank(s) != rank(t) {
            return false;
        }
        at += 1;
    }
    true
}

// Whether an empty place has no direction and zeros.
fn is_blank(directed: bool, x: Tariff) -> bool
    ensures { (result ≡ true) ↔ (place_with Empty directed x ≡ empty) }
{
    if directed {
        return false;
    }
    let numbers = [x.kind, x.n, x.standing, x.regions, x.methods];
    if !same(&numbers, &[0; 5]) {
        return false;
    }
    let rates = x.rates;
    if !same(&rates, &[0; 4]) {
        return false;
    }
    let steps = x.steps;
    if !same(&steps, &[0; 4]) {
        return false;
    }
    let regional = x.regional;
    same(&regional, &[0; 14])
}

// Whether the tariff in a place is one that PUT accepts and that may be open: a sheet is loaded, and with its figures the tariff, unless it is
// under a direction, exceeds in no offered cell.
fn may_open(p: Place, loaded: bool, figures: Benchmarks) -> bool
    requires { loaded ≡ true → Lawful figures }
    ensures { (s : Sheet) → (loaded ≡ true → figures ≡ figures_of s) → (result ≡ true) ↔ (Recorded (tariff_in p) × MayOpen (sheet_if loaded s) p.directed (tariff_in p)) }
{
    let x = book::tariff_in(p);
    if !loaded {
        return false;
    }
    if !tariff::is_valid(x) {
        return false;
    }
    if p.directed {
        return true;
    }
    let found = verdict::first_over(figures, x);
    match found {
        Found::Nowhere => true,
        Found::Over(_, _) => false,
    }
}

// Whether what a place holds may stand there.
fn place_stands(p: Place, loaded: bool, figures: Benchmarks) -> bool
    requires { loaded ≡ true → Lawful figures }
    ensures { (s : Sheet) → (loaded ≡ true → figures ≡ figures_of s) → (result ≡ true) ↔ MayStand (sheet_if loaded s) p }
{
    let state = p.state;
    let directed = p.directed;
    let x = book::tariff_in(p);
    match state {
        State::Empty => is_blank(directed, x),
        State::Draft => tariff::is_valid(x),
        State::Marked => may_open(p, loaded, figures),
        State::Open => may_open(p, loaded, figures),
    }
}

// Whether that holds of all 32.
fn places_stand(places: [Place; 32], loaded: bool, figures: Benchmarks) -> bool
    requires { loaded ≡ true → Lawful figures }
    ensures { (s : Sheet) → (loaded ≡ true → figures ≡ figures_of s) → (result ≡ true) ↔ ((length places ≡ 32) × ((i : ℕ) → i < 32 → MayStand (sheet_if loaded s) (get_or places i beyond))) }
{
    let mut i: usize = 0;
    while i < 32 {
        let p = places[i];
        if !place_stands(p, loaded, figures) {
            return false;
        }
        i += 1;
    }
    true
}

// Whether a sheet passes SET's checks and has its figures beside it.
fn sheet_stands(fields: &[u32], period: Period, figures: Benchmarks) -> bool
    ensures { (result ≡ true) ↔ ((set_check fields.now period ≡ Pass) × (figures ≡ benchmarks_of fields.now period)) }
{
    let worked = figures::work_out(fields, period);
    let check = worked.check;
    let Check::Pass = check else {
        return false;
    };
    let due = worked.benchmarks;
    same_figures(figures, due)
}

// Whether there is no sheet: all beside the places is as in a fresh book.
fn no_sheet(fields: &[u32], period: Period, figures: Benchmarks) -> bool
    ensures { (result ≡ true) ↔ ((fields.now ≡ fresh.fields) × (period ≡ fresh.period) × (figures ≡ fresh.benchmarks)) }
{
    let none = book::fresh_book();
    let no_fields = none.fields;
    if !same(fields, &no_fields) {
        return false;
    }
    let no_period = none.period;
    if !same_period(period, no_period) {
        return false;
    }
    let no_figures = none.benchmarks;
    same_figures(figures, no_figures)
}

// Whether all but what is kept for UNDO is as calls leave it.
fn fits(b: Book) -> bool
    ensures { (result ≡ true) ↔ Fits b }
{
    let fields = b.fields;
    let period = b.period;
    let figures = b.benchmarks;
    let places = b.places;
    if b.loaded {
        if !sheet_stands(&fields, period, figures) {
            return false;
        }
        return places_stand(places, true, figures);
    }
    if !no_sheet(&fields, period, figures) {
        return false;
    }
    places_stand(places, false, figures)
}

// Whether nothing is kept, with zeros.
fn is_nothing(kept: Kept) -> bool
    ensures { (result ≡ true) ↔ (kept ≡ nothing_kept) }
{
    if kept.any {
        return false;
    }
    if kept.loaded {
        return false;
    }
    let none = book::nothing_kept();
    let fields = kept.fields;
    let no_fields = none.fields;
    if !same(&fields, &no_fields) {
        return false;
    }
    let period = kept.period;
    let no_period = none.period;
    if !same_period(period, no_period) {
        return false;
    }
    let states = kept.states;
    let no_states = none.states;
    same_states(states, no_states)
}

// Whether SET of the sheet in force made this book from the one that is kept. Of the places it changes the states alone.
fn is_step(b: Book) -> bool
    requires { Fits b × (b.kept.any ≡ true) }
    ensures { (result ≡ true) ↔ (Fits (restored b) × (b ≡ changed (restored b) (SET (sheet_in b)))) }
{
    if !b.loaded {
        return false;
    }
    let before = undo::book_before(b);
    if !fits(before) {
        return false;
    }
    let stood = before.places;
    let figures = b.benchmarks;
    let judged = setting::all_judged(stood, figures);
    let places = b.places;
    same_states(setting::states_of(judged), setting::states_of(places))
}

// Whether some list of calls leaves this book from a fresh one.
pub fn stands(b: Book) -> bool
    ensures { (result ≡ true → Reachable b) × (Reachable b → result ≡ true) }
{
    if !fits(b) {
        return false;
    }
    let kept = b.kept;
    if kept.any {
        return is_step(b);
    }
    is_nothing(kept)
}
