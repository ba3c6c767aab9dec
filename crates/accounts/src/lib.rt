// The rebate run of M-108 over a lent list of accounts.
// Promise: `run` answers what `run_of` of crate rebates says and leaves the list as `after_run` says, on refused input too. It requires document 01's
// own sentence on the book, `Reachable`. The functions are thin: what is worked out for an account is worked out by crate rebates, by value. The
// book is not copied for each account. `run_first` and `run_many` take an array by value, of which a part is the list.
#![tactic(auto)]

ghost use Rattle.std.specs.Prelude.{◌≡◌, map, ◌++◌, ◌<◌, ◌≤◌, length, get_or, set, take, drop};
ghost use Rattle.book.specs.Book.{Reachable};
ghost use Rattle.rebates.specs.Rebates.{with_rebate, repaid, first_place, total_of, run_of, after_run, places_most};
ghost use Rattle.rebates.specs.Reading.{fails_by, place_or, no_account, answer_of};

use book::Book;
use rebates::{Account, Run};

// The place of the first account that is refused with this number, or else the length of the list.
fn first_failing(b: Book, desk: u32, number: u32, accounts: &[Account]) -> usize
    requires { Reachable b }
    ensures { result ≡ place_or (length accounts.now) (first_place (fails_by number b desk) accounts.now) }
{
    let mut i: usize = 0;
    while i < accounts.len() {
        let a = accounts[i];
        let at = checks::index_of(a.code);
        let p = b.places[at];
        if rebates::fails(number, desk, p, b.loaded, b.benchmarks, a, i) {
            return i;
        }
        i += 1;
    }
    i
}

// Stores the rebate of the account at a place.
fn store_rebate(accounts: &mut [Account], i: usize, rebate: u64)
    requires { i < length accounts.old }
    ensures { accounts.new ≡ set accounts.old i (with_rebate rebate (get_or accounts.old i no_account)) }
{
    accounts[i].rebate = rebate;
}

// Stores into each account the rebate due to it, and gives their sum.
fn write_rebates(b: Book, desk: u32, accounts: &mut [Account]) -> u64
    requires { Reachable b × (length accounts.old ≤ places_most) }
    ensures { (result ≡ total_of b desk accounts.old) × (accounts.new ≡ map (repaid b desk) accounts.old) }
{
    let mut total: u64 = 0;
    let mut i: usize = 0;
    while i < accounts.len() {
        let a = accounts[i];
        let at = checks::index_of(a.code);
        let p = b.places[at];
        let rebate = rebates::due(desk, p, b.loaded, b.benchmarks, a);
        store_rebate(accounts, i, rebate);
        total += rebate;
        i += 1;
    }
    total
}

// The run: 19 over the whole list, then 18, and only then the rebates.
pub fn run(b: Book, desk: u32, accounts: &mut [Account]) -> Run
    requires { Reachable b }
    ensures { (answer_of result ≡ run_of b desk accounts.old) × (accounts.new ≡ after_run b desk accounts.old) }
{
    let quoted = first_failing(b, desk, 19, accounts);
    if quoted < accounts.len() {
        return rebates::refused_at(19, quoted);
    }
    let directed = first_failing(b, desk, 18, accounts);
    if directed < accounts.len() {
        return rebates::refused_at(18, directed);
    }
    rebates::accepted(write_rebates(b, desk, accounts))
}

// The answer of a run over the first accounts of an array, beside the array as the run leaves it.
#[derive(Clone, Copy)]
pub struct Ran {
    pub answer: Run,
    pub accounts: [Account; 1024],
}

fn ran_of(answer: Run, accounts: [Account; 1024]) -> Ran
    ensures { (result.answer ≡ answer) × (result.accounts ≡ accounts) }
{
    Ran { answer, accounts }
}

// The run over the first n accounts of an array.
pub fn run_first(b: Book, desk: u32, accounts: [Account; 1024], n: usize) -> Ran
    requires { Reachable b × (n ≤ 1024) }
    ensures { (answer_of result.answer ≡ run_of b desk (take n accounts)) × (result.accounts ≡ after_run b desk (take n accounts) ++ drop n accounts) }
{
    let mut list = accounts;
    let answer = run(b, desk, &mut list[..n]);
    ran_of(answer, list)
}

// The same of a large array.
#[derive(Clone, Copy)]
pub struct RanMany {
    pub answer: Run,
    pub accounts: [Account; 10000],
}

fn ran_many_of(answer: Run, accounts: [Account; 10000]) -> RanMany
    ensures { (result.answer ≡ answer) × (result.accounts ≡ accounts) }
{
    RanMany { answer, accounts }
}

pub fn run_many(b: Book, desk: u32, accounts: [Account; 10000], n: usize) -> RanMany
    requires { Reachable b × (n ≤ 10000) }
    ensures { (answer_of result.answer ≡ run_of b desk (take n accounts)) × (result.accounts ≡ after_run b desk (take n accounts) ++ drop n accounts) }
{
    let mut list = accounts;
    let answer = run(b, desk, &mut list[..n]);
    ran_many_of(answer, list)
}
