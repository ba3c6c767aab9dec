// The calls of the book, timed: `speed MEASUREMENT CALLS` makes that many calls from a fixed generator and prints the checksum of
// their answers, all of a desk with all fourteen regions. 0: SET with 32 open tariffs. 1: OPEN of 28 cells and 4 tiers, with the CLOSE that frees it. 2: OPEN that is over
// the cap in the last cell. 3: QUOTE of 12 months. 4: BENCHMARK. 5: TRIAL with 32 open tariffs. 6: as 1, the book handed to each call
// and back. 7: as 0, each SET taken back by UNDO. 8: accounts of 12 months, in rebate runs over 10,000. Any other number: each of the nine in turn.
// Promise: each run is safe and ends, and every book that is handed to a call is one that some list of calls leaves: the invariant of `Desk`.
// tests/speed has the twin of this program on another implementation, and the runner that times both.
#![tactic(auto, using(book::proofs::Reached::does_reachable, book::proofs::Reached::fresh_reachable))]

ghost use Rattle.std.specs.Prelude.{◌≡◌, ◌<◌, ◌≤◌, length};
ghost use Rattle.sheet.specs.Sheet.{field_count};
ghost use Rattle.book.specs.declared.Book.{Book};
ghost use Rattle.book.specs.Book.{Reachable};

use book::{Book, Reply, Settled};
use calendar::Period;
use codes::CodeAct;
use queries::Told;
use rebates::{Account, Run};
use sheet::FIELD_COUNT;
use std::env::Env;
use std::marker::Model;
use std::{array, io};
use tariff::{ALL_FOURTEEN, RECORD_LENGTH};

// The reference sheet, with network costs lower by 1,000,000 in the last region.
const SHEET: [u32; FIELD_COUNT] = [
    0, 30_000_000, 0, 36_000_000, // DF0
    0, 1_000_000, 0, 1_000_000, // CM0
    1_000_000, 8_000_000, 1_000_000, 8_000_000, // PC0
    5_000_000, 9_000_000, 5_000_000, 9_000_000, // OC0
    10_000, 10_000, 20_000, 0, 400_000, 0, // HAP, PAP, PAAC
    1_000, 100, 100, 100, 100, 100, 100, // initial
    1_100, 100, 105, 100, 100, 100, 100, // current
    500_000, // SMNCC
    2_000_000, 12_000_000, 2_000_000, 12_000_000, // NC
    2_000_000, 12_000_000, 2_000_000, 12_000_000, 2_000_000, 12_000_000, 2_000_000, 12_000_000,
    2_000_000, 12_000_000, 2_000_000, 12_000_000, 2_000_000, 12_000_000, 2_000_000, 12_000_000,
    2_000_000, 12_000_000, 2_000_000, 12_000_000, 2_000_000, 12_000_000, 2_000_000, 12_000_000,
    2_000_000, 12_000_000, 2_000_000, 12_000_000, 2_000_000, 12_000_000, 2_000_000, 12_000_000,
    2_000_000, 12_000_000, 2_000_000, 12_000_000, 2_000_000, 12_000_000, 2_000_000, 12_000_000,
    2_000_000, 12_000_000, 2_000_000, 12_000_000, 2_000_000, 12_000_000, 2_000_000, 12_000_000,
    1_000_000, 11_000_000, 1_000_000, 11_000_000, 3_000, 4_000, // m
    580, // the peak share
];

// How many accounts a rebate run is over.
const ACCOUNTS: usize = 10_000;

// The account that the first is drawn from; each of the others is drawn from the one before.
const FIRST_ACCOUNT: Account = Account {
    code: 0,
    region: 0,
    method: 0,
    count: 12,
    months: [1_000; 12],
    rebate: 0,
};

// The generator: a state of 32 bits, from whose upper 16 the numbers are drawn.
#[derive(Drop)]
struct Generator(u32);

impl Generator {
    // Goes on to the next state.
    fn next(&mut self) {
        self.0 = self.0.wrapping_mul(1_664_525).wrapping_add(1_013_904_223);
    }

    // A number below n.
    fn below(&self, n: u32) -> u32
        requires { 1 ≤ n }
        ensures { result < n }
    {
        self.0 / 65_536 % n
    }
}

// The checksum of the answers.
#[derive(Drop)]
struct Checksum(u64);

impl Checksum {
    // One number more.
    fn fold(&mut self, x: u64) {
        self.0 = self.0.rotate_left(7).wrapping_add(x);
    }

    fn fold_reply(&mut self, reply: Reply) {
        match reply {
            Reply::Accepted => self.fold(0),
            Reply::Cells(cells) => self.fold(100 + u64::from(cells)),
            Reply::Refused(n) => self.fold(u64::from(n)),
            Reply::Over(region, method, months, excess) => {
                self.fold(u64::from(region));
                self.fold(u64::from(method));
                self.fold(u64::from(months));
                self.fold(excess);
            }
        }
    }

    fn fold_told(&mut self, told: Told) {
        match told {
            Told::Refused(n) => self.fold(u64::from(n)),
            Told::Benchmark(mills) => self.fold(mills),
            Told::Maximum {
                number,
                denominator,
            } => {
                self.fold(number);
                self.fold(denominator);
            }
            Told::Quote { charge, maximum } => {
                self.fold(charge);
                self.fold(maximum);
            }
            Told::Falling(codes) => self.fold(100 + u64::from(codes)),
        }
    }

    fn fold_run(&mut self, answer: Run) {
        match answer {
            Run::Accepted(total) => self.fold(total),
            Run::Refused { number, place } => {
                self.fold(u64::from(number));
                self.fold(place as u64);
            }
        }
    }
}

// A desk with all fourteen regions, and the book that it works on, which some list of calls leaves.
#[derive(Drop)]
struct Desk {
    book: Book,
}

impl Model for Desk {
    ghost Value = { Book };

    ghost view = { λ d. d.book };

    ghost invariant = { λ d. Reachable d.book };
}

impl Desk {
    // Inlined: as a function of its own it would clear the room for the answer, a whole book, before each call.
    #[inline(always)]
    fn set(&mut self, sheet: &[u32; FIELD_COUNT], period: Period) -> Reply {
        let did = setting::set(self.book, ALL_FOURTEEN, sheet, period);
        self.book = did.book;
        did.reply
    }

    // SET, and the UNDO that takes it back, which is handed the book that SET left.
    fn set_and_undo(&mut self, sheet: &[u32; FIELD_COUNT], period: Period) -> (Reply, Reply) {
        let mut did = setting::set(self.book, ALL_FOURTEEN, sheet, period);
        let reply = did.reply;
        did = undo::undo(did.book, ALL_FOURTEEN);
        self.book = did.book;
        (reply, did.reply)
    }

    fn put(&mut self, code: u32, record: &[u32; RECORD_LENGTH]) {
        let did = putting::put(self.book, ALL_FOURTEEN, code, record);
        self.book = did.book;
    }

    fn direct(&mut self, code: u32) {
        let did = directing::direct(self.book, ALL_FOURTEEN, code);
        self.book = did.book;
    }

    // A call on a code, the book handed to it and back.
    fn act(&mut self, code: u32, act: CodeAct) -> Reply {
        let did = codes::act_on(self.book, ALL_FOURTEEN, code, act);
        self.book = did.book;
        did.reply
    }

    // The same on the one book: the place of the code is settled, and stored again.
    fn settle(&mut self, code: u32, act: CodeAct) -> Settled {
        let at = checks::index_of(code);
        let did = codes::settle(
            ALL_FOURTEEN,
            act,
            code,
            self.book.places[at],
            self.book.loaded,
            self.book.benchmarks,
        );
        self.book.places[at] = did.place;
        if book::ends_undo(did.reply, self.book.kept.any) {
            self.book.kept = book::nothing_kept();
        }
        did
    }

    fn quote(&self, account: &Account) -> Told {
        let at = checks::index_of(account.code);
        quoting::quote_at(
            ALL_FOURTEEN,
            account.code,
            self.book.places[at],
            self.book.loaded,
            self.book.benchmarks,
            account.region,
            account.method,
            &account.months,
        )
    }

    fn benchmark(&self, region: u32, arrangement: u32, method: u32, level: u32) -> Told {
        queries::benchmark(self.book, ALL_FOURTEEN, region, arrangement, method, level)
    }

    fn trial(&self, sheet: &[u32; FIELD_COUNT], period: Period) -> Told {
        trial::trial(self.book, ALL_FOURTEEN, sheet, period)
    }
}

// A record of its first 13 numbers, with nothing added in any region.
fn record_of(numbers: [u32; 13]) -> [u32; RECORD_LENGTH] {
    let mut whole = [0; RECORD_LENGTH];
    whole[..13].copy_from_slice(&numbers);
    whole
}

// A tariff with four tiers, offered everywhere, its rates more by some. With no more and a standing charge of 10,000 it is within the cap in all
// 28 cells, and with 22,000 in all but the last.
fn tiered(k: u32, standing: u32, more: u32) -> [u32; RECORD_LENGTH]
    requires { (k < 32) × (standing ≤ 22000) × (more ≤ 2000) }
{
    record_of([
        1,
        4,
        standing + k,
        ALL_FOURTEEN,
        3,
        18_600 + k + more,
        18_000 + k + more,
        18_500 + k + more,
        17_000 + k + more,
        100 + k,
        500 + k,
        2_000 + k,
        0,
    ])
}

// Tariffs of all three kinds, their rates more by some. With no more they are within the cap everywhere.
fn mixed(k: u32, more: u32) -> [u32; RECORD_LENGTH]
    requires { (k < 32) × (more ≤ 2000) }
{
    match k % 4 {
        0 => tiered(k, 10_000, more),
        1 => record_of([
            1,
            2,
            10_000 + k,
            ALL_FOURTEEN,
            3,
            18_600 + k + more,
            18_000 + k + more,
            0,
            0,
            100 + k,
            0,
            0,
            0,
        ]),
        2 => record_of([
            2,
            2,
            10_000 + k,
            ALL_FOURTEEN,
            3,
            17_000 + k + more,
            12_000 + k + more,
            0,
            0,
            0,
            0,
            0,
            0,
        ]),
        _ => record_of([
            3,
            3,
            10_000 + k,
            ALL_FOURTEEN,
            3,
            17_000 + k + more,
            11_000 + k + more,
            14_000 + k + more,
            0,
            500,
            300,
            200,
            0,
        ]),
    }
}

// A desk with the sheet, for twelve months.
fn with_sheet() -> Desk {
    let mut desk = Desk {
        book: book::fresh_book(),
    };
    desk.set(
        &SHEET,
        Period {
            year: 2023,
            month: 10,
            months: 12,
        },
    );
    desk
}

// With 32 drafts of four tiers.
fn with_drafts(standing: u32) -> Desk
    requires { standing ≤ 22000 }
{
    let mut desk = with_sheet();
    for k in 0..32 {
        desk.put(k + 1, &tiered(k, standing, 0));
    }
    desk
}

// With 32 open tariffs of all kinds.
fn with_open() -> Desk {
    let mut desk = with_sheet();
    for k in 0..32 {
        desk.put(k + 1, &mixed(k, 0));
        desk.act(k + 1, CodeAct::Open);
    }
    desk
}

// With 32 open tariffs of all kinds under directions, half of them above the cap.
fn with_directed() -> Desk {
    let mut desk = with_sheet();
    for k in 0..32 {
        desk.put(k + 1, &mixed(k, k / 4 % 2 * 2_000));
        desk.direct(k + 1);
        desk.act(k + 1, CodeAct::Open);
    }
    desk
}

// The checksum of n calls. Each draws its arguments and folds its answer.
fn repeated<F: FnMut(&mut Generator, &mut Checksum)>(n: u64, mut call: F) -> Checksum
    requires { F.IsAlwaysCallable call }
{
    let mut x = Generator(1);
    let mut sum = Checksum(0);
    for _ in 0..n {
        call(&mut x, &mut sum);
    }
    sum
}

// With what the book holds: the answers of CLOSE and of some BENCHMARKs.
fn fold_book(mut sum: Checksum, mut desk: Desk) -> u64 {
    for k in 0..32 {
        sum.fold_reply(desk.act(k + 1, CodeAct::Close));
        sum.fold_told(desk.benchmark(k % 14, k % 2, k / 2 % 2, k / 4 % 2));
    }
    sum.0
}

// Draws one of the sheet's network costs and its current DFI anew; the period that the sheet is for.
fn redraw(sheet: &mut [u32; FIELD_COUNT], x: &mut Generator) -> Period
    ensures { length sheet.new ≡ field_count }
{
    x.next();
    let at = 37 + x.below(56) as usize;
    x.next();
    let more = x.below(65_536);
    sheet[at] = SHEET[at].wrapping_add(more);
    sheet[29] = 1_100 + more % 16;
    Period {
        year: 2018 + more % 80,
        month: 1 + more % 12,
        months: 12,
    }
}

// Draws an account's tariff and cell anew, and one of its months.
fn redraw_account(account: &mut Account, x: &mut Generator) {
    x.next();
    let month = x.below(12) as usize;
    account.code = 1 + x.below(32);
    account.region = x.below(14);
    x.next();
    account.months[month] = x.below(10_001);
    account.method = x.below(2);
}

fn sets(n: u64) -> u64 {
    let mut desk = with_open();
    let mut sheet = SHEET;
    let sum = repeated(n, |x, sum| {
        let period = redraw(&mut sheet, x);
        sum.fold_reply(desk.set(&sheet, period));
    });
    fold_book(sum, desk)
}

// Each SET is taken back.
fn undos(n: u64) -> u64 {
    let mut desk = with_open();
    let mut sheet = SHEET;
    let sum = repeated(n, |x, sum| {
        let period = redraw(&mut sheet, x);
        let (set, undone) = desk.set_and_undo(&sheet, period);
        sum.fold_reply(set);
        sum.fold_reply(undone);
    });
    fold_book(sum, desk)
}

// On the one book: each call settles the place of its code, which is stored again.
fn opens(n: u64) -> u64 {
    let mut desk = with_drafts(10_000);
    let sum = repeated(n, |x, sum| {
        x.next();
        let code = 1 + x.below(32);
        sum.fold_reply(desk.settle(code, CodeAct::Open).reply);
        sum.fold_reply(desk.settle(code, CodeAct::Close).reply);
    });
    sum.0
}

// OPEN and CLOSE again, the book handed to each call and back.
fn handed(n: u64) -> u64 {
    let mut desk = with_drafts(10_000);
    let sum = repeated(n, |x, sum| {
        x.next();
        let code = 1 + x.below(32);
        sum.fold_reply(desk.act(code, CodeAct::Open));
        sum.fold_reply(desk.act(code, CodeAct::Close));
    });
    sum.0
}

fn overs(n: u64) -> u64 {
    let mut desk = with_drafts(22_000);
    let sum = repeated(n, |x, sum| {
        x.next();
        let did = desk.settle(1 + x.below(32), CodeAct::Open);
        sum.fold_reply(did.reply);
        sum.fold(u64::from(did.months[0]));
        sum.fold(u64::from(did.months[11]));
    });
    sum.0
}

fn quotes(n: u64) -> u64 {
    let desk = with_open();
    let mut account = FIRST_ACCOUNT;
    let sum = repeated(n, |x, sum| {
        redraw_account(&mut account, x);
        sum.fold_told(desk.quote(&account));
    });
    sum.0
}

fn benchmarks(n: u64) -> u64 {
    let desk = with_open();
    let sum = repeated(n, |x, sum| {
        x.next();
        let place = x.below(112);
        sum.fold_told(desk.benchmark(place / 8, place / 4 % 2, place / 2 % 2, place % 2));
    });
    sum.0
}

fn trials(n: u64) -> u64 {
    let desk = with_open();
    let mut sheet = SHEET;
    let sum = repeated(n, |x, sum| {
        let period = redraw(&mut sheet, x);
        sum.fold_told(desk.trial(&sheet, period));
    });
    sum.0
}

// Accounts of the 32 tariffs, in any cell, with twelve months.
fn drawn_accounts() -> [Account; ACCOUNTS] {
    let mut account = FIRST_ACCOUNT;
    let mut x = Generator(1);
    array::from_fn(|_| {
        redraw_account(&mut account, &mut x);
        account
    })
}

// Runs over all accounts; the last may be over more than is left.
fn repays(n: u64) -> u64 {
    let desk = with_directed();
    let mut list = drawn_accounts();
    let mut sum = Checksum(0);
    for _ in 0..n.div_ceil(ACCOUNTS as u64) {
        let ran = accounts::run_many(desk.book, ALL_FOURTEEN, list, ACCOUNTS);
        list = ran.accounts;
        sum.fold_run(ran.answer);
    }
    sum.fold(list[ACCOUNTS - 1].rebate);
    sum.0
}

// The checksum of one measurement.
fn measured(measurement: u64, calls: u64) -> u64 {
    match measurement {
        0 => sets(calls),
        1 => opens(calls),
        2 => overs(calls),
        3 => quotes(calls),
        4 => benchmarks(calls),
        5 => trials(calls),
        6 => handed(calls),
        7 => undos(calls),
        _ => repays(calls),
    }
}

fn print(rt: &impl Print, sum: u64) -> io::Result<()> {
    println!(rt; "{sum}")
}

fn digit(c: u8) -> u64
    ensures { result ≤ 9 }
{
    match c {
        b'0'..=b'9' => u64::from(c - b'0'),
        _ => 0,
    }
}

// The last twelve digits of a number in text.
fn number(text: &[u8]) -> u64 {
    text.iter()
        .fold(0, |n, c| n % 100_000_000_000 * 10 + digit(*c))
}

// The number that stands as an argument, 0 where there is none or it is too long.
fn argument(rt: &impl Env, i: usize) -> u64 {
    let mut text = [0u8; 16];
    match rt.arg(i, &mut text) {
        Ok(length) => number(&text[..length]),
        Err(_) => 0,
    }
}

fn main(rt: HostRuntime) -> io::Result<()> {
    let measurement = argument(&rt, 1);
    let calls = argument(&rt, 2);
    if measurement < 9 {
        return print(&rt, measured(measurement, calls));
    }
    for each in 0..9 {
        print(&rt, measured(each, calls))?;
    }
    Ok(())
}
