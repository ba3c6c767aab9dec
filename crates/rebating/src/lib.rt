// The line `rebate`: its numbers read as accounts, the run over them, and the text of its answer (docs/PROTOCOL.md).
// Promise: `answer_rebate` puts exactly the text that specs/Rebating.antt defines (`rebate_text`), which goes by the run of crate rebates. It
// requires document 01's own sentence on the book, `Reachable`, no more numbers than a line has, and room for the longest answer.
#![tactic(auto)]

ghost use Rattle.std.specs.Prelude.{◌≡◌, ◌∷◌, map, ◌+◌, ◌*◌, ◌≤◌, length, take, drop};
ghost use Rattle.charge.specs.Most.{months_most};
ghost use Rattle.book.specs.Book.{Reachable};
ghost use Rattle.rebates.specs.Reading.{answer_of};
ghost use Rattle.texts.specs.Writing.{Puts};
ghost use Rattle.naming.specs.Naming.{account_numbers};
ghost use Rattle.answers.specs.Answers.{accounts_most, answer_room};
ghost use Rattle.rebating.specs.Rebating.{account_of, first_accounts, ran_text, rebate_text};

use answers::ACCOUNTS_MOST;
use book::Book;
use naming::ACCOUNT_NUMBERS;
use rebates::{Account, Run};

// The twelve months of an account with these numbers.
fn months_of(numbers: &[u32]) -> [u32; 12]
    requires { account_numbers ≤ length numbers.now }
    ensures { result ≡ take months_most (drop 4 numbers.now) }
{
    let mut months = [0; 12];
    months.copy_from_slice(&numbers[4..16]);
    months
}

// The account with these numbers.
fn account_of(numbers: &[u32]) -> Account
    requires { account_numbers ≤ length numbers.now }
    ensures { result ≡ account_of numbers.now }
{
    Account {
        code: numbers[0],
        region: numbers[1],
        method: numbers[2],
        count: numbers[3],
        months: months_of(numbers),
        rebate: 0,
    }
}

// The first n accounts of a line.
fn first_accounts(numbers: &[u32], n: usize) -> [Account; ACCOUNTS_MOST]
    requires { (n ≤ accounts_most) × (n * account_numbers ≤ length numbers.now) }
    ensures { take n result ≡ first_accounts n numbers.now }
{
    let mut accounts = [Account {
        code: 0,
        region: 0,
        method: 0,
        count: 0,
        months: [0; 12],
        rebate: 0,
    }; ACCOUNTS_MOST];
    for i in 0..n {
        accounts[i] = account_of(&numbers[i * ACCOUNT_NUMBERS..]);
    }
    accounts
}

// The numbers of an answer that is accepted: the total, and the rebates of the first n accounts.
fn ok_numbers(total: u64, accounts: [Account; ACCOUNTS_MOST], n: usize) -> [u64; 1 + ACCOUNTS_MOST]
    requires { n ≤ accounts_most }
    ensures { take (1 + n) result ≡ total ∷ map (λ a. a.rebate) (take n accounts) }
{
    let mut numbers = [0u64; 1 + ACCOUNTS_MOST];
    numbers[0] = total;
    for told in 0..n {
        numbers[1 + told] = accounts[told].rebate;
    }
    numbers
}

// The answer of a run, with its first n accounts as it left them. An array handed over by itself is known to be as long as its type says.
fn put_ran(
    out: &mut [u8],
    at: usize,
    answer: Run,
    accounts: [Account; ACCOUNTS_MOST],
    n: usize,
) -> usize
    requires { (n ≤ accounts_most) × (at + answer_room ≤ length out.old) }
    ensures puts { Puts out.old at (ran_text (answer_of answer) (take n accounts)) result out.new }
    ensures accounts_len { length accounts ≡ accounts_most }
{
    match answer {
        Run::Accepted(total) => {
            let numbers = ok_numbers(total, accounts, n);
            let count = 1 + n;
            texts::put_line(out, at, b"ok", &numbers[..count])
        }
        Run::Refused { number, place } => {
            texts::put_line(out, at, b"refused", &[number as u64, place as u64])
        }
    }
}

// The answer to a desk's line with these numbers.
pub fn answer_rebate(b: Book, desk: u32, numbers: &[u32], out: &mut [u8], at: usize) -> usize
    requires { Reachable b × (length numbers.now ≤ accounts_most * account_numbers) × (at + answer_room ≤ length out.old) }
    ensures { Puts out.old at (rebate_text b desk numbers.now) result out.new }
{
    let n = numbers.len() / ACCOUNT_NUMBERS;
    let ran = accounts::run_first(b, desk, first_accounts(numbers, n), n);
    let answer = ran.answer;
    let after = ran.accounts;
    put_ran(out, at, answer, after, n)
}
