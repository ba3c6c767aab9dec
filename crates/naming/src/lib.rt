// The calls' own words: what each is called, and how many numbers it takes.
// Promise: `call_named` finds the call that a word names, and `right_count` says whether a call takes so many numbers, as
// specs/Naming.antt defines. A call is its case here, its name and arity in `form_of`, and how its name begins in `beginning`; all that reads or
// writes it goes by these.
#![tactic(auto)]

ghost use Rattle.std.specs.Prelude.{◌≡◌, ◌≤◌, length, get_or};
ghost use Rattle.naming.specs.declared.Word.{Word};
ghost use Rattle.naming.specs.Naming.{calls, name_of, arity, right_count, FormOf, named};

// How many numbers an account has.
pub const ACCOUNT_NUMBERS: usize = 16;

// The calls that may change the place of a code.
#[derive(Clone, Copy, Debug, PartialEq, Eq)]
pub enum CodeStep {
    Put,
    Open,
    Close,
    Drop,
    Ask,
    Confirm,
    Direct,
}

// The calls that tell of the book.
#[derive(Clone, Copy, Debug, PartialEq, Eq)]
pub enum Query {
    Benchmark,
    Maximum,
    Quote,
    Trial,
}

// A call's own word: SET, UNDO, a call on a code, one that tells, or REBATE.
#[derive(Clone, Copy, Debug, PartialEq, Eq)]
pub enum Word {
    Set,
    Undo,
    On(CodeStep),
    Tells(Query),
    Rebate,
}

// How many numbers a call takes.
#[derive(Clone, Copy, Debug, PartialEq, Eq)]
pub enum Arity {
    Exactly(usize),
    AtLeast(usize),
    // So many for each account, of which there may be none.
    Each(usize),
}

// How a call is written: its name, and how many numbers it takes.
#[derive(Clone, Copy, Debug, PartialEq, Eq)]
pub struct Form {
    pub name: &'static [u8],
    pub arity: Arity,
}

fn formed(name: &'static [u8], arity: Arity) -> Form
    requires { length name.now ≤ 9 }
    ensures { FormOf name.now arity result }
{
    Form { name, arity }
}

// The form of each call.
pub fn form_of(word: Word) -> Form
    ensures { FormOf (name_of word) (arity word) result }
{
    match word {
        Word::Set => formed(b"set", Arity::AtLeast(3)),
        Word::Undo => formed(b"undo", Arity::Exactly(0)),
        Word::On(CodeStep::Put) => formed(b"put", Arity::AtLeast(1)),
        Word::On(CodeStep::Open) => formed(b"open", Arity::Exactly(1)),
        Word::On(CodeStep::Close) => formed(b"close", Arity::Exactly(1)),
        Word::On(CodeStep::Drop) => formed(b"drop", Arity::Exactly(1)),
        Word::On(CodeStep::Ask) => formed(b"ask", Arity::Exactly(1)),
        Word::On(CodeStep::Confirm) => formed(b"confirm", Arity::Exactly(1)),
        Word::On(CodeStep::Direct) => formed(b"direct", Arity::Exactly(1)),
        Word::Tells(Query::Benchmark) => formed(b"benchmark", Arity::Exactly(4)),
        Word::Tells(Query::Maximum) => formed(b"maximum", Arity::Exactly(4)),
        Word::Tells(Query::Quote) => formed(b"quote", Arity::AtLeast(3)),
        Word::Tells(Query::Trial) => formed(b"trial", Arity::AtLeast(3)),
        Word::Rebate => formed(b"rebate", Arity::Each(ACCOUNT_NUMBERS)),
    }
}

// The call whose name begins with a byte and has so many, of which there is one at most; where there is none, any call.
fn beginning(first: u8, size: usize) -> Word
    ensures { (c : Word) → get_or (name_of c) 0 0 ≡ first → length (name_of c) ≡ size → c ≡ result }
{
    match (first, size) {
        (b'a', _) => Word::On(CodeStep::Ask),
        (b'b', _) => Word::Tells(Query::Benchmark),
        (b'c', 5) => Word::On(CodeStep::Close),
        (b'c', _) => Word::On(CodeStep::Confirm),
        (b'd', 4) => Word::On(CodeStep::Drop),
        (b'd', _) => Word::On(CodeStep::Direct),
        (b'm', _) => Word::Tells(Query::Maximum),
        (b'o', _) => Word::On(CodeStep::Open),
        (b'p', _) => Word::On(CodeStep::Put),
        (b'q', _) => Word::Tells(Query::Quote),
        (b'r', _) => Word::Rebate,
        (b's', _) => Word::Set,
        (b'u', _) => Word::Undo,
        _ => Word::Tells(Query::Trial),
    }
}

// The call that a word names: the one whose name begins as the word does and is as long, where that name is the word.
pub fn call_named(word: &[u8]) -> Option<Word>
    ensures { result ≡ named calls word.now }
{
    let call = beginning(*word.first()?, word.len());
    (word == form_of(call).name).then_some(call)
}

// Whether a call takes n numbers.
pub fn right_count(word: Word, n: usize) -> bool
    ensures { result ≡ right_count (arity word) n }
{
    match form_of(word).arity {
        Arity::Exactly(k) => n == k,
        Arity::AtLeast(k) => k <= n,
        Arity::Each(k) => n % k == 0,
    }
}
