// Whole lines are taken from the input as long as there is room for their answers.
// Promise (specs/Taking.antt): `take_lines` takes whole lines one after the other, each answered as the protocol says (`Takes`, over `line_at`
// of protocol/specs/Lines.antt), on the book and the count of lines of the line before; a whole line is left only where there was no room
// for its answer (`Took`). What the layer above may use: `Desk`, `take_lines`, and the laws of proofs/Taking.antt and Progress.antt.
#![tactic(auto)]

ghost use Rattle.std.specs.Prelude.{◌≡◌, ◌≤◌, length};
ghost use Rattle.book.specs.Book.{Reachable};
ghost use Rattle.lines.specs.Words.{longest_line};
ghost use Rattle.input.specs.Input.{Holds};
ghost use Rattle.taking.specs.Taking.{has_room, Took};

use answers::ANSWER_ROOM;
use book::Book;
use input::Input;
use protocol::Said;

// What is kept from turn to turn: the book, how many lines were taken, how many bytes wait in the output, and the input.
#[derive(Clone, Copy)]
pub struct Desk {
    pub book: Book,
    pub lines: u64,
    pub at: usize,
    pub input: Input,
}

// Whether there is room for another answer behind `at` in the output, and a number for another line.
fn room(at: usize, size: usize, l: u64) -> bool
    ensures { result ≡ has_room at size l }
{
    if size < ANSWER_ROOM {
        return false;
    }
    if size - ANSWER_ROOM < at {
        return false;
    }
    l < u64::MAX
}

// Takes whole lines, as long as there is room for their answers. A call on a code changes one place of the book that stands here, so that
// the book is copied for SET and UNDO alone.
pub fn take_lines(
    b: Book,
    lines: u64,
    i: Input,
    input: &[u8],
    numbers: &mut [u32],
    out: &mut [u8],
) -> Desk
    requires { Reachable b × Holds i (length input.now) × (length numbers.old ≡ longest_line) }
    ensures { Took b lines i input.now out.old result out.new }
{
    let to = i.to;
    let mut book = b;
    let mut from = i.from;
    let mut cut = i.cut;
    let mut l = lines;
    let mut at: usize = 0;
    let mut end = lines::line_end(input, from, to);
    while end < to && room(at, out.len(), l) {
        l += 1;
        let said = protocol::say_line(input, from, end, cut, l, numbers, out, at);
        match said {
            Said::Answer(next) => {
                at = next;
            }
            Said::Set(n, desk) => {
                let after = doing::do_set(book, desk, &numbers[..n], out, at);
                at = after.at;
                let next = after.book;
                book = next;
            }
            Said::Undo(desk) => {
                let after = doing::do_undo(book, desk, out, at);
                at = after.at;
                let next = after.book;
                book = next;
            }
            Said::On(step, n, desk) => {
                let index = checks::index_of(numbers[0]);
                let p = book.places[index];
                let figures = book.benchmarks;
                let after = doing::do_on(
                    desk,
                    step,
                    &numbers[..n],
                    p,
                    book.loaded,
                    figures,
                    out,
                    at,
                );
                at = after.at;
                let place = after.place;
                book.places[index] = place;
                let reply = after.reply;
                if book::ends_undo(reply, book.kept.any) {
                    book.kept = book::nothing_kept();
                }
            }
            Said::Tells(question, n, desk) => {
                at = doing::do_tell(book, desk, question, &numbers[..n], out, at);
            }
        }
        cut = false;
        from = end + 1;
        end = lines::line_end(input, from, to);
    }
    Desk {
        book,
        lines: l,
        at,
        input: Input {
            from,
            to,
            cut,
            more: end < to,
            ended: i.ended,
            on: i.on,
        },
    }
}
