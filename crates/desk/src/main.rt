// The desk: reads calls from standard input, one a line, and writes one answer a line to standard output.
// Promise (specs/Desk.antt): `run` is turn after turn from `at_start`, until the desk does not go on (`Runs`). A turn (`Turns`) writes the
// answers out, reads more where no whole line is left (`Fills`), and takes whole lines (`Took` of taking/specs/Taking.antt) on the book and
// the count of lines of the turn before.
// What the turns come to is proved in proofs/Whole.antt: all that was read is one list of lines, answered from line 1 on a fresh book
// whatever pieces it was read in (`whole`, `all_answered`), and a run ends by a failed read or write, or with nothing left (`why_ended`).
// No contract can say which bytes the system's `read` and `write` move, nor what they answer. So it is left to a reader of `read_more`
// and `flush`, which alone call them, that the one reads standard input into the place behind what was kept, that the other writes the
// first `at` bytes of the output, and that each hands the answer on to `after_read` or `after_write` of `input`; those two are proved.
#![tactic(auto)]

ghost use Rattle.std.specs.Prelude.{◌≡◌, ◌≤◌, ◌<◌, length};
ghost use Rattle.lines.specs.Words.{longest_line};
ghost use Rattle.input.specs.Input.{Holds};
ghost use Rattle.desk.specs.Desk.{Reads, Fills, Flushes, Steady, Turns, at_start, Runs};

use input::Input;
use std::io::{Read, Write};
use taking::Desk;

// Reads what is there, behind what was kept.
fn read_more<R: Read, E: Write>(i: Input, input: &mut [u8], stdin: &mut R, stderr: &mut E) -> Input
    requires { i.to < length input.old }
    ensures { Reads i input.old result input.new }
{
    let left = i.to;
    let answer = match stdin.read(&mut input[left..]) {
        Ok(n) => n as isize,
        Err(_) => {
            let _ = stderr.write_all(b"desk: standard input cannot be read\n");
            -1
        }
    };
    input::after_read(i, answer, input)
}

// More of the input, where no whole line is left of it.
fn fill<R: Read, E: Write>(i: Input, input: &mut [u8], stdin: &mut R, stderr: &mut E) -> Input
    requires { Holds i (length input.old) × (length input.old ≡ 65536) }
    ensures fills { Fills i input.old result input.new }
    ensures holds { Holds result (length input.old) }
{
    if !i.on {
        return i;
    }
    if i.more {
        return i;
    }
    if i.ended {
        return input::stop(i);
    }
    read_more(input::keep(i, input), input, stdin, stderr)
}

// Writes the answers out.
fn flush<W: Write, E: Write>(
    i: Input,
    out: &[u8],
    at: usize,
    stdout: &mut W,
    stderr: &mut E,
) -> Input
    requires { at ≤ length out.now }
    ensures { Flushes i result }
{
    let written = stdout.write_all(&out[..at]).is_ok();
    if !written {
        let _ = stderr.write_all(b"desk: standard output cannot be written\n");
    }
    input::after_write(i, written)
}

// A turn: the answers are written out before more is read, and more lines are taken.
fn turn<R: Read, W: Write, E: Write>(
    d: Desk,
    input: &mut [u8],
    numbers: &mut [u32],
    out: &mut [u8],
    stdin: &mut R,
    stdout: &mut W,
    stderr: &mut E,
) -> Desk
    requires { Steady d (length input.old) (length numbers.old) (length out.old) }
    ensures turns { Turns d input.old out.old result input.new out.new }
    ensures steady { Steady result (length input.old) (length numbers.old) (length out.old) }
{
    let flushed = flush(d.input, out, d.at, stdout, stderr);
    let i = fill(flushed, input, stdin, stderr);
    let b = d.book;
    taking::take_lines(b, d.lines, i, input, numbers, out)
}

// Nothing is read yet, and no line taken.
fn start() -> Desk
    ensures { result ≡ at_start }
{
    Desk {
        book: book::fresh_book(),
        lines: 0,
        at: 0,
        input: Input {
            from: 0,
            to: 0,
            cut: false,
            more: false,
            ended: false,
            on: true,
        },
    }
}

// Turn after turn, as long as the desk goes on; what it ends with. A proved loop has to end, and nothing says that the input does: so the
// turns are counted down, from a number that no run uses up.
fn run<R: Read, W: Write, E: Write>(
    input: &mut [u8],
    numbers: &mut [u32],
    out: &mut [u8],
    stdin: &mut R,
    stdout: &mut W,
    stderr: &mut E,
) -> Desk
    requires { (length input.old ≡ 65536) × (length numbers.old ≡ longest_line) × (length out.old ≡ 65536) }
    ensures { Runs input.old out.old result input.new out.new }
{
    let mut d = start();
    let mut turns = u64::MAX;
    while turns > 0 && d.input.on {
        d = turn(d, input, numbers, out, stdin, stdout, stderr);
        turns -= 1;
    }
    d
}

// A place for each number of a line.
fn no_numbers() -> [u32; 16384]
    ensures { longest_line ≡ length result }
{
    [0; 16384]
}

fn main(rt: HostRuntime) {
    let mut input = [0u8; 65536];
    let mut numbers = no_numbers();
    let mut out = [0u8; 65536];
    let mut stdin = rt.stdin();
    let mut stdout = rt.stdout();
    let mut stderr = rt.stderr();
    run(
        &mut input,
        &mut numbers,
        &mut out,
        &mut stdin,
        &mut stdout,
        &mut stderr,
    );
}
