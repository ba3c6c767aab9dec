// The buffer that the input is read into: what of it is read and not yet taken, and what becomes of that before and after a read.
// Promise (specs/Input.antt): `keep` keeps the start of an unfinished line at the front, unless it is too long (`Keeps`). `after_read` goes
// by the system's answer to `read` (`AfterRead`); at the end of the input what is left is a line (`Closes`). `after_write` goes by whether a
// write failed (`after_write`). Nothing here reads or writes. What the layer above may use: these three, `stop`, and the laws of
// proofs/Between.antt and Kept.antt.
#![tactic(auto)]

ghost use Rattle.std.specs.Prelude.{◌≡◌, ◌-◌, ◌<◌, length};
ghost use Rattle.input.specs.Input.{Holds, at_front, Keeps, Closes, stopped, Moved, AfterRead, after_write};

// The bytes from..to of the buffer are read and not yet taken; `cut`: the start of their line was dropped, since it is too long;
// `more`: a whole line is among them; `ended`: there is no more input; `on`: whether to go on.
#[derive(Clone, Copy, Debug, PartialEq, Eq)]
pub struct Input {
    pub from: usize,
    pub to: usize,
    pub cut: bool,
    pub more: bool,
    pub ended: bool,
    pub on: bool,
}

// The input with other bytes, which begin at the front.
fn at_front(i: Input, to: usize, cut: bool) -> Input
    ensures { result ≡ at_front i to cut }
{
    Input {
        from: 0,
        to,
        cut,
        ..i
    }
}

// Keeps the start of an unfinished line at the front, unless it is too long already.
pub fn keep(i: Input, input: &mut [u8]) -> Input
    requires { Holds i (length input.old) }
    ensures { Keeps i input.old result input.new }
{
    let n = i.to - i.from;
    if i.cut || n > 16384 {
        return at_front(i, 0, true);
    }
    input.copy_within(i.from..i.to, 0);
    at_front(i, n, false)
}

// The end of the input: what is left is a line.
fn close_input(i: Input, input: &mut [u8]) -> Input
    requires { i.to < length input.old }
    ensures { Closes i input.old result input.new }
{
    if i.to == 0 && !i.cut {
        return Input { ended: true, ..i };
    }
    input[i.to] = b'\n';
    Input {
        to: i.to + 1,
        ended: true,
        ..i
    }
}

// The desk does not go on.
pub fn stop(i: Input) -> Input
    ensures { result ≡ stopped i }
{
    Input { on: false, ..i }
}

// What the system answered to `read`: below 0 that it failed, 0 that the input has ended, or how many bytes it put behind what was kept.
pub fn after_read(i: Input, got: isize, input: &mut [u8]) -> Input
    requires { (i.to < length input.old) × Moved (length input.old - i.to) got }
    ensures { AfterRead got i input.old result input.new }
{
    match usize::try_from(got) {
        Err(_) => stop(i),
        Ok(0) => close_input(i, input),
        Ok(n) => Input { to: i.to + n, ..i },
    }
}

// Where the answers could not be written out the desk does not go on.
pub fn after_write(i: Input, written: bool) -> Input
    ensures { result ≡ after_write written i }
{
    if written { i } else { stop(i) }
}
