// Takes over the journal on standard input: one byte N, 32 bytes of key, then the journal. Prints one line: "accepted", receipts
// and the counter in cents; or "refused", number and index. Input under 33 or over 65,536 bytes is refused with 25, and so is
// input that cannot be read to its end.
#![tactic(auto)]

ghost use Rattle.std.specs.Prelude.{OnOk, OnErr};
ghost use Rattle.std.specs.Io.KnownBytes.{Appends};
ghost use Rattle.journal.specs.State.{as_taken_over};
ghost use Rattle.printing.specs.Line.{AppendsPart};
ghost use Rattle.takeover.specs.Answer.{line_of, answer_to};
ghost use Rattle.takeover.specs.Input.{IsWhole};

use journal::{RefusedAt, State};
use std::io;
use std::io::{Read, Write};

// The line of what a take-over answers.
fn print_answer<W: Write>(out: &mut W, taken: Result<State, RefusedAt>) -> io::Result<()>
    ensures ok { OnOk result (Appends (W.contents out.old) (W.contents out.new) (line_of (as_taken_over taken))) }
    ensures err { OnErr result (AppendsPart (W.contents out.old) (W.contents out.new) (line_of (as_taken_over taken))) }
{
    match taken {
        Ok(st) => printing::accepted(out, st.issued, st.counter),
        Err(refused) => printing::refused(out, refused.question.number(), refused.index),
    }
}

// Takes over the input.
fn answer<W: Write>(out: &mut W, input: &[u8]) -> io::Result<()>
    ensures ok { OnOk result (Appends (W.contents out.old) (W.contents out.new) (answer_to input.now)) }
    ensures err { OnErr result (AppendsPart (W.contents out.old) (W.contents out.new) (answer_to input.now)) }
{
    if input.len() < 33 {
        return printing::refused(out, 25, 0);
    }
    let mut key = [0u8; 32];
    key.copy_from_slice(&input[1..33]);
    let width = usize::from(input[0]);
    print_answer(out, journal::take_over(&input[33..], key, width))
}

// The bytes of the longest input: the byte N, the key and the journal.
const LONGEST_INPUT: usize = 65536;

// Reads to the end of the input or of the buffer. Returns how many bytes the input has, or none where no end was seen: a read failed,
// or the buffer is full.
fn read_input<R: Read>(input: &mut R, buf: &mut [u8]) -> Option<usize>
    ensures { IsWhole (R.remaining input.old) buf.new result }
{
    let mut n = 0;
    // Not counted by one: each turn goes on by as much as a read gave.
    while n < buf.len() {
        match input.read(&mut buf[n..]) {
            Ok(0) => return Some(n),
            Ok(more) => n += more,
            Err(_) => return None,
        }
    }
    None
}

// The buffer is one byte longer than the input may be, so that the end of the longest input is seen.
fn main(rt: HostRuntime) -> io::Result<()> {
    let mut out = io::writer(&rt);
    let mut input = [0u8; LONGEST_INPUT + 1];
    match read_input(&mut rt.reader(), &mut input) {
        Some(n) => answer(&mut out, &input[..n]),
        None => printing::refused(&mut out, 25, 0),
    }
}
