// Runs the library on the vectors of data/ and prints what it makes of each row.
#![tactic(auto)]

mod journals;
mod lines;
mod opens;
mod primitive;
mod receipts;
mod takeovers;
mod text;

ghost use Rattle.std.specs.Prelude.{◌≤◌, length};

use std::io::{Eprint, Read, Write};
use std::rt::Files;
use std::{fs, io};

// Answers all lines of a file's text but the first, which names the columns.
fn answer_all<W: Write, F: FnMut(&mut W, &[u8]) -> io::Result<()>>(
    out: &mut W,
    text: &[u8],
    mut row: F,
) -> io::Result<()>
    requires { F.IsAlwaysCallable row }
{
    for line in text.split(|b| *b == b'\n').skip(1) {
        if !line.is_empty() {
            row(out, line)?;
        }
    }
    Ok(())
}

// The bytes of a file that are read, at most.
const LONGEST_TEXT: usize = 65536;

// Reads to the end of the file or of the buffer, or up to a read that fails, and returns how many bytes were read.
fn read_text<R: Read>(file: &mut R, buf: &mut [u8]) -> usize
    ensures { result ≤ length buf.new }
{
    let mut n = 0;
    // Not counted by one: each turn goes on by as much as a read gave.
    while n < buf.len() {
        match file.read(&mut buf[n..]) {
            Ok(0) | Err(_) => return n,
            Ok(more) => n += more,
        }
    }
    n
}

// Reads a file of data/, prints its name and answers its lines by `row`. A file that cannot be opened is named on standard error.
// It is not inlined: in its callers its buffer would stand on the stack once for each `row`.
#[inline(never)]
fn run<R: Files + Eprint, W: Write, F: FnMut(&mut W, &[u8]) -> io::Result<()>>(
    rt: &R,
    out: &mut W,
    path: &str,
    row: F,
) -> io::Result<()>
    requires { F.IsAlwaysCallable row }
{
    let mut file = match fs::open(rt, path) {
        Ok(file) => file,
        Err(e) => return eprintln!(rt; "{path}: {e}"),
    };
    let mut text = [0u8; LONGEST_TEXT];
    let n = read_text(&mut file, &mut text);
    writeln!(out, "# {path}")?;
    answer_all(out, &text[..n], row)
}

fn run_primitives<R: Files + Eprint, W: Write>(rt: &R, out: &mut W) -> io::Result<()> {
    run(rt, out, "sha256.tsv", primitive::sha256_row)?;
    run(rt, out, "aes256.tsv", primitive::aes256_row)?;
    run(rt, out, "base64.tsv", primitive::base_row)?;
    run(rt, out, "base32.tsv", primitive::base_row)?;
    run(rt, out, "counter-bytes.tsv", primitive::counter_row)
}

fn run_receipts<R: Files + Eprint, W: Write>(rt: &R, out: &mut W) -> io::Result<()> {
    run(rt, out, "chain.tsv", receipts::chain_row)?;
    run(rt, out, "counter-iv.tsv", receipts::iv_row)?;
    run(rt, out, "counter.tsv", receipts::counter_row)?;
    run(rt, out, "code.tsv", receipts::code_row)?;
    run(rt, out, "ocr-line.tsv", receipts::code_row)?;
    run(rt, out, "compact.tsv", receipts::compact_row)?;
    run(rt, out, "amount.tsv", receipts::amount_row)
}

// The lines of a journal's file follow one another: each finds the register as the line before left it.
fn run_register<R: Files + Eprint, W: Write>(rt: &R, out: &mut W) -> io::Result<()> {
    let mut buf = [0u8; 4096];
    let mut st = journal::unopened();
    run(rt, out, "journals.tsv", |out: &mut W, line: &[u8]| {
        st = journals::row(out, st, line, &mut buf)?;
        Ok(())
    })
}

// The files of the take-overs.
const TAKEOVERS: [&str; 17] = [
    "takeover-1.tsv",
    "takeover-2.tsv",
    "takeover-3.tsv",
    "takeover-4.tsv",
    "takeover-5.tsv",
    "takeover-6.tsv",
    "takeover-7.tsv",
    "takeover-8.tsv",
    "takeover-pairs-1.tsv",
    "takeover-pairs-2.tsv",
    "takeover-pairs-3.tsv",
    "takeover-pairs-4.tsv",
    "takeover-pairs-5.tsv",
    "takeover-pairs-6.tsv",
    "takeover-pairs-7.tsv",
    "takeover-pairs-8.tsv",
    "takeover-pairs-9.tsv",
];

fn main(rt: HostRuntime) -> io::Result<()> {
    let mut out = io::writer(&rt);
    run_primitives(&rt, &mut out)?;
    run_receipts(&rt, &mut out)?;
    run(&rt, &mut out, "open.tsv", opens::row)?;
    run_register(&rt, &mut out)?;
    for path in TAKEOVERS {
        run(&rt, &mut out, path, takeovers::row)?;
    }
    Ok(())
}
