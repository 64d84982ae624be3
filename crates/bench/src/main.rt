// The benchmarks' work: the first argument names it, the second says how often it is done. Each turn uses the result of the
// one before, so that no turn can be left out; the last result is printed for comparison with the other programs.
#![tactic(auto)]

ghost use Rattle.std.specs.Prelude.{◌≤◌, length};

use std::env::Env;
use std::io;
use std::io::Write;

// The first eight bytes of a result, in hexadecimal.
fn print(out: &mut impl Write, bytes: &[u8]) -> io::Result<()> {
    printing::eight(out, bytes)?;
    writeln!(out)
}

// Hashes a message repeatedly, with each digest written to its start.
fn hash(out: &mut impl Write, message: &mut [u8], turns: u64) -> io::Result<()> {
    for _ in 0..turns {
        let digest = primitives::sha256(message);
        primitives::put(message, 0, &digest);
    }
    print(out, message)
}

// Encrypts a block repeatedly under one expanded key.
fn encrypt(out: &mut impl Write, key: [u8; 32], turns: u64) -> io::Result<()> {
    let schedule = primitives::expand_key(key);
    let mut block = [0u8; 16];
    for _ in 0..turns {
        block = primitives::encrypt_block(&schedule, block);
    }
    print(out, &block)
}

// Encrypts a block repeatedly, expanding the key each time.
fn expand_and_encrypt(out: &mut impl Write, key: [u8; 32], turns: u64) -> io::Result<()> {
    let mut block = [0u8; 16];
    for _ in 0..turns {
        block = primitives::aes256(key, block);
    }
    print(out, &block)
}

// The number in a decimal text of at most 18 digits; 0 if the text is longer.
fn digits(s: &[u8]) -> u64 {
    let mut v = 0;
    for b in s {
        if 100000000000000000 < v {
            return 0;
        }
        v = v * 10 + u64::from(*b % 16);
    }
    v
}

// The work with this first letter: a long message, a short one, a block, or a key and a block.
fn work(out: &mut impl Write, name: u8, turns: u64) -> io::Result<()> {
    match name {
        b'l' => hash(out, &mut [7u8; 65536], turns),
        b's' => hash(out, &mut [7u8; 300], turns),
        b'e' => encrypt(out, [9u8; 32], turns),
        _ => expand_and_encrypt(out, [9u8; 32], turns),
    }
}

// Puts an argument at the start of a buffer and returns its length; 0 if there is none, or it is too long for the buffer.
fn argument(env: &impl Env, which: usize, buf: &mut [u8]) -> usize
    ensures { result ≤ length buf.new }
{
    match env.arg(which, buf) {
        Ok(n) => n,
        Err(_) => 0,
    }
}

// The second argument's number.
fn turns_asked(env: &impl Env) -> u64 {
    let mut count = [0u8; 4096];
    let n = argument(env, 2, &mut count);
    digits(&count[..n])
}

fn main(rt: HostRuntime) -> io::Result<()> {
    let mut name = [0u8; 4096];
    if 0 < argument(&rt, 1, &mut name) {
        return work(&mut io::writer(&rt), name[0], turns_asked(&rt));
    }
    Ok(())
}
