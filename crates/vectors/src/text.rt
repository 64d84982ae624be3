// The fields of a line: finding them between tabs, and reading hexadecimal and decimal ones.
ghost use Rattle.std.specs.Prelude.{◌≤◌, length};

// The place of the next byte `mark` from a place on, or the end.
pub(crate) fn find(text: &[u8], from: usize, mark: u8) -> usize
    requires { from ≤ length text.now }
    ensures { (from ≤ result) × (result ≤ length text.now) }
{
    match text[from..].iter().position(|b| *b == mark) {
        Some(i) => from + i,
        None => text.len(),
    }
}

// The field after k tabs; empty if there are fewer.
pub(crate) fn field(line: &[u8], k: usize) -> &[u8] {
    let mut rest = line;
    for _ in 0..k {
        let e = find(rest, 0, b'\t');
        let [_, after @ ..] = &rest[e..] else {
            return b"";
        };
        rest = after;
    }
    let e = find(rest, 0, b'\t');
    &rest[..e]
}

// The number that a hexadecimal letter stands for.
fn nibble(b: u8) -> u8
    ensures { result ≤ 15 }
{
    let d = b % 16;
    if b < 58 { d } else { (d + 9) % 16 }
}

// The byte of two hexadecimal letters.
fn byte_of(a: u8, b: u8) -> u8 {
    nibble(a) * 16 + nibble(b)
}

// Writes the bytes of a hexadecimal text to the start of a buffer, as many as there is room for; returns the place after them.
pub(crate) fn unhex(s: &[u8], out: &mut [u8]) -> usize {
    let mut p = 0;
    for pair in s.chunks(2) {
        if let [a, b] = pair {
            p = primitives::put(out, p, &[byte_of(*a, *b)]);
        }
    }
    p
}

// The hexadecimal letter of a number's four low bits.
fn letter(n: u8) -> u8 {
    let d = n % 16;
    if d < 10 { b'0' + d } else { b'a' - 10 + d }
}

// Writes bytes in hexadecimal at a place, as many as there is room for; returns the place after them.
pub(crate) fn put_hex(out: &mut [u8], at: usize, s: &[u8]) -> usize {
    let mut p = at;
    for b in s {
        p = primitives::put(out, p, &[letter(*b / 16), letter(*b)]);
    }
    p
}

// The number in a decimal text from a place on; 0 if it is above 2^63 + 1.
pub(crate) fn digits(s: &[u8], from: usize) -> u64 {
    let mut v = 0;
    for b in s.iter().skip(from) {
        if 922337203685477580 < v {
            return 0;
        }
        v = v * 10 + u64::from(*b % 16);
    }
    v
}

// A decimal number of 64 bits, with a '-' if it is negative; 0 if it is out of range.
pub(crate) fn decimal(s: &[u8]) -> i64 {
    if let [b'-', ..] = s {
        let m = digits(s, 1);
        if m == 0 || 9223372036854775808 < m {
            return 0;
        }
        return !((m - 1) as i64);
    }
    let m = digits(s, 0);
    i64::try_from(m).unwrap_or(0)
}
