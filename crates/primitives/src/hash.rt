// SHA-256 (FIPS 180-4). The contracts name the definitions of specs/Sha256.antt.
ghost use Rattle.std.specs.Prelude.{◌≡◌, ◌+◌, ◌-◌, ◌*◌, ◌<◌, ◌≤◌, ◌++◌, length, take, drop, replicate};
ghost use Rattle.primitives.specs.Sha256 as S;

use super::buffer::put_be;

// The round constants (4.2.2).
static K: [u32; 64] = [
    0x428a2f98, 0x71374491, 0xb5c0fbcf, 0xe9b5dba5, 0x3956c25b, 0x59f111f1, 0x923f82a4, 0xab1c5ed5,
    0xd807aa98, 0x12835b01, 0x243185be, 0x550c7dc3, 0x72be5d74, 0x80deb1fe, 0x9bdc06a7, 0xc19bf174,
    0xe49b69c1, 0xefbe4786, 0x0fc19dc6, 0x240ca1cc, 0x2de92c6f, 0x4a7484aa, 0x5cb0a9dc, 0x76f988da,
    0x983e5152, 0xa831c66d, 0xb00327c8, 0xbf597fc7, 0xc6e00bf3, 0xd5a79147, 0x06ca6351, 0x14292967,
    0x27b70a85, 0x2e1b2138, 0x4d2c6dfc, 0x53380d13, 0x650a7354, 0x766a0abb, 0x81c2c92e, 0x92722c85,
    0xa2bfe8a1, 0xa81a664b, 0xc24b8b70, 0xc76c51a3, 0xd192e819, 0xd6990624, 0xf40e3585, 0x106aa070,
    0x19a4c116, 0x1e376c08, 0x2748774c, 0x34b0bcb5, 0x391c0cb3, 0x4ed8aa4a, 0x5b9cca4f, 0x682e6ff3,
    0x748f82ee, 0x78a5636f, 0x84c87814, 0x8cc70208, 0x90befffa, 0xa4506ceb, 0xbef9a3f7, 0xc67178f2,
];

// A hash value, and the working variables of a block: eight words.
#[derive(Clone, Copy)]
struct HashValue {
    a: u32,
    b: u32,
    c: u32,
    d: u32,
    e: u32,
    f: u32,
    g: u32,
    h: u32,
}

// The six functions of 4.1.2.
fn ch(x: u32, y: u32, z: u32) -> u32
    ensures { result ≡ S.Ch x y z }
{
    (x & y) ^ (!x & z)
}

fn maj(x: u32, y: u32, z: u32) -> u32
    ensures { result ≡ S.Maj x y z }
{
    (x & y) ^ (x & z) ^ (y & z)
}

fn big_sigma0(x: u32) -> u32
    ensures { result ≡ S.Σ₀ x }
{
    x.rotate_right(2) ^ x.rotate_right(13) ^ x.rotate_right(22)
}

fn big_sigma1(x: u32) -> u32
    ensures { result ≡ S.Σ₁ x }
{
    x.rotate_right(6) ^ x.rotate_right(11) ^ x.rotate_right(25)
}

fn small_sigma0(x: u32) -> u32
    ensures { result ≡ S.σ₀ x }
{
    x.rotate_right(7) ^ x.rotate_right(18) ^ (x >> 3)
}

fn small_sigma1(x: u32) -> u32
    ensures { result ≡ S.σ₁ x }
{
    x.rotate_right(17) ^ x.rotate_right(19) ^ (x >> 10)
}

// The word that starts at byte k (5.2.1).
fn word_at(m: &[u8], k: usize) -> u32
    requires { k + 4 ≤ length m.now }
    ensures { result ≡ S.word_at m.now k }
{
    u32::from_be_bytes([m[k], m[k + 1], m[k + 2], m[k + 3]])
}

// The sixteen words of the block at byte k, in the first sixteen places.
fn block_words(m: &[u8], k: usize) -> [u32; 64]
    requires { k + 64 ≤ length m.now }
    ensures { take 16 result ≡ S.words m.now k 16 }
{
    let mut w = [0; 64];
    for t in 0..16 {
        w[t] = word_at(m, k + 4 * t);
    }
    w
}

// Word t of the message schedule, from those before it (6.2.2, step 1).
fn next_word(w: &[u32; 64], t: usize) -> u32
    requires { (16 ≤ t) × (t < 64) }
    ensures { result ≡ S.next_word w.now t }
{
    small_sigma1(w[t - 2])
        .wrapping_add(w[t - 7])
        .wrapping_add(small_sigma0(w[t - 15]))
        .wrapping_add(w[t - 16])
}

// The message schedule of the block at byte k.
fn schedule(m: &[u8], k: usize) -> [u32; 64]
    requires { k + 64 ≤ length m.now }
    ensures { result ≡ S.schedule (S.words m.now k 16) 48 }
{
    let mut w = block_words(m, k);
    for t in 16..64 {
        w[t] = next_word(&w, t);
    }
    w
}

// One round (6.2.2, step 3), with its constant and its word of the schedule.
fn round(v: HashValue, k: u32, w: u32) -> HashValue
    ensures { result ≡ S.round v k w }
{
    let t1 = v
        .h
        .wrapping_add(big_sigma1(v.e))
        .wrapping_add(ch(v.e, v.f, v.g))
        .wrapping_add(k)
        .wrapping_add(w);
    let t2 = big_sigma0(v.a).wrapping_add(maj(v.a, v.b, v.c));
    HashValue {
        a: t1.wrapping_add(t2),
        b: v.a,
        c: v.b,
        d: v.c,
        e: v.d.wrapping_add(t1),
        f: v.e,
        g: v.f,
        h: v.g,
    }
}

// Eight rounds, from round t on. One loop over all 64 is not unrolled, and takes a fifth more instructions.
fn eight_rounds(v: HashValue, w: &[u32; 64], t: usize) -> HashValue
    requires { t + 8 ≤ 64 }
    ensures { result ≡ S.rounds v w.now t 8 }
{
    let mut u = v;
    for i in 0..8 {
        u = round(u, K[t + i], w[t + i]);
    }
    u
}

// All 64 rounds.
fn rounds(v: HashValue, w: &[u32; 64]) -> HashValue
    ensures { result ≡ S.rounds v w.now 0 64 }
{
    let mut u = v;
    for i in 0..8 {
        u = eight_rounds(u, w, 8 * i);
    }
    u
}

// The sums of two hash values, word by word (6.2.2, step 4).
fn sums(v: HashValue, s: HashValue) -> HashValue
    ensures { result ≡ S.sums v s }
{
    HashValue {
        a: v.a.wrapping_add(s.a),
        b: v.b.wrapping_add(s.b),
        c: v.c.wrapping_add(s.c),
        d: v.d.wrapping_add(s.d),
        e: v.e.wrapping_add(s.e),
        f: v.f.wrapping_add(s.f),
        g: v.g.wrapping_add(s.g),
        h: v.h.wrapping_add(s.h),
    }
}

// The hash value after the block at byte j of m.
fn compress(s: HashValue, m: &[u8], j: usize) -> HashValue
    requires { j + 64 ≤ length m.now }
    ensures { result ≡ S.compress s m.now j }
{
    sums(rounds(s, &schedule(m, j)), s)
}

// The hash value after the first n blocks of m, from s on.
fn blocks(s: HashValue, m: &[u8], n: usize) -> HashValue
    requires { n * 64 ≤ length m.now }
    ensures { result ≡ S.blocks s m.now n }
{
    let mut v = s;
    for i in 0..n {
        v = compress(v, m, i * 64);
    }
    v
}

// The initial hash value (5.3.3).
fn initial() -> HashValue
    ensures { result ≡ S.H⁰ }
{
    HashValue {
        a: 0x6a09_e667,
        b: 0xbb67_ae85,
        c: 0x3c6e_f372,
        d: 0xa54f_f53a,
        e: 0x510e_527f,
        f: 0x9b05_688c,
        g: 0x1f83_d9ab,
        h: 0x5be0_cd19,
    }
}

// The rest of m from byte k on, then zeros.
fn rest(m: &[u8], k: usize) -> [u8; 128]
    requires { (k ≤ length m.now) × (length m.now < k + 64) }
    ensures { result ≡ drop k m.now ++ replicate (128 - (length m.now - k)) 0 }
{
    let mut b = [0; 128];
    b[..m.len() - k].copy_from_slice(&m[k..]);
    b
}

// The padded message from byte k on, in the first n bytes (5.1.1).
fn padded_end(m: &[u8], k: usize, n: usize) -> [u8; 128]
    requires { (k ≤ length m.now) × (length m.now < k + 64) × (k + n ≡ length m.now + 9 + S.zeros (length m.now)) × (n ≤ 128) }
    ensures { take n result ≡ drop k (S.pad m.now) }
{
    let mut b = rest(m, k);
    let i = m.len() - k;
    b[i] = 0x80;
    put_be(&mut b, n - 8, 8, (m.len() as u64) << 3);
    b
}

// The words of a hash value.
fn words_of(s: HashValue) -> [u32; 8]
    ensures { result ≡ S.words_of s }
{
    [s.a, s.b, s.c, s.d, s.e, s.f, s.g, s.h]
}

// The bytes of a hash value.
fn digest(s: HashValue) -> [u8; 32]
    ensures { result ≡ S.digest s }
{
    let mut d = [0; 32];
    for (i, w) in words_of(s).iter().enumerate() {
        put_be(&mut d, 4 * i, 4, u64::from(*w));
    }
    d
}

// The message digest of m: over its whole blocks, then over the one or two blocks that end with the padding.
pub fn sha256(m: &[u8]) -> [u8; 32]
    ensures { result ≡ S.sha256 m.now }
{
    let q = m.len() / 64;
    let n = (m.len() % 64 + 72) / 64;
    let b = padded_end(m, q * 64, n * 64);
    digest(blocks(blocks(initial(), m, q), &b, n))
}
