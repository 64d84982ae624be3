// AES-256 encryption (FIPS 197). A block is handled as four columns of four bytes.
ghost use Rattle.std.specs.Prelude.{◌≡◌, ◌<◌};
ghost use Rattle.primitives.specs.Field.{xtime};
ghost use Rattle.primitives.specs.Aes.{load, store, sub, sub_column, sub_bytes, shift_rows, mix_byte, mix_column, mix_columns, add_column, add_round_key, rot_word, rcon, next_word, key_word, key_schedule, round_key, round, last_round, rounds_of, cipher, aes256};

use std::array;

// A word of the key schedule, or a column of the state.
type Word = [u8; 4];

type State = [Word; 4];

type Schedule = [Word; 60];

// The tables that a round reads. They stand in one value: two addresses would take a register more, in which a round is slower.
struct Tables {
    substitution: [u8; 256],
    doubling: [u8; 256],
}

static TABLES: Tables = Tables {
    // The substitution of each byte: its inverse in the field, then the affine map.
    substitution: *b"\
    \x63\x7c\x77\x7b\xf2\x6b\x6f\xc5\x30\x01\x67\x2b\xfe\xd7\xab\x76\
    \xca\x82\xc9\x7d\xfa\x59\x47\xf0\xad\xd4\xa2\xaf\x9c\xa4\x72\xc0\
    \xb7\xfd\x93\x26\x36\x3f\xf7\xcc\x34\xa5\xe5\xf1\x71\xd8\x31\x15\
    \x04\xc7\x23\xc3\x18\x96\x05\x9a\x07\x12\x80\xe2\xeb\x27\xb2\x75\
    \x09\x83\x2c\x1a\x1b\x6e\x5a\xa0\x52\x3b\xd6\xb3\x29\xe3\x2f\x84\
    \x53\xd1\x00\xed\x20\xfc\xb1\x5b\x6a\xcb\xbe\x39\x4a\x4c\x58\xcf\
    \xd0\xef\xaa\xfb\x43\x4d\x33\x85\x45\xf9\x02\x7f\x50\x3c\x9f\xa8\
    \x51\xa3\x40\x8f\x92\x9d\x38\xf5\xbc\xb6\xda\x21\x10\xff\xf3\xd2\
    \xcd\x0c\x13\xec\x5f\x97\x44\x17\xc4\xa7\x7e\x3d\x64\x5d\x19\x73\
    \x60\x81\x4f\xdc\x22\x2a\x90\x88\x46\xee\xb8\x14\xde\x5e\x0b\xdb\
    \xe0\x32\x3a\x0a\x49\x06\x24\x5c\xc2\xd3\xac\x62\x91\x95\xe4\x79\
    \xe7\xc8\x37\x6d\x8d\xd5\x4e\xa9\x6c\x56\xf4\xea\x65\x7a\xae\x08\
    \xba\x78\x25\x2e\x1c\xa6\xb4\xc6\xe8\xdd\x74\x1f\x4b\xbd\x8b\x8a\
    \x70\x3e\xb5\x66\x48\x03\xf6\x0e\x61\x35\x57\xb9\x86\xc1\x1d\x9e\
    \xe1\xf8\x98\x11\x69\xd9\x8e\x94\x9b\x1e\x87\xe9\xce\x55\x28\xdf\
    \x8c\xa1\x89\x0d\xbf\xe6\x42\x68\x41\x99\x2d\x0f\xb0\x54\xbb\x16\
",
    // The double of each byte in the field: a shift to the left, and for bytes from 0x80 on an exclusive or with 0x1b.
    doubling: *b"\
    \x00\x02\x04\x06\x08\x0a\x0c\x0e\x10\x12\x14\x16\x18\x1a\x1c\x1e\
    \x20\x22\x24\x26\x28\x2a\x2c\x2e\x30\x32\x34\x36\x38\x3a\x3c\x3e\
    \x40\x42\x44\x46\x48\x4a\x4c\x4e\x50\x52\x54\x56\x58\x5a\x5c\x5e\
    \x60\x62\x64\x66\x68\x6a\x6c\x6e\x70\x72\x74\x76\x78\x7a\x7c\x7e\
    \x80\x82\x84\x86\x88\x8a\x8c\x8e\x90\x92\x94\x96\x98\x9a\x9c\x9e\
    \xa0\xa2\xa4\xa6\xa8\xaa\xac\xae\xb0\xb2\xb4\xb6\xb8\xba\xbc\xbe\
    \xc0\xc2\xc4\xc6\xc8\xca\xcc\xce\xd0\xd2\xd4\xd6\xd8\xda\xdc\xde\
    \xe0\xe2\xe4\xe6\xe8\xea\xec\xee\xf0\xf2\xf4\xf6\xf8\xfa\xfc\xfe\
    \x1b\x19\x1f\x1d\x13\x11\x17\x15\x0b\x09\x0f\x0d\x03\x01\x07\x05\
    \x3b\x39\x3f\x3d\x33\x31\x37\x35\x2b\x29\x2f\x2d\x23\x21\x27\x25\
    \x5b\x59\x5f\x5d\x53\x51\x57\x55\x4b\x49\x4f\x4d\x43\x41\x47\x45\
    \x7b\x79\x7f\x7d\x73\x71\x77\x75\x6b\x69\x6f\x6d\x63\x61\x67\x65\
    \x9b\x99\x9f\x9d\x93\x91\x97\x95\x8b\x89\x8f\x8d\x83\x81\x87\x85\
    \xbb\xb9\xbf\xbd\xb3\xb1\xb7\xb5\xab\xa9\xaf\xad\xa3\xa1\xa7\xa5\
    \xdb\xd9\xdf\xdd\xd3\xd1\xd7\xd5\xcb\xc9\xcf\xcd\xc3\xc1\xc7\xc5\
    \xfb\xf9\xff\xfd\xf3\xf1\xf7\xf5\xeb\xe9\xef\xed\xe3\xe1\xe7\xe5\
",
};

fn sub_byte(x: u8) -> u8
    ensures { result ≡ sub x }
{
    TABLES.substitution[x as usize]
}

fn sub_column(a: Word) -> Word
    ensures { result ≡ sub_column a }
{
    a.map(sub_byte)
}

fn sub_bytes(s: State) -> State
    ensures { result ≡ sub_bytes s }
{
    s.map(sub_column)
}

fn shift_rows(s: State) -> State
    ensures { result ≡ shift_rows s }
{
    let [a, b, c, d] = s;
    [
        [a[0], b[1], c[2], d[3]],
        [b[0], c[1], d[2], a[3]],
        [c[0], d[1], a[2], b[3]],
        [d[0], a[1], b[2], c[3]],
    ]
}

// The double of a byte in the field.
fn double(x: u8) -> u8
    ensures { result ≡ xtime x }
{
    TABLES.doubling[x as usize]
}

// One byte of a mixed column, from the bytes of the column, its own row first.
fn mix_byte(a: u8, b: u8, c: u8, d: u8) -> u8
    ensures { result ≡ mix_byte a b c d }
{
    double(a) ^ (double(b) ^ b) ^ c ^ d
}

fn mix_column(a: Word) -> Word
    ensures { result ≡ mix_column a }
{
    let [a0, a1, a2, a3] = a;
    [
        mix_byte(a0, a1, a2, a3),
        mix_byte(a1, a2, a3, a0),
        mix_byte(a2, a3, a0, a1),
        mix_byte(a3, a0, a1, a2),
    ]
}

fn mix_columns(s: State) -> State
    ensures { result ≡ mix_columns s }
{
    s.map(mix_column)
}

fn add_column(a: Word, b: Word) -> Word
    ensures { result ≡ add_column a b }
{
    array::from_fn(|r| a[r] ^ b[r])
}

fn add_round_key(s: State, k: State) -> State
    ensures { result ≡ add_round_key s k }
{
    // Four calls: with `array::from_fn` over columns the proof did not close.
    [
        add_column(s[0], k[0]),
        add_column(s[1], k[1]),
        add_column(s[2], k[2]),
        add_column(s[3], k[3]),
    ]
}

// The round constants from 1 on; entry 0 is not used.
static RCON: [u8; 8] = [1, 1, 2, 4, 8, 16, 32, 64];

fn round_constant(j: usize) -> u8
    requires { j < 8 }
    ensures { result ≡ rcon j }
{
    RCON[j]
}

fn rot_word(a: Word) -> Word
    ensures { result ≡ rot_word a }
{
    [a[1], a[2], a[3], a[0]]
}

// Word i of the schedule, from the word before it and the word eight places before it.
fn next_word(i: usize, prev: Word, back: Word) -> Word
    requires { i < 64 }
    ensures { result ≡ next_word i prev back }
{
    let turned = match i % 8 {
        0 => add_column(sub_column(rot_word(prev)), [round_constant(i / 8), 0, 0, 0]),
        4 => sub_column(prev),
        _ => prev,
    };
    add_column(back, turned)
}

fn key_word(key: [u8; 32], i: usize) -> Word
    requires { i < 8 }
    ensures { result ≡ key_word key i }
{
    let at = i * 4;
    [key[at], key[at + 1], key[at + 2], key[at + 3]]
}

// The key schedule: 60 words of four bytes.
pub fn expand_key(key: [u8; 32]) -> [[u8; 4]; 60]
    ensures { result ≡ key_schedule key }
{
    let mut w = [[0; 4]; 60];
    for i in 0..8 {
        w[i] = key_word(key, i);
    }
    for i in 8..60 {
        w[i] = next_word(i, w[i - 1], w[i - 8]);
    }
    w
}

fn round_key(w: &Schedule, n: usize) -> State
    requires { n < 15 }
    ensures { result ≡ round_key w.now n }
{
    let at = n * 4;
    [w[at], w[at + 1], w[at + 2], w[at + 3]]
}

fn load_block(b: [u8; 16]) -> State
    ensures { result ≡ load b }
{
    [
        [b[0], b[1], b[2], b[3]],
        [b[4], b[5], b[6], b[7]],
        [b[8], b[9], b[10], b[11]],
        [b[12], b[13], b[14], b[15]],
    ]
}

fn store_block(s: State) -> [u8; 16]
    ensures { result ≡ store s }
{
    let [a, b, c, d] = s;
    [
        a[0], a[1], a[2], a[3], b[0], b[1], b[2], b[3], c[0], c[1], c[2], c[3], d[0], d[1], d[2],
        d[3],
    ]
}

fn full_round(s: State, k: State) -> State
    ensures { result ≡ round s k }
{
    add_round_key(mix_columns(shift_rows(sub_bytes(s))), k)
}

// Round 14, which mixes no columns.
fn last_round(w: &Schedule, s: State) -> State
    ensures { result ≡ last_round s (round_key w.now 14) }
{
    add_round_key(shift_rows(sub_bytes(s)), round_key(w, 14))
}

// The block as columns, with the first round key added.
fn start(w: &Schedule, block: [u8; 16]) -> State
    ensures { result ≡ add_round_key (load block) (round_key w.now 0) }
{
    add_round_key(load_block(block), round_key(w, 0))
}

// Rounds 1 to 13.
fn rounds(w: &Schedule, first: State) -> State
    ensures { result ≡ rounds_of w.now first 13 }
{
    let mut s = first;
    for n in 0..13 {
        let next = full_round(s, round_key(w, n + 1));
        s = next;
    }
    s
}

// Encrypts one block under a key schedule. Any 60 words are accepted as a schedule.
pub fn encrypt_block(schedule: &[[u8; 4]; 60], block: [u8; 16]) -> [u8; 16]
    ensures { result ≡ cipher schedule.now block }
{
    let s = rounds(schedule, start(schedule, block));
    store_block(last_round(schedule, s))
}

// Encrypts one block under a key.
pub fn aes256(key: [u8; 32], block: [u8; 16]) -> [u8; 16]
    ensures { result ≡ aes256 key block }
{
    encrypt_block(&expand_key(key), block)
}
