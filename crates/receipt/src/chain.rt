// The chain between receipts, and the encrypted counter.
ghost use Rattle.std.specs.Prelude.{◌≡◌, ◌≤◌, take};
ghost use Rattle.primitives.specs.Aes.{key_schedule};
ghost use Rattle.receipt.specs.Chain.{chain_value, hash_input, iv, key_stream, encrypted_counter, decrypted_counter};

use super::decimal::put_decimal;
use super::settings::Name;

// The first N bytes of a digest.
fn first<const N: usize>(digest: [u8; 32]) -> [u8; N]
    requires { N ≤ 32 }
    ensures { result ≡ take N digest }
{
    let mut bytes = [0; N];
    bytes.copy_from_slice(&digest[..N]);
    bytes
}

// The first 8 bytes of SHA-256 of a text: the ID, or the previous receipt's compact form.
#[tactic(auto, unfolding(crate::specs::Chain::chain_value))]
pub fn chain_value(text: &[u8]) -> [u8; 8]
    ensures { result ≡ chain_value text.now }
{
    first(primitives::sha256(text))
}

// The key, expanded once for all receipts.
pub fn counter_key(key: [u8; 32]) -> [[u8; 4]; 60]
    ensures { result ≡ key_schedule key }
{
    primitives::expand_key(key)
}

// ID then number as spelled, written to the start of a buffer and lent from it.
fn hash_input<'a>(id: &Name, number: u32, buffer: &'a mut [u8; 42]) -> &'a [u8]
    ensures { result.now ≡ hash_input id.now number }
{
    let p = primitives::put(buffer, 0, id.text());
    let end = put_decimal(buffer, p, u64::from(number));
    &buffer[..end]
}

// The IV of a receipt's counter: bytes 0 to 15 of SHA-256 of ID then number as spelled.
#[tactic(auto, unfolding(crate::specs::Chain::iv))]
pub fn counter_iv(id: Name, number: u32) -> [u8; 16]
    ensures { result ≡ iv id number }
{
    let mut buffer = [0; 42];
    first(primitives::sha256(hash_input(&id, number, &mut buffer)))
}

// The bytes that a receipt's counter is combined with. Schedule, ID and number stay three arguments, as the public `encrypt_counter` and `decrypt_counter` take them.
#[tactic(auto, unfolding(crate::specs::Chain::key_stream))]
fn key_stream(schedule: &[[u8; 4]; 60], id: Name, number: u32) -> [u8; 16]
    ensures { result ≡ key_stream schedule.now id number }
{
    primitives::encrypt_block(schedule, counter_iv(id, number))
}

// The n bytes of a counter, encrypted for the receipt with this number, then zeros.
// If n is not 5 to 8, or the counter does not fit n bytes, eight zeros take the place of its bytes: the first n bytes of the result are
// those of the key stream, and the result is not a counter field. Callers ask questions 4 and 11 first.
#[tactic(auto, unfolding(crate::specs::Chain::encrypted_counter))]
pub fn encrypt_counter(
    schedule: &[[u8; 4]; 60],
    id: Name,
    number: u32,
    n: usize,
    counter: i64,
) -> [u8; 8]
    ensures { result ≡ encrypted_counter schedule.now id number n counter }
{
    let stream = key_stream(schedule, id, number);
    let b = primitives::counter_bytes(n, counter);
    primitives::xor_first(n, b, stream)
}

// The counter that n encrypted bytes stand for.
#[tactic(auto, unfolding(crate::specs::Chain::decrypted_counter))]
pub fn decrypt_counter(
    schedule: &[[u8; 4]; 60],
    id: Name,
    number: u32,
    n: usize,
    bytes: [u8; 8],
) -> i64
    ensures { result ≡ decrypted_counter schedule.now id number n bytes }
{
    let stream = key_stream(schedule, id, number);
    let b = primitives::xor_first(n, bytes, stream);
    primitives::counter_value(n, b)
}
