// The primitives of the receipt journal: SHA-256, AES-256, BASE64, BASE32, counter bytes, and writing at a place in a buffer.
#![tactic(auto)]

mod aes;
mod base32;
mod base64;
mod buffer;
mod coding;
mod counter;
mod digits;
mod hash;
mod refusal;

pub use aes::{aes256, encrypt_block, expand_key};
pub use base32::{base32_decode, base32_encode, base32_length};
pub use base64::{Alphabet, DecodeError, base64_decode, base64_encode, base64_length};
pub use buffer::{has_room, number_at, put, put_number, same};
pub use counter::{
    absolute, checked_add, counter_bytes, counter_fits, counter_value, width_good, xor_first,
};
pub use hash::sha256;
pub use refusal::{Refusal, answer_number};
