// RFC 4648: bytes as letters, and back. The bits of the bytes, in order, are cut into letters; zeros fill the last letter, and '=' fills the
// last group of letters. Writer and reader put their result at a place in a buffer.
ghost use Rattle.std.specs.Prelude.{◌≡◌, ◌+◌, ◌<◌, ◌≤◌, true, length};
ghost use Rattle.primitives.specs.Place.{overwrite, placed, place_after};
ghost use Rattle.primitives.specs.BaseRule.{GoodBase, letters_for, letters_of, fill_for, text_of, bytes_in, letters_known, well_ended, letters_in, is_text, read_text};
ghost use Rattle.primitives.specs.Base64.{answer_of, buffer_of};

use crate::base64::DecodeError;
use crate::buffer::has_room;
use crate::digits::{Bytes, Digits, number_of, put_digits};

// How many letters of so many bits a few bytes have.
#[tactic(auto, unfolding(crate::specs::BaseRule::letters_for))]
fn letters_for(bits: usize, n: usize) -> usize
    requires { (0 < bits) × (bits ≤ 8) × (n ≤ 8) }
    ensures { result ≡ letters_for bits n }
{
    (n * 8 + (bits - 1)) / bits
}

// How many '=' follow n letters.
#[tactic(auto, unfolding(crate::specs::BaseRule::fill_for))]
fn fill_for(group: usize, n: usize) -> usize
    requires { 0 < group }
    ensures { result ≡ fill_for group n }
{
    (group - n % group) % group
}

// The number of letters before the padding.
fn count_letters(s: &[u8]) -> usize
    ensures { (result ≡ letters_in s.now) × (result ≤ length s.now) }
{
    match s.iter().rposition(|c| *c != b'=') {
        Some(i) => i + 1,
        None => 0,
    }
}

// How many letters are tested at once.
const PART: usize = 64;

// Digits that code bytes.
#[derive(Drop)]
pub(crate) struct Coding<D: Digits> {
    pub(crate) digits: D,
    // The letters of a group, which padding fills; 1 if the text is not padded.
    pub(crate) group: usize,
    ghost grouped: { group ≡ (D.base digits).group },
    ghost close: { group ≤ 8 },
    ghost good: { GoodBase (D.base digits) },
}

impl<D: Digits> Coding<D> {
    // The length of the text of `s`. A slice has fewer than 2^63 bytes, so it is in range.
    pub(crate) fn text_length(&self, s: &[u8]) -> usize
        ensures { result ≡ length (text_of (D.base self.now.digits) s.now) }
    {
        let letters = s.len() / D::BITS * 8 + letters_for(D::BITS, s.len() % D::BITS);
        letters + fill_for(self.group, letters)
    }

    // Writes the letters of at most `BITS` bytes, which are at most eight; returns the place after them.
    fn put_group(&self, s: &[u8], out: &mut [u8], at: usize) -> usize
        requires { (length s.now ≤ (D.base self.now.digits).bits) × (at + length (letters_of (D.base self.now.digits) s.now) ≤ length out.old) }
        ensures { let text : _ = letters_of (D.base self.now.digits) s.now in
            (result ≡ at + length text) × (out.new ≡ overwrite out.old at text) }
    {
        let n = letters_for(D::BITS, s.len());
        let spare = n * D::BITS - s.len() * 8;
        put_digits(&self.digits, out, at, n, number_of(&Bytes, s) << spare);
        at + n
    }

    // Writes the letters of `s`, without padding; returns the place after them.
    fn put_letters(&self, s: &[u8], out: &mut [u8], at: usize) -> usize
        requires { at + length (letters_of (D.base self.now.digits) s.now) ≤ length out.old }
        ensures { let text : _ = letters_of (D.base self.now.digits) s.now in
            (result ≡ at + length text) × (out.new ≡ overwrite out.old at text) }
    {
        let groups = s.chunks_exact(D::BITS);
        let rest = groups.remainder();
        let mut end = at;
        for group in groups {
            end = self.put_group(group, out, end);
        }
        self.put_group(rest, out, end)
    }

    // Writes the text of `s` at a place, or nothing if there is no room for all of it; returns the place after what was written.
    pub(crate) fn encode(&self, s: &[u8], out: &mut [u8], at: usize) -> usize
        ensures { let text : _ = text_of (D.base self.now.digits) s.now in
            (result ≡ place_after out.old at text) × (out.new ≡ placed out.old at text) }
    {
        let length = self.text_length(s);
        if !has_room(out.len(), at, length) {
            return at;
        }
        let end = at + length;
        let letters = self.put_letters(s, out, at);
        out[letters..end].fill(b'=');
        end
    }

    // Writes the bytes of at most eight letters; returns the place after them. Bits after the last byte are left out.
    fn put_group_bytes(&self, s: &[u8], out: &mut [u8], at: usize) -> usize
        requires { (length s.now ≤ 8) × (letters_known (D.base self.now.digits) s.now ≡ true) × (at + length (bytes_in (D.base self.now.digits) s.now) ≤ length out.old) }
        ensures { let read : _ = bytes_in (D.base self.now.digits) s.now in
            (result ≡ at + length read) × (out.new ≡ overwrite out.old at read) }
    {
        let bits = s.len() * D::BITS;
        put_digits(
            &Bytes,
            out,
            at,
            bits / 8,
            number_of(&self.digits, s) >> (bits % 8),
        );
        at + bits / 8
    }

    // Writes the bytes of known letters; returns the place after them.
    fn put_bytes(&self, s: &[u8], out: &mut [u8], at: usize) -> usize
        requires { (letters_known (D.base self.now.digits) s.now ≡ true) × (at + length (bytes_in (D.base self.now.digits) s.now) ≤ length out.old) }
        ensures { let read : _ = bytes_in (D.base self.now.digits) s.now in
            (result ≡ at + length read) × (out.new ≡ overwrite out.old at read) }
    {
        let groups = s.chunks_exact(8);
        let rest = groups.remainder();
        let mut end = at;
        for group in groups {
            end = self.put_group_bytes(group, out, end);
        }
        self.put_group_bytes(rest, out, end)
    }

    // Every byte is a letter. The numbers are joined by "or" and tested once, which is faster than a test of each.
    fn part_known(&self, s: &[u8]) -> bool
        ensures { result ≡ letters_known (D.base self.now.digits) s.now }
    {
        let mut joined = 0;
        for c in s {
            joined |= self.digits.digit(*c);
        }
        u64::from(joined) < D::RADIX
    }

    // Every byte is a letter. The first part with a foreign letter ends it, so a long text that begins with one is refused at once.
    fn all_known(&self, s: &[u8]) -> bool
        ensures { result ≡ letters_known (D.base self.now.digits) s.now }
    {
        for part in s.chunks(PART) {
            if !self.part_known(part) {
                return false;
            }
        }
        true
    }

    // The bits after the last byte are fewer than a letter has, and zero.
    fn well_ended(&self, s: &[u8]) -> bool
        ensures { result ≡ well_ended (D.base self.now.digits) s.now }
    {
        let spare = s.len() % 8 * D::BITS % 8;
        match s.last() {
            Some(c) => spare < D::BITS && self.digits.digit(*c) % (1 << spare) == 0,
            None => true,
        }
    }

    // The text `s`, with n letters before its padding, encodes bytes.
    fn is_text(&self, s: &[u8], n: usize) -> bool
        requires { (n ≡ letters_in s.now) × (n ≤ length s.now) }
        ensures { result ≡ is_text (D.base self.now.digits) s.now }
    {
        let letters = &s[..n];
        s.len() - n == fill_for(self.group, n)
            && self.well_ended(letters)
            && self.all_known(letters)
    }

    // Strict reader: writes the bytes of a text at a place; returns the place after them.
    // If the text is refused (wrong padding, foreign letter, unused bits not zero) or there is no room, the buffer is unchanged.
    pub(crate) fn decode(&self, s: &[u8], out: &mut [u8], at: usize) -> Result<usize, DecodeError>
        ensures { let read : _ = read_text (D.base self.now.digits) s.now in
            (result ≡ answer_of read out.old at) × (out.new ≡ buffer_of read out.old at) }
    {
        // No group has eight '='. Asked first, so that they are not counted where a text ends in many.
        if s.ends_with(b"========") {
            return Err(DecodeError::Refused);
        }
        let n = count_letters(s);
        if !self.is_text(s, n) {
            return Err(DecodeError::Refused);
        }
        if !has_room(out.len(), at, n / 8 * D::BITS + n % 8 * D::BITS / 8) {
            return Err(DecodeError::NoRoom);
        }
        Ok(self.put_bytes(&s[..n], out, at))
    }
}
