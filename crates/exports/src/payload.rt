// The payload of a receipt, read where it lies in BASE64-URL, byte by byte, since it may be of any size.
ghost use Rattle.std.specs.Prelude.{◌≡◌, true, false, ◌≤◌, ◌<◌, length, get_or, MatchOption};
ghost use Rattle.primitives.specs.Base64.{accepted, bytes};
ghost use Rattle.primitives.specs.declared.base64.Alphabet.TheVariants.{UrlSafe};
ghost use Rattle.receipt.specs.Texts.{separator};
ghost use Rattle.receipt.specs.Form.{next_at, part};
ghost use Rattle.receipt.specs.Line.{count_of};
ghost use Rattle.receipt.specs.Settings.{name_of};
ghost use Rattle.exports.specs.Naming.{field_of};
ghost use Rattle.exports.specs.Running.{PayloadPlace};

use primitives::{Alphabet, DecodeError};
use receipt::Name;

// Its letters, which are canonical BASE64-URL.
#[derive(Clone, Copy)]
pub(crate) struct Payload<'a> {
    letters: &'a [u8],
    ghost canonical: { accepted UrlSafe letters.now ≡ true },
}

impl<'a> Payload<'a> {
    // Letters as a payload, if they are canonical.
    pub(crate) fn new(letters: &'a [u8]) -> Option<Payload<'a>>
        ensures { MatchOption result (accepted UrlSafe letters.now ≡ false) (λ p. p.letters.now ≡ letters.now) }
    {
        let mut none = [0u8; 1];
        let answer = primitives::base64_decode(Alphabet::UrlSafe, letters, &mut none, 1);
        if answer == Err(DecodeError::Refused) {
            return None;
        }
        Some(Payload { letters })
    }

    // How many bytes the letters spell.
    pub(crate) fn len(&self) -> usize
        ensures { result ≡ length (bytes UrlSafe self.now.letters.now) }
    {
        let n = self.letters.len();
        n / 4 * 3 + n % 4 * 3 / 4
    }

    // The byte at a place: it is spelled in the group of four letters that has its number.
    pub(crate) fn byte(&self, i: usize) -> u8
        requires { i < length (bytes UrlSafe self.now.letters.now) }
        ensures { result ≡ get_or (bytes UrlSafe self.now.letters.now) i 0 }
    {
        let mut three = [0u8; 3];
        let from_group = &self.letters[i / 3 * 4..];
        let group = &from_group[..from_group.len().min(4)];
        let _ = primitives::base64_decode(Alphabet::UrlSafe, group, &mut three, 0);
        three[i % 3]
    }

    // The place of the next '_' from a place on; the payload's length if there is none.
    fn next_mark(&self, from: usize) -> usize
        requires { from ≤ length (bytes UrlSafe self.now.letters.now) }
        ensures at { result ≡ next_at separator (bytes UrlSafe self.now.letters.now) from }
        ensures inside { result ≤ length (bytes UrlSafe self.now.letters.now) }
    {
        let n = self.len();
        for i in from..n {
            if self.byte(i) == b'_' {
                return i;
            }
        }
        n
    }

    // The place after the first k '_'.
    fn skip_marks(&self, k: usize) -> usize
        ensures { PayloadPlace (bytes UrlSafe self.now.letters.now) k result }
    {
        let n = self.len();
        let mut p: usize = 0;
        for _ in 0..k {
            p = self.next_mark(p);
            if p < n {
                p += 1;
            }
        }
        p
    }

    // How many '_' there are.
    pub(crate) fn count_marks(&self) -> usize
        ensures { result ≡ count_of separator (bytes UrlSafe self.now.letters.now) }
    {
        let mut count: usize = 0;
        for i in 0..self.len() {
            if self.byte(i) == b'_' {
                count += 1;
            }
        }
        count
    }

    // The name from the place a up to the place e; if it is over 32 bytes long, the first 32 are copied, and the length makes the name bad.
    fn name(&self, a: usize, e: usize) -> Name
        requires ordered { a ≤ e }
        requires inside { e ≤ length (bytes UrlSafe self.now.letters.now) }
        ensures { result ≡ name_of (part a e (bytes UrlSafe self.now.letters.now)) }
    {
        let len = e - a;
        let mut bytes = [0u8; 32];
        for i in 0..len.min(32) {
            bytes[i] = self.byte(a + i);
        }
        Name { bytes, len }
    }

    // The field after the first k '_', as a name.
    pub(crate) fn field(&self, k: usize) -> Name
        ensures { result ≡ name_of (field_of k (bytes UrlSafe self.now.letters.now)) }
    {
        let a = self.skip_marks(k);
        self.name(a, self.next_mark(a))
    }
}
