// Where a text goes, part after part: into an output, or only past the place where it would end.
ghost use Rattle.std.specs.Prelude.{◌≡◌, Bool, true, false, ℕ, List, replicate, Some};
ghost use Rattle.primitives.specs.Number.{bytes_of};
ghost use Rattle.primitives.specs.Base64.{encoding};
ghost use Rattle.primitives.specs.declared.base64.Alphabet.TheVariants.{Standard};
ghost use Rattle.exports.specs.Output.{moved, Out, Puts, Advanced, PutsAt, written_out, measured_out};

use journal::RefusedAt;
use primitives::{Alphabet, Refusal};

// A question that is asked before the first receipt or after the last.
pub(crate) fn refused(question: Refusal) -> RefusedAt
    ensures { result ≡ record { question = question; index = 0 } }
{
    RefusedAt { question, index: 0 }
}

pub(crate) trait Sink {
    // It writes; another one only measures.
    ghost writes: { Bool };

    ghost view: { Self → Out };

    fn put(&mut self, s: &[u8])
        ensures { Puts writes (view self.old) (view self.new) s.now };

    fn put_base64(&mut self, s: &[u8])
        ensures { Puts writes (view self.old) (view self.new) (encoding Standard s.now) };
}

// The place n bytes further, if it is in an output of this length.
#[tactic(auto, unfolding(crate::specs::Output::moved))]
pub(crate) fn moved(room: usize, place: Option<usize>, n: usize) -> Option<usize>
    ensures { result ≡ moved room place n }
{
    let end = place?.checked_add(n)?;
    (end <= room).then_some(end)
}

// Finds out where a text would end in an output of this length.
#[derive(Drop)]
pub(crate) struct Measure {
    room: usize,
    place: Option<usize>,
}

impl Measure {
    pub(crate) fn new(room: usize) -> Measure
        ensures { measured_out result ≡ record { lent = 0; bytes = replicate room 0; at = Some 0 } }
    {
        Measure {
            room,
            place: Some(0),
        }
    }

    // The place after all parts, if they fit.
    pub(crate) fn end(&self) -> Option<usize>
        ensures { result ≡ (measured_out self.now).at }
    {
        self.place
    }
}

impl Sink for Measure {
    ghost writes = { false };

    ghost view = { measured_out };

    fn put(&mut self, s: &[u8]) {
        self.place = moved(self.room, self.place, s.len());
    }

    fn put_base64(&mut self, s: &[u8]) {
        let n = primitives::base64_length(Alphabet::Standard, s);
        self.place = moved(self.room, self.place, n);
    }
}

// Writes a text into an output. What does not fit is left out.
#[derive(Drop)]
pub(crate) struct Writer<'a> {
    pub(crate) out: &'a mut [u8],
    pub(crate) place: Option<usize>,
}

impl<'a> Writer<'a> {
    // From the start of an output on.
    pub(crate) fn new(out: &'a mut [u8]) -> Writer<'a>
        ensures { written_out result ≡ record { lent = out.entry.ghost_name; bytes = out.entry.now; at = Some 0 } }
    {
        Writer {
            out,
            place: Some(0),
        }
    }

    // Moves the place n bytes further, and answers where these bytes stand, if they fit.
    pub(crate) fn advance(&mut self, n: usize) -> Option<usize>
        ensures { Advanced n (written_out self.old) (written_out self.new) result }
    {
        let at = self.place;
        self.place = moved(self.out.len(), at, n);
        self.place.and(at)
    }

    // Writes the n low bytes of a number, the highest first.
    pub(crate) fn put_count(&mut self, n: usize, x: usize)
        ensures { Puts true (written_out self.old) (written_out self.new) (bytes_of n x) }
    {
        if let Some(at) = self.advance(n) {
            let _ = receipt::put_number(self.out, at, n, x as u64);
        }
    }

    // Writes four bytes of a number at a place before.
    pub(crate) fn put_count_at(&mut self, place: Option<usize>, x: usize)
        ensures { PutsAt place (written_out self.old) (written_out self.new) (bytes_of 4 x) }
    {
        if let Some(at) = place {
            let _ = receipt::put_number(self.out, at, 4, x as u64);
        }
    }
}

impl Sink for Writer<'_> {
    ghost writes = { true };

    ghost view = { written_out };

    fn put(&mut self, s: &[u8]) {
        if let Some(at) = self.advance(s.len()) {
            let _ = receipt::put(self.out, at, s);
        }
    }

    fn put_base64(&mut self, s: &[u8]) {
        let n = primitives::base64_length(Alphabet::Standard, s);
        if let Some(at) = self.advance(n) {
            let _ = primitives::base64_encode(Alphabet::Standard, s, self.out, at);
        }
    }
}
