// Why a call is refused: the first question that is answered "no". Each has the number that the calls from C return.
ghost use Rattle.std.specs.Prelude.{◌≡◌};
ghost use Rattle.primitives.specs.Refusals.{number_of, answer_number};

#[derive(Clone, Copy, PartialEq, Eq)]
pub enum Refusal {
    BadCsp = 1,
    BadId = 2,
    BadSerial = 3,
    BadWidth = 4,
    HeadTooLong = 5,
    BadState = 6,
    NumberNotAbove = 7,
    BadDate = 8,
    BadAmount = 9,
    NoStart = 10,
    CounterFull = 11,
    BadSignature = 12,
    NoRoom = 13,
    BadHead = 14,
    EntryCut = 15,
    EntryMisspelled = 16,
    EntryNumber = 17,
    EntryNoStart = 18,
    EntryChain = 19,
    EntryCounter = 20,
    BytesLeft = 21,
    BadForm = 22,
    OutputShort = 23,
    BadCode = 24,
    BadFields = 26,
    BadLine = 27,
    BadExport = 28,
    NoReceipts = 29,
    SerialUsed = 30,
    SerialsFull = 31,
    IdEndsInDigit = 32,
}

impl Refusal {
    // The number of the question.
    pub fn number(self) -> u32
        ensures { result ≡ number_of self }
    {
        self as u32
    }
}

// The number that a call returns: 0, or that of the question answered "no".
pub fn answer_number<T>(answer: &Result<T, Refusal>) -> u32
    ensures { result ≡ answer_number answer.now }
{
    match answer {
        Ok(_) => 0,
        Err(refusal) => refusal.number(),
    }
}
