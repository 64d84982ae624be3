// A register's day on the screen: it is opened, receipts are issued, one by one and as a list, the certificate is changed, the journal is taken over, and a
// broken one is refused.
#![tactic(auto)]

ghost use Rattle.std.specs.Prelude.{◌≡◌, ◌∷◌, []};
ghost use Rattle.journal.specs.Listing.{issued_list, list_buffer};
ghost use Rattle.journal.specs.State.{as_issued_list};

use journal::{IssuedList, State};
use primitives::Alphabet;
use receipt::{DateTime, Details, Kind, LONGEST_CODE, Settings};
use std::io;
use std::io::Write;

// The bytes of the buffer that holds the journal.
const ROOM: usize = 4096;

// A receipt of the day.
fn details(number: u32, minute: u32, amounts: [i64; 5], kind: Kind) -> Details {
    Details {
        number,
        date: DateTime {
            year: 2026,
            month: 11,
            day: 15,
            hour: 8,
            minute,
            second: 0,
        },
        amounts,
        kind,
    }
}

// Issues three receipts in one call, all with a failed device.
fn issue_three(st: State, a: Details, b: Details, c: Details, buf: &mut [u8]) -> IssuedList
    ensures { (as_issued_list result ≡ issued_list st (a ∷ b ∷ c ∷ []) buf.old) × (buf.new ≡ list_buffer st (a ∷ b ∷ c ∷ []) buf.old) }
{
    journal::issue_list(st, &[a, b, c], buf)
}

// The register, the buffer of its journal, and what its day is shown on.
#[derive(Drop)]
struct Day<'a, W> {
    out: &'a mut W,
    buf: &'a mut [u8],
    st: State,
}

impl<'a, W: Write> Day<'a, W> {
    // The machine-readable code of the compact form between two places of the journal.
    fn show_code(&mut self, a: usize, e: usize) -> io::Result<()> {
        let Some(form) = self.buf.get(a..e) else {
            return Ok(());
        };
        let mut code = [0u8; LONGEST_CODE];
        let length = receipt::code(form, &mut code).unwrap_or(0);
        write!(self.out, "  code ")?;
        printing::first(self.out, &code, length)?;
        writeln!(self.out)
    }

    // The chain value, in hexadecimal and as the next receipt spells it.
    fn show_chain(&mut self) -> io::Result<()> {
        let mut spelled = [0u8; 12];
        primitives::base64_encode(Alphabet::Standard, &self.st.chain, &mut spelled, 0);
        write!(self.out, " cents, chain value ")?;
        printing::eight(self.out, &self.st.chain)?;
        write!(self.out, ", spelled ")?;
        printing::text(self.out, &spelled)?;
        writeln!(self.out)
    }

    // The state after a receipt.
    fn show_state(&mut self) -> io::Result<()> {
        write!(
            self.out,
            "  number {}, counter {}",
            self.st.last, self.st.counter
        )?;
        self.show_chain()
    }

    // The five amounts of a receipt: standard, reduced 1, reduced 2, zero, special.
    fn show_amounts(&mut self, amounts: [i64; 5]) -> io::Result<()> {
        write!(self.out, "  amounts")?;
        for z in amounts {
            write!(self.out, " {z}")?;
        }
        writeln!(self.out, " cents")
    }

    // Issues a receipt and shows what came of it.
    fn issue(&mut self, title: &str, d: Details, signature: &[u8]) -> io::Result<()> {
        writeln!(self.out, "{title}")?;
        let at = self.st.length;
        match journal::issue(self.st, d, signature, self.buf) {
            Ok(after) => self.st = after,
            Err(refusal) => return writeln!(self.out, "  refused {}", refusal.number()),
        }
        self.show_state()?;
        self.show_amounts(d.amounts)?;
        if at < ROOM {
            self.show_code(at + 2, self.st.length)?;
        }
        Ok(())
    }

    // Changes the certificate and shows what came of it.
    fn change(&mut self, title: &str, serial: &str) -> io::Result<()> {
        writeln!(self.out, "{title}")?;
        match journal::change(self.st, receipt::name_of(serial.as_bytes()), self.buf) {
            Ok(after) => {
                self.st = after;
                writeln!(self.out, "  receipts now name serial {serial}")
            }
            Err(refusal) => writeln!(self.out, "  refused {}", refusal.number()),
        }
    }

    // Issues three receipts in one call, all with a failed device, and shows what came of it.
    fn issue_together(&mut self, title: &str, list: [Details; 3]) -> io::Result<()> {
        let [a, b, c] = list;
        let issued = issue_three(self.st, a, b, c, self.buf);
        self.st = issued.state;
        writeln!(self.out, "{title}")?;
        write!(self.out, "  issued {}", issued.count)?;
        if let Some(refusal) = issued.refused {
            write!(self.out, ", then refused {}", refusal.number())?;
        }
        writeln!(self.out)?;
        self.show_state()
    }

    // What a take-over of the journal answers.
    fn take_over(&mut self, title: &str, key: [u8; 32]) -> io::Result<()> {
        writeln!(self.out, "{title}")?;
        let n = self.st.length;
        let Some(bytes) = self.buf.get(..n) else {
            return Ok(());
        };
        match journal::take_over(bytes, key, 8) {
            Ok(st) => writeln!(
                self.out,
                "  accepted, {} receipts, counter {} cents",
                st.issued, st.counter
            ),
            Err(refused) => writeln!(
                self.out,
                "  refused {} at entry {}",
                refused.question.number(),
                refused.index
            ),
        }
    }

    // The start receipt and a sale.
    fn morning(&mut self) -> io::Result<()> {
        let sign = [0x5au8; 64];
        self.issue(
            "start receipt",
            details(1, 0, [0, 0, 0, 0, 0], Kind::Standard),
            &sign,
        )?;
        self.issue(
            "a sale at three rates",
            details(2, 5, [1050, 450, 0, 78, 0], Kind::Standard),
            &sign,
        )
    }

    // A cancellation and a training receipt.
    fn noon(&mut self) -> io::Result<()> {
        let sign = [0xa5u8; 64];
        self.issue(
            "a cancellation",
            details(3, 6, [-1050, 0, 0, 0, 0], Kind::Cancellation),
            &sign,
        )?;
        self.issue(
            "a training receipt",
            details(4, 9, [9900, 0, 0, 0, 0], Kind::Training),
            &sign,
        )
    }

    // The device fails, and a number is used twice.
    fn evening(&mut self) -> io::Result<()> {
        self.issue(
            "a sale while the signature device has failed",
            details(5, 30, [0, 320, 0, 0, 0], Kind::Standard),
            b"",
        )?;
        self.issue(
            "the same number again",
            details(5, 31, [100, 0, 0, 0, 0], Kind::Standard),
            b"",
        )
    }

    // The certificate is changed, a receipt names the new serial, and the old one cannot come back.
    fn night(&mut self) -> io::Result<()> {
        self.change("a new certificate", "4d5e6f")?;
        self.issue(
            "a sale under the new certificate",
            details(6, 40, [0, 0, 275, 0, 0], Kind::Standard),
            &[0x3cu8; 64],
        )?;
        self.change("the old certificate again", "1a2b3c")
    }

    // A table's orders were keyed while the signature device was down: they are issued together, up to the first that is refused.
    fn closing_time(&mut self) -> io::Result<()> {
        self.issue_together(
            "three orders of a table, keyed while the signature device was down",
            [
                details(7, 50, [0, 890, 0, 0, 0], Kind::Standard),
                details(8, 51, [0, 420, 0, 0, 0], Kind::Standard),
                details(9, 52, [0, -420, 0, 0, 0], Kind::Cancellation),
            ],
        )?;
        self.issue_together(
            "three more, two of them with the same number",
            [
                details(10, 55, [0, 360, 0, 0, 0], Kind::Standard),
                details(10, 56, [0, 240, 0, 0, 0], Kind::Standard),
                details(11, 57, [0, 180, 0, 0, 0], Kind::Standard),
            ],
        )
    }

    // One letter changed into another one of BASE64-URL.
    fn flip(&mut self, at: usize) {
        if let Some(letter) = self.buf.get_mut(at) {
            *letter ^= 1;
        }
    }
}

fn main(rt: HostRuntime) -> io::Result<()> {
    let key = [7u8; 32];
    let mut buf = [0u8; ROOM];
    let s = Settings {
        csp: *b"AT0",
        id: receipt::name_of(b"SHOP-1"),
        serial: receipt::name_of(b"1a2b3c"),
    };
    let st = journal::open(s, key, false, 8, &mut buf).unwrap_or(journal::unopened());
    let mut day = Day {
        out: &mut io::writer(&rt),
        buf: &mut buf,
        st,
    };
    writeln!(day.out, "register SHOP-1 opened")?;
    day.morning()?;
    day.noon()?;
    day.evening()?;
    day.night()?;
    day.closing_time()?;
    day.take_over("the journal is taken over", key)?;
    day.flip(190);
    day.take_over(
        "one letter of the first receipt's signature is changed: the second receipt's chain field no longer matches",
        key,
    )
}
