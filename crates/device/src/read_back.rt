// A receipt read back: the details and the signature of one compact form.
ghost use Rattle.std.specs.Prelude.{◌≡◌, cond, [], length, IfOk, Some};
ghost use Rattle.primitives.specs.Refusals.{answer_number};
ghost use Rattle.receipt.specs.Compact.{as_found};
ghost use Rattle.primitives.specs.Place.{overwrite};
ghost use Rattle.device.specs.ReadBack.{read_number, read_back};

use super::details::{DETAILS, put_details};
use super::layout::{settings_of, width_of};
use primitives::Refusal;
use receipt::{Entry, Settings, Signature};

// A signature is 64 bytes long.
const SIGNATURE: usize = 64;

// Questions 1 to 4 of the settings, 16 of the form, then 23 for outputs of these lengths.
fn ask_read(
    s: Settings,
    n: usize,
    found: Option<Entry>,
    details: usize,
    signature: usize,
) -> Result<Entry, Refusal>
    ensures number { answer_number result ≡ read_number s n (as_found found).ok details signature }
    ensures entry { IfOk result (λ e. found ≡ Some e) }
{
    receipt::ask_settings(s, n)?;
    let Some(entry) = found else {
        return Err(Refusal::EntryMisspelled);
    };
    if details != DETAILS || signature != SIGNATURE {
        return Err(Refusal::OutputShort);
    }
    Ok(entry)
}

// Writes the signature that was given and returns its length; writes nothing if the device had failed.
fn put_signature(g: Signature, out: &mut [u8]) -> usize
    requires { length out.old ≡ 64 }
    ensures { (result ≡ length (cond g.failed [] g.bytes)) × (out.new ≡ overwrite out.old 0 (cond g.failed [] g.bytes)) }
{
    if g.failed {
        return 0;
    }
    receipt::put(out, 0, &g.bytes)
}

// Writes the details and the signature of a compact form. Questions 1 to 4, 16 and 23.
#[unsafe(no_mangle)]
pub extern "C" fn ditgrux_read(
    settings: &[u8],
    form: &[u8],
    details: &mut [u8],
    signature: &mut [u8],
    length: &mut usize,
) -> u32
    ensures { (result ≡ (read_back settings.now form.now details.old signature.old).number)
        × (details.new ≡ (read_back settings.now form.now details.old signature.old).details)
        × (signature.new ≡ (read_back settings.now form.now details.old signature.old).signature)
        × (length.new ≡ (read_back settings.now form.now details.old signature.old).length) }
{
    let s = settings_of(settings);
    let n = width_of(settings);
    let found = receipt::read_entry(s, n, form);
    match ask_read(s, n, found, details.len(), signature.len()) {
        Ok(entry) => {
            put_details(entry.fields.details, details);
            *length = put_signature(entry.signature, signature);
            0
        }
        Err(refusal) => {
            *length = 0;
            refusal.number()
        }
    }
}
