// The export for an inspector, written and read.
ghost use Rattle.std.specs.Prelude.{◌≡◌, length};
ghost use Rattle.device.specs.Layout.{kept};
ghost use Rattle.device.specs.Inspection.{export_answer, export_output, read_answer, read_output};

use super::answers::{tell, tell_index};
use super::layout::{STATE, keep};
use super::register::{array_of, width_with};
use primitives::Refusal;

// Takes a journal over and writes it with its certificates as an export. Questions 4, 14 to 21, 30 and 31, then 28 and 23.
#[unsafe(no_mangle)]
pub extern "C" fn ditgrux_export(
    journal: &[u8],
    key: &[u8],
    width: usize,
    certificates: &[u8],
    output: &mut [u8],
    length: &mut usize,
    index: &mut u32,
) -> u32
    ensures { (result ≡ (export_answer journal.now key.now width certificates.now output.old).number)
        × (output.new ≡ export_output journal.now key.now width certificates.now output.old)
        × (length.new ≡ (export_answer journal.now key.now width certificates.now output.old).length)
        × (index.new ≡ (export_answer journal.now key.now width certificates.now output.old).index) }
{
    let written = exports::export(
        journal,
        array_of(key),
        width_with(key, width),
        certificates,
        output,
    );
    tell(tell_index(written, index), length)
}

// Reads an export, writes the journal that it spells and the state that it leads to. 6 if the state is not 447 bytes long, then questions 28, 29, 28
// and 23, and those of Take over.
#[unsafe(no_mangle)]
pub extern "C" fn ditgrux_read_export(
    text: &[u8],
    key: &[u8],
    width: usize,
    output: &mut [u8],
    state: &mut [u8],
    length: &mut usize,
    index: &mut u32,
) -> u32
    ensures { (result ≡ (read_answer text.now key.now width output.old state.old).number)
        × (output.new ≡ read_output text.now key.now width output.old state.old)
        × (state.new ≡ kept state.old (read_answer text.now key.now width output.old state.old).state)
        × (length.new ≡ (read_answer text.now key.now width output.old state.old).length)
        × (index.new ≡ (read_answer text.now key.now width output.old state.old).index) }
{
    if state.len() != STATE {
        *length = 0;
        *index = 0;
        return Refusal::BadState.number();
    }
    match exports::read_export(text, array_of(key), width_with(key, width), output) {
        Ok(restored) => {
            keep(restored.state, state);
            *length = restored.length;
            *index = 0;
            0
        }
        Err(refused) => {
            keep(journal::unopened(), state);
            *length = 0;
            *index = refused.index;
            refused.question.number()
        }
    }
}
