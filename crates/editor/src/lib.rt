//! What an editor written in C calls, by way of `editor_c`: rule texts read, and journeys judged, with one number as the answer. Nothing
//! here allocates, and the search is not part of it.
#![tactic(auto)]

ghost use Rattle.std.specs.Prelude.{◌≡◌, ◌<◌, false, length, is_ok};
ghost use Rattle.editor.specs.Numbers.{ReadNumber, JudgedText, JudgeNumber};

use faults::Fault;
use judge::judge;
use judge::labels::LabelBytes;
use rules::read;

/// Reads a rule text. 1 for a rule; else the refusal, as cause * 65,536 + place.
pub fn presscheck_read(text: &[u8]) -> u32
    ensures { ReadNumber text.now result }
{
    match read(text) {
        Ok(_) => 1,
        Err(fault) => fault.code(),
    }
}

/// Judges a journey by a rule text. The labels are two bytes each, the least first, and an odd last byte does not
/// count. 1 for true, 0 for false; else the refusal, as cause * 65,536 + place: the text's first, then the judge's.
pub fn presscheck_judge(text: &[u8], labels: &[u8], lead_in: usize, work: &mut [u8]) -> u32
    ensures answer { JudgeNumber text.now labels.now lead_in (length work.old) result }
    ensures unchanged { 1 < result → work.new ≡ work.old }
{
    match judge_text(text, labels, lead_in, work) {
        Ok(true) => 1,
        Ok(false) => 0,
        Err(fault) => fault.code(),
    }
}

fn judge_text(text: &[u8], labels: &[u8], lead_in: usize, work: &mut [u8]) -> Result<bool, Fault>
    ensures answer { JudgedText text.now labels.now lead_in (length work.old) result }
    ensures unchanged { is_ok result ≡ false → work.new ≡ work.old }
{
    let rule = read(text)?;
    judge(&rule, &LabelBytes { bytes: labels }, lead_in, work)
}
