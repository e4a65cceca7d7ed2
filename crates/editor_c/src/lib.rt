//! The functions of `editor` under the names that C links. The header is `include/presscheck.h`.
#![tactic(auto)]

ghost use Rattle.std.specs.Prelude.{◌≡◌, ◌<◌, length};
ghost use Rattle.editor.specs.Numbers.{ReadNumber, JudgeNumber};

/// Reads a rule text. 1 for a rule; else the refusal, as cause * 65,536 + place.
#[unsafe(no_mangle)]
pub extern "C" fn presscheck_read(text: &[u8]) -> u32
    ensures { ReadNumber text.now result }
{
    editor::presscheck_read(text)
}

/// Judges a journey by a rule text. The labels are two bytes each, the least first, and an odd last byte does not
/// count. 1 for true, 0 for false; else the refusal, as cause * 65,536 + place: the text's first, then the judge's.
#[unsafe(no_mangle)]
pub extern "C" fn presscheck_judge(
    text: &[u8],
    labels: &[u8],
    lead_in: usize,
    work: &mut [u8],
) -> u32
    ensures answer { JudgeNumber text.now labels.now lead_in (length work.old) result }
    ensures unchanged { 1 < result → work.new ≡ work.old }
{
    editor::presscheck_judge(text, labels, lead_in, work)
}
