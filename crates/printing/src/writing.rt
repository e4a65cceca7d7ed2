//! Lines put into a lent list, one behind another.
ghost use Rattle.std.specs.Prelude.{◌≡◌, ◌+◌, ◌≤◌, ◌++◌, length, take, drop, nat_le};
ghost use Rattle.std.specs.List.{flat_map};
ghost use Rattle.arrayvec.specs.ArrayVec.{array_vec_len};
ghost use Rattle.printing.specs.Text.{entry_line};

use crate::answer::entry_line;
use crate::line::Line;
use dialogues::named::Named;
use unfolding::Press;

/// Whether the lines of these entries need no more than so many bytes.
pub(crate) fn entries_fit<D: Named>(entries: &[Press], dialogue: &D, room: usize) -> bool
    ensures { result ≡ nat_le (length (flat_map (entry_line (D.Named.names dialogue.now)) entries.now)) room }
{
    let mut left = room;
    for entry in entries {
        match left.checked_sub(entry_line(*entry, dialogue).len()) {
            Some(less) => left = less,
            None => return false,
        }
    }
    true
}

/// Writes the lines of these entries from the place `start` on, and answers the place behind them.
pub(crate) fn put_entries<D: Named>(
    entries: &[Press],
    dialogue: &D,
    out: &mut [u8],
    start: usize,
) -> usize
    requires { start + length (flat_map (entry_line (D.Named.names dialogue.now)) entries.now) ≤ length out.old }
    ensures end { result ≡ start + length (flat_map (entry_line (D.Named.names dialogue.now)) entries.now) }
    ensures bytes { out.new ≡ take start out.old ++ (flat_map (entry_line (D.Named.names dialogue.now)) entries.now ++ drop result out.old) }
{
    let mut at = start;
    for entry in entries {
        at = put_line(&entry_line(*entry, dialogue), out, at);
    }
    at
}

/// Writes a line from the place `at` on, and answers the place behind it.
pub(crate) fn put_line(line: &Line, out: &mut [u8], at: usize) -> usize
    requires { at + array_vec_len line.now ≤ length out.old }
    ensures end { result ≡ at + array_vec_len line.now }
    ensures bytes { out.new ≡ take at out.old ++ (line.now.items ++ drop result out.old) }
{
    let bytes = line.as_slice();
    let end = at + bytes.len();
    out[at..end].copy_from_slice(bytes);
    end
}
