//! The names of a file's events.
ghost use Rattle.tables.specs.Files.{file_name};

use crate::file::File;
use dialogues::name::Name;
use dialogues::named::Named;
use std::convert::AsSlice;

/// Event e is named E and its decimal number.
impl<B: AsSlice<u8>> Named for File<B> {
    ghost names = { λ f e. file_name f.outline.events e };

    fn name(&self, event: usize) -> Option<Name> {
        if event >= self.outline.events {
            return None;
        }
        let number = event as u8;
        if number < 10 {
            Name::new(&[b'E', b'0' + number])
        } else {
            Name::new(&[b'E', b'0' + number / 10, b'0' + number % 10])
        }
    }
}
