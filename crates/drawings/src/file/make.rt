//! Opening a file.
ghost use Rattle.std.specs.Prelude.{◌≡◌};
ghost use Rattle.tables.specs.Files.{Layout, filed, file_table};
ghost use Rattle.drawings.specs.Opened.{opened};

use crate::checks::{Outline, read_file};
use crate::file::File;
use std::convert::AsSlice;

impl<B: AsSlice<u8>> File<B> {
    /// The dialogue of a good file that was read.
    pub(crate) fn open(bytes: B, outline: Outline) -> File<B>
        requires { Layout (B.items bytes) outline.states outline.events outline.presses }
        ensures { opened result ≡ filed (B.items bytes) outline.states outline.events outline.presses }
    {
        File { bytes, outline }
    }

    /// The dialogue of a file's bytes.
    pub fn new(bytes: B) -> File<B>
        ensures { opened result ≡ file_table (B.items bytes) }
    {
        let outline = read_file(bytes.as_slice()).unwrap_or(Outline {
            states: 0,
            events: 0,
            presses: 0,
        });
        File { bytes, outline }
    }
}
