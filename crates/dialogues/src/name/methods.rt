//! Making and reading names.
ghost use Rattle.std.specs.Prelude.{◌≡◌, is_some};
ghost use Rattle.dialogues.specs.Names.{fits_name, fit_name, name_bytes, spelled};

use crate::name::Name;

impl Name {
    /// The name of these bytes, if they are 1 to 8.
    pub fn new(text: &[u8]) -> Option<Name>
        ensures exists { is_some result ≡ fits_name text.now }
        ensures spells { spelled result ≡ fit_name text.now }
    {
        let len = text.len();
        if len == 0 || len > 8 {
            return None;
        }
        let mut bytes = [0; 8];
        bytes[0..len].copy_from_slice(text);
        Some(Name { bytes, len })
    }

    /// The bytes of the name.
    pub fn as_bytes(&self) -> &[u8]
        ensures { result.now ≡ name_bytes self.now }
    {
        &self.bytes[0..self.len]
    }
}
