//! Files that own their bytes.
use crate::file::File;
pub use crate::file::{names, questions};

/// A file that owns its bytes: the same dialogue as that of the bytes where they lie.
pub type Stored = File<Vec<u8>>;
