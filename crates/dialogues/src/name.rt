//! Names of events.
ghost use Rattle.std.specs.Prelude.{◌<◌, ◌≤◌};

mod methods;

/// The name of an event: 1 to 8 bytes.
#[derive(Clone, Copy)]
pub struct Name {
    bytes: [u8; 8],
    len: usize,
    ghost some: { 0 < len },
    ghost few: { len ≤ 8 },
}
