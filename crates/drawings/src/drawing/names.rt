//! The names of a drawing's events.
ghost use Rattle.std.specs.Prelude.{◌≡◌};
ghost use Rattle.tables.specs.Drawings.{key_name};

use crate::drawing::Drawing;
use dialogues::name::Name;
use dialogues::named::Named;

/// What stands on the key of each event.
fn key(event: usize) -> &'static [u8]
    ensures { result.now ≡ key_name event }
{
    match event {
        0 => b"Service",
        1 => b"Adult",
        2 => b"Child",
        3 => b"Return",
        4 => b"Single",
        5 => b"Card",
        6 => b"Lift",
        7 => b"Tag",
        8 => b"Cash",
        9 => b"Change",
        10 => b"Print",
        11 => b"Cancel",
        12 => b"Stage",
        13 => b"Login",
        14 => b"Logout",
        15 => b"Timeout",
        _ => b"",
    }
}

impl Named for Drawing {
    ghost names = { λ _. key_name };

    fn name(&self, event: usize) -> Option<Name> {
        Name::new(key(event))
    }
}
