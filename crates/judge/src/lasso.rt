//! Lassos: a list of entries and a lead-in that stand for an endless journey.
ghost use Rattle.std.specs.Prelude.{◌≡◌, ◌<◌};
ghost use Rattle.lassos.specs.Lasso.{after, place, entry};

/// The shape of a lasso: how many positions it has, and the position at which its loop begins.
#[derive(Clone, Copy)]
pub(crate) struct Shape {
    pub(crate) count: usize,
    pub(crate) lead_in: usize,
    ghost inside: { lead_in < count },
}

impl Shape {
    /// The position after a position: the next one, and after the last the first of the loop.
    pub(crate) fn after(self, position: usize) -> usize
        requires { position < self.count }
        ensures { result ≡ after self.count self.lead_in position }
    {
        let next = position + 1;
        if next == self.count {
            return self.lead_in;
        }
        next
    }

    /// The position of a step of the journey.
    fn place(self, step: usize) -> usize
        ensures is { result ≡ place self.count self.lead_in step }
        ensures within { result < self.count }
    {
        if step < self.count {
            step
        } else {
            self.lead_in + (step - self.lead_in) % (self.count - self.lead_in)
        }
    }
}

/// The entry that a step of the journey reads: the entries in their order, and after the last one back to the entry
/// at the lead-in. None where the lead-in is not below the number of entries.
pub fn at_step<T: Copy>(entries: &[T], lead_in: usize, step: usize) -> Option<T>
    ensures { result ≡ entry entries.now lead_in step }
{
    let count = entries.len();
    if lead_in < count {
        let shape = Shape { count, lead_in };
        Some(entries[shape.place(step)])
    } else {
        None
    }
}
