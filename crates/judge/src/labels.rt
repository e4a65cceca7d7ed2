//! Where a journey's labels lie: in a slice of numbers, or in bytes as a C caller has them.
ghost use Rattle.std.specs.Prelude.{◌≡◌, ℕ, List, length, slice_index};
ghost use Rattle.lassos.specs.Bytes.{byte_labels};

/// A list of labels, lent. Bit 0 of a label is letter a, bit 15 letter p.
pub trait Labels: Copy {
    ghost list: { Self → List ℕ };

    /// How many labels there are.
    fn count(&self) -> usize
        ensures { result ≡ length (list self.now) };

    /// The label at a position; 0 past the last.
    fn label(&self, position: usize) -> u16
        ensures { result ≡ slice_index (list self.now) position };
}

impl<'a> Labels for &'a [u16] {
    ghost list = { λ s. s.now };

    fn count(&self) -> usize {
        self.len()
    }

    fn label(&self, position: usize) -> u16 {
        self.get(position).copied().unwrap_or(0)
    }
}

/// Labels as bytes: two for each label, the least first. An odd last byte does not count.
#[derive(Clone, Copy)]
pub struct LabelBytes<'a> {
    pub bytes: &'a [u8],
}

impl<'a> Labels for LabelBytes<'a> {
    ghost list = { λ b. byte_labels b.bytes.now };

    fn count(&self) -> usize {
        self.bytes.len() / 2
    }

    fn label(&self, position: usize) -> u16 {
        let bytes = self.bytes;
        if position < bytes.len() / 2 {
            u16::from_le_bytes([bytes[2 * position], bytes[2 * position + 1]])
        } else {
            0
        }
    }
}
