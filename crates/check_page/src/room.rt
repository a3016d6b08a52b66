//! How many pictures the page may have.

/// How many pictures the page may still have, and how many bytes they may take.
#[derive(Clone, Copy, PartialEq, Eq)]
pub(crate) struct PictureRoom {
    /// How many pictures may still be written.
    pictures: usize,
    /// How many bytes they may take in all.
    bytes: usize,
    /// How many pictures are left out.
    pub(crate) left_out: u64,
}

impl PictureRoom {
    /// Room for so many pictures, of so many bytes in all.
    pub(crate) fn of(pictures: usize, bytes: usize) -> PictureRoom {
        PictureRoom {
            pictures,
            bytes,
            left_out: 0,
        }
    }

    /// Whether there is room for a picture of some size. If not, it is counted as left out, and there is no room for a later one.
    pub(crate) fn take(&mut self, size: usize) -> bool {
        if self.is_full() || size > self.bytes {
            self.pictures = 0;
            self.leave_out();
            return false;
        }
        self.pictures = self.pictures.saturating_sub(1);
        self.bytes = self.bytes.saturating_sub(size);
        true
    }

    /// Whether there is no room for another picture, so that it need not be drawn.
    pub(crate) fn is_full(&self) -> bool {
        self.pictures == 0
    }

    /// Counts a picture that is left out.
    pub(crate) fn leave_out(&mut self) {
        self.left_out = self.left_out.saturating_add(1);
    }
}
