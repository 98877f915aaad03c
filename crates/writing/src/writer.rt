// A writer over a lent buffer.
ghost use Rattle.std.specs.Prelude.{[], ◌∷◌};
ghost use Rattle.writing.specs.Writing.{Writes};

// What goes into a lent buffer from its start, as far as that has room.
// Kept: a buffer with a count beside it, since the count goes on where the buffer ends: a first pass counts over no buffer.
#[derive(Drop)]
pub struct Writer<'a> {
    pub(crate) out: &'a mut [u8],
    // how many bytes were written, those too that had no room
    pub(crate) at: usize,
}

impl Writer<'_> {
    // One byte more.
    // Kept: by index after a test: `if let` with `get_mut` is no plainer and needs an answer by hand.
    pub fn put(&mut self, b: u8)
        ensures { Writes self.old (b ∷ []) self.new }
    {
        if self.at < self.out.len() {
            self.out[self.at] = b;
        }
        self.at = self.at.saturating_add(1);
    }

    // The bytes of `text`.
    pub fn word(&mut self, text: &[u8])
        ensures { Writes self.old text.now self.new }
    {
        for b in text {
            self.put(*b);
        }
    }
}
