// The line that the input has begun and not ended: at most 81 of its bytes. The 81st says that it is too long, whatever follows.
ghost use Rattle.std.specs.Prelude.{◌≡◌, ◌==◌};
ghost use Rattle.text.specs.Fields.{same_bytes};
ghost use Rattle.session_lines.specs.Kept.{keep_all, keep_of, line_in, nothing_kept};

#[derive(Clone, Copy)]
pub struct Kept {
    pub bytes: [u8; 81],
    pub count: usize,
}

impl Kept {
    #[tactic(auto, unfolding(crate::specs::Kept::nothing_kept))]
    pub fn nothing() -> Kept
        ensures { result ≡ nothing_kept }
    {
        Kept {
            bytes: [0u8; 81],
            count: 0,
        }
    }

    // Any count is taken: above 81 all the bytes are the line.
    pub(crate) fn as_slice(&self) -> &[u8]
        ensures { result.now ≡ line_in self.now }
    {
        &self.bytes[..self.count.min(self.bytes.len())]
    }

    pub fn is_empty(&self) -> bool
        ensures { result ≡ (self.now.count == 0) }
    {
        self.count == 0
    }

    // Whether the line is this word.
    pub fn says(&self, word: &[u8]) -> bool
        ensures { result ≡ same_bytes (line_in self.now) word.now }
    {
        let line = self.as_slice();
        text::same(line, 0, line.len(), word)
    }

    #[tactic(auto, unfolding(crate::specs::Kept::keep_of))]
    fn push(&mut self, byte: u8)
        ensures { self.new ≡ keep_of self.old byte }
    {
        if self.count < 81 {
            self.bytes[self.count] = byte;
            self.count += 1;
        }
    }

    pub(crate) fn extend(&mut self, bytes: &[u8])
        ensures { self.new ≡ keep_all self.old bytes.now }
    {
        for byte in bytes {
            self.push(*byte);
        }
    }
}
