// Control words (01, 'The control packet'), each known by name.
ghost use Rattle.std.specs.Prelude.{◌≡◌, [], ◌∷◌};
ghost use Rattle.packet.specs.Words.{FIXED, ADD, NORM, EOS, IDLE, DNU, word_of, nibble_of, assigned};

// Kept: a byte and no enum, since a packet may carry any nibble, and any byte may be given for writing.
#[derive(Clone, Copy, PartialEq, Eq)]
pub struct Word(pub u8);

impl Word {
    pub const FIXED: Word = Word(0);

    pub const ADD: Word = Word(1);

    pub const NORM: Word = Word(2);

    pub const EOS: Word = Word(3);

    pub const IDLE: Word = Word(5);

    pub const DNU: Word = Word(15);

    // The six codes, in 01's order.
    pub fn codes() -> [u8; 6]
        ensures { result ≡ FIXED ∷ ADD ∷ NORM ∷ EOS ∷ IDLE ∷ DNU ∷ [] }
    {
        [
            Word::FIXED.0,
            Word::ADD.0,
            Word::NORM.0,
            Word::EOS.0,
            Word::IDLE.0,
            Word::DNU.0,
        ]
    }

    // The word in the low four bits of any byte.
    pub fn from_nibble(nibble: u8) -> Word
        ensures { result ≡ word_of nibble }
    {
        Word(nibble % 16)
    }

    pub fn to_nibble(self) -> u8
        ensures { result ≡ nibble_of self }
    {
        self.0 % 16
    }

    #[tactic(auto, unfolding(crate::specs::Words::assigned))]
    pub fn is_assigned(self) -> bool
        ensures { result ≡ assigned self }
    {
        matches!(
            self,
            Word::FIXED | Word::ADD | Word::NORM | Word::EOS | Word::IDLE | Word::DNU
        )
    }
}
