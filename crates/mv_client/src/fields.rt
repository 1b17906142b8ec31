// Values that stand in one word each.
ghost use Rattle.std.specs.Prelude.{◌≡◌, ℕ, ◌^◌, ◌<◌, ◌≤◌};

// How many numbers half a word has.
const HALF: u64 = 1 << 32;

/// A value that stands in one word of an object: a `u64`, a `u32`, a `bool`, a link (an object's number, or none), or two
/// `u32`.
pub trait Field: Copy {
    // The word that stands for a value, and the value for which a word stands.
    ghost word_of: { Self → ℕ };

    ghost value_of: { ℕ → Self };

    // The value has the range of its type.
    ghost is_value: { Self → Type 0 };

    // A value stands in the word.
    ghost is_word: { ℕ → Type 0 };

    /// The word that stands for this value.
    fn to_word(self) -> u64
        ensures word { result ≡ word_of self }
        ensures value { is_value self };

    /// The value that stands in this word.
    fn from_word(word: u64) -> Self
        requires { is_word word }
        ensures { result ≡ value_of word };

    ghost words: { (x : Self) → is_value x → is_word (word_of x) };

    ghost reads_back: { (x : Self) → is_value x → value_of (word_of x) ≡ x };

    ghost writes_back: { (word : ℕ) → is_word word → word_of (value_of word) ≡ word };
}

impl Field for u64 {
    ghost use Rattle.std.specs.Prelude.{refl};

    ghost word_of = { λ x. x };

    ghost value_of = { λ word. word };

    ghost is_value = { λ x. x < 2 ^ 64 };

    ghost is_word = { λ word. word < 2 ^ 64 };

    fn to_word(self) -> u64 {
        self
    }

    fn from_word(word: u64) -> u64 {
        word
    }

    ghost words = { λ x below. below };

    ghost reads_back = { λ x below. refl };

    ghost writes_back = { λ word below. refl };
}

impl Field for u32 {
    ghost use Rattle.std.specs.Prelude.{refl};

    ghost word_of = { λ x. x };

    ghost value_of = { λ word. word };

    ghost is_value = { λ x. x < 2 ^ 32 };

    ghost is_word = { λ word. word < 2 ^ 32 };

    fn to_word(self) -> u64 {
        self as u64
    }

    fn from_word(word: u64) -> u32 {
        word as u32
    }

    ghost words = { λ x below. below };

    ghost reads_back = { λ x below. refl };

    ghost writes_back = { λ word below. refl };
}

impl Field for bool {
    ghost use Rattle.std.specs.Prelude.{⊤};
    ghost use Rattle.mv_client.specs.Fields.{bool_word, bool_of, bool_words, bool_reads_back, bool_writes_back};

    ghost word_of = { bool_word };

    ghost value_of = { bool_of };

    ghost is_value = { λ x. ⊤ };

    ghost is_word = { λ word. word < 2 };

    fn to_word(self) -> u64 {
        self as u64
    }

    fn from_word(word: u64) -> bool {
        word != 0
    }

    ghost words = { λ x any. bool_words x };

    ghost reads_back = { λ x any. bool_reads_back x };

    ghost writes_back = { bool_writes_back };
}

/// A link: the number of an object, or none. Its word is one more than the number, and 0 for none.
impl Field for Option<u32> {
    ghost use Rattle.mv_client.specs.Fields.{link_word, link_of, IsLink, link_words, link_reads_back, link_writes_back};

    ghost word_of = { link_word };

    ghost value_of = { link_of };

    ghost is_value = { IsLink };

    ghost is_word = { λ word. word ≤ 2 ^ 32 };

    fn to_word(self) -> u64 {
        match self {
            Some(object) => object as u64 + 1,
            None => 0,
        }
    }

    fn from_word(word: u64) -> Option<u32> {
        if word == 0 {
            return None;
        }
        Some((word - 1) as u32)
    }

    ghost words = { link_words };

    ghost reads_back = { λ link is. link_reads_back link };

    ghost writes_back = { λ word below. link_writes_back word };
}

/// Two numbers: the first is the low half of the word, and the second the high half.
impl Field for (u32, u32) {
    ghost use Rattle.mv_client.specs.Fields.{pair_word, pair_of, IsPair, pair_words, pair_reads_back, pair_writes_back};

    ghost word_of = { pair_word };

    ghost value_of = { pair_of };

    ghost is_value = { IsPair };

    ghost is_word = { λ word. word < 2 ^ 64 };

    fn to_word(self) -> u64 {
        self.1 as u64 * HALF + self.0 as u64
    }

    fn from_word(word: u64) -> (u32, u32) {
        ((word % HALF) as u32, (word / HALF) as u32)
    }

    ghost words = { pair_words };

    ghost reads_back = { pair_reads_back };

    ghost writes_back = { λ word below. pair_writes_back word };
}
