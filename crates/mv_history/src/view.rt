// A value that is read as one state.
ghost use Rattle.std.specs.Prelude.{◌≡◌, ◌+◌, ◌<◌, length, slice_index_or};
ghost use Rattle.mv_history.specs.State.{State};
ghost use Rattle.mv_history.specs.Legal.{AreWords};
ghost use Rattle.mv_history.specs.Meaning.{words_at};
ghost use Rattle.mv_history.specs.Fours.{four_from};

use crate::history::Words;

/// A value that stands for one state, a list of words for each object.
///
/// `as_before` relates a value to a later one that means the same: `read`, and each call that takes
/// a `&mut V` of a `View` and locks nothing, ensures it.
pub trait View {
    ghost state: { Self → State };

    ghost as_before: { Self → Self → Type 0 };

    /// The number of objects.
    fn objects(&self) -> u32
        ensures { result ≡ length (state self.now) };

    /// The words of an object. It never refuses, and takes no memory.
    fn read(&mut self, object: u32) -> Words
        requires { object < length (state self.old) }
        ensures words { result ≡ words_at (state self.old) object }
        ensures as_before { as_before self.old self.new };

    /// Two words of an object that stand next to each other: the one at this place, and the one after it.
    /// They are those of `read`; a value that loads its words one by one loads these two alone. A value
    /// that counts its reads counts it as one. It never refuses, and takes no memory.
    fn read_pair(&mut self, object: u32, place: u32) -> (u64, u64)
        requires object { object < length (state self.old) }
        requires place { place < 5 }
        ensures first { result.0 ≡ slice_index_or (words_at (state self.old) object) place 0 }
        ensures second { result.1 ≡ slice_index_or (words_at (state self.old) object) (place + 1) 0 }
        ensures as_before { as_before self.old self.new }
    {
        let words = self.read(object);
        (words[place as usize], words[place as usize + 1])
    }

    /// Four words of an object that stand next to each other, from this place on. They are those of `read`;
    /// a value that loads its words one by one loads these four alone. A value that counts its reads counts
    /// it as one. It never refuses, and takes no memory.
    fn read_four(&mut self, object: u32, place: u32) -> [u64; 4]
        requires object { object < length (state self.old) }
        requires place { place < 3 }
        ensures words { result ≡ four_from place (words_at (state self.old) object) }
        ensures as_before { as_before self.old self.new }
    {
        let words = self.read(object);
        let first = place as usize;
        [
            words[first],
            words[first + 1],
            words[first + 2],
            words[first + 3],
        ]
    }

    ghost as_itself: { (v : Self) → as_before v v };

    ghost as_long_before: { (u v w : Self) → as_before u v → as_before v w → as_before u w };

    ghost same_state: { (v w : Self) → as_before v w → state w ≡ state v };

    ghost are_words: { (v : Self) → AreWords (state v) };
}
