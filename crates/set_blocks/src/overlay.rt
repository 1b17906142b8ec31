// What a view shows with planned writes over it.
ghost use Rattle.std.specs.Prelude.{◌≡◌, ◌+◌, ◌<◌, ◌≤◌, true, false, [], length, take, IfSome, IfNone, slice_index_or};
ghost use Rattle.mv_history.specs.State.{touches};
ghost use Rattle.mv_history.specs.Legal.{are_distinct, AreWrites, IsWords};
ghost use Rattle.set_catalog.specs.Merges.{merged, merged_one};

use mv_history::{View, Words};

/// How many objects a block may lock: five for each of its commands.
pub const MOST_LOCKS: usize = 40;

/// A view with planned writes over it: different objects, in the order in which they were planned first, each with the
/// words that it is to get.
pub struct Overlay<V> {
    pub view: V,
    writes: [(u32, Words); MOST_LOCKS],
    count: usize,
    ghost whole: { length writes ≡ 40 },
    ghost few: { count ≤ 40 },
    ghost distinct: { are_distinct (take count writes) ≡ true },
    ghost words: { AreWrites (take count writes) },
}

/// What is planned for a block: the objects that it locks, in their order, each with the words that it is to get.
#[derive(Drop)]
pub struct Planned {
    writes: [(u32, Words); MOST_LOCKS],
    count: usize,
    ghost few: { count ≤ length writes },
}

impl Planned {
    /// The writes, in their order.
    pub fn writes(&self) -> &[(u32, Words)]
        ensures { result.now ≡ take self.now.count self.now.writes }
    {
        &self.writes[..self.count]
    }
}

// What the type of words says, as a fact.
fn has_width(words: &Words)
    ensures { IsWords words.now }
{}

impl<V> Overlay<V> {
    /// The view with nothing planned.
    pub fn over(view: V) -> Overlay<V>
        ensures view { result.view ≡ view }
        ensures none { result.count ≡ 0 }
    {
        Overlay {
            view,
            writes: [(0, [0; 6]); MOST_LOCKS],
            count: 0,
        }
    }

    /// The view, with nothing planned over it any more, and what was.
    pub fn into_parts(self) -> (V, Planned)
        ensures view { result.0 ≡ self.view }
        ensures planned { take result.1.count result.1.writes ≡ take self.count self.writes }
    {
        let Overlay {
            view,
            writes,
            count,
        } = self;
        (view, Planned { writes, count })
    }

    /// Plans these writes too, for which there is room. An object that is among the planned ones keeps its place in the order, and gets
    /// the new words.
    pub fn write(&mut self, changes: &[(u32, Words)])
        requires room { self.old.count + length changes.now ≤ 40 }
        ensures view { self.new.view ≡ self.old.view }
        ensures writes { take self.new.count self.new.writes ≡ merged (take self.old.count self.old.writes) changes.now }
        ensures count { self.new.count ≤ self.old.count + length changes.now }
    {
        for change in changes {
            self.write_one(change.0, change.1);
        }
    }

    // Plans this write too.
    fn write_one(&mut self, object: u32, words: Words)
        requires room { self.old.count < 40 }
        ensures view { self.new.view ≡ self.old.view }
        ensures writes { take self.new.count self.new.writes ≡ merged_one (take self.old.count self.old.writes) object words }
        ensures count { self.new.count ≤ self.old.count + 1 }
    {
        has_width(&words);
        match find(&self.writes[..self.count], object) {
            Some(place) => self.writes[place] = (object, words),
            None => {
                self.writes[self.count] = (object, words);
                self.count += 1;
            }
        }
    }
}

// The place of an object among the planned ones.
fn find(writes: &[(u32, Words)], object: u32) -> Option<usize>
    ensures found { IfSome result (λ i. (i < length writes.now) × ((slice_index_or writes.now i (0, [])).0 ≡ object)
        × (touches (take i writes.now) object ≡ false)) }
    ensures none { IfNone result (touches writes.now object ≡ false) }
{
    for (i, write) in writes.iter().enumerate() {
        if write.0 == object {
            return Some(i);
        }
    }
    None
}

impl<V: View> View for Overlay<V> {
    ghost use Rattle.std.specs.Prelude.{◌≡◌, refl, take};
    ghost use Rattle.std.proofs.Common.{ap, ap₂, ◌∙◌};
    ghost use Rattle.mv_history.specs.State.{written};
    ghost use Rattle.mv_history.specs.WordsLaws.{AreWords-written};

    ghost state = { λ o. written (V.state o.view) (take o.count o.writes) };

    ghost as_before = { λ o p. V.as_before o.view p.view × (take p.count p.writes ≡ take o.count o.writes) };

    ghost as_itself = { λ o. (V.as_itself o.view, refl) };

    ghost as_long_before = { λ o p q a b. (V.as_long_before o.view p.view q.view a.0 b.0, b.1 ∙ a.1) };

    ghost same_state = { λ o p a. ap₂ (λ s w. written s w) (V.same_state o.view p.view a.0) a.1 };

    ghost are_words = { λ o. AreWords-written (V.state o.view) (take o.count o.writes) (V.are_words o.view) o.words };

    fn objects(&self) -> u32 {
        self.view.objects()
    }

    fn read(&mut self, object: u32) -> Words {
        match find(&self.writes[..self.count], object) {
            Some(i) => self.writes[i].1,
            None => self.view.read(object),
        }
    }

    fn read_pair(&mut self, object: u32, place: u32) -> (u64, u64) {
        match find(&self.writes[..self.count], object) {
            Some(i) => {
                let words = self.writes[i].1;
                (words[place as usize], words[place as usize + 1])
            }
            None => self.view.read_pair(object, place),
        }
    }

    fn read_four(&mut self, object: u32, place: u32) -> [u64; 4] {
        match find(&self.writes[..self.count], object) {
            Some(i) => {
                let words = self.writes[i].1;
                let first = place as usize;
                [
                    words[first],
                    words[first + 1],
                    words[first + 2],
                    words[first + 3],
                ]
            }
            None => self.view.read_four(object, place),
        }
    }
}
