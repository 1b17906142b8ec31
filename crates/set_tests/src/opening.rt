// New plain stores of zeros, and sections over them in which nothing is filled.
ghost use Rattle.std.specs.Prelude.{◌≡◌, IfOk, replicate};
ghost use Rattle.set_model.specs.Objects.{no_words};
ghost use Rattle.list_set.specs.Filling.{IsFilled as AreListsFilled};
ghost use Rattle.tree_set.specs.Filling.{IsFilled as IsTreeFilled};

use crate::comparing::must;
use mv_history::{AnyRules, Section, Store, WORDS, Words};
use plain_store::{PlainSection, PlainStore};
use set_model::{MOST_OBJECTS, SetRules};
use std::alloc::{AllocError, Global};
use std::process::Abort;

// So many objects of zeros.
fn zeros(alloc: Global, count: usize) -> Result<Vec<Words>, AllocError>
    ensures { IfOk result (λ objects. objects.items ≡ replicate count no_words) }
{
    vec![in alloc; [0; WORDS]; count]
}

// A section for lists and tables.
pub(crate) fn open_lists(alloc: Global, count: u32) -> Result<PlainSection<AnyRules>, AllocError>
    requires count { count ≡ 186 }
    ensures { IfOk result (λ section. AreListsFilled (⟦<PlainSection<AnyRules> as Section>⟧.section section) 0) }
{
    let objects = zeros(alloc, count as usize)?;
    let store = PlainStore::<AnyRules>::new(alloc, &objects, 0, 1)?;
    Ok(store.enter())
}

// A section for the tree of the root 171.
pub(crate) fn open_trees(alloc: Global, count: u32) -> Result<PlainSection<AnyRules>, AllocError>
    requires count { count ≡ 200 }
    ensures { IfOk result (λ section. IsTreeFilled (⟦<PlainSection<AnyRules> as Section>⟧.section section) 171 0) }
{
    let objects = zeros(alloc, count as usize)?;
    let store = PlainStore::<AnyRules>::new(alloc, &objects, 0, 1)?;
    Ok(store.enter())
}

// A store of the sets, of so many objects of zeros, whose times begin at 0, with room for so many commits.
pub(crate) fn open_sets(
    rt: &impl Abort,
    alloc: Global,
    count: u32,
    room: u32,
) -> Result<PlainStore<SetRules>, AllocError> {
    must(rt, count > 180, "an object behind the roots");
    must(rt, count <= MOST_OBJECTS, "no more objects than sets take");
    let zeros = vec![in alloc; [0; WORDS]; count as usize]?;
    PlainStore::new(alloc, &zeros, 0, room)
}
