// The split of one bucket, as a work.
ghost use Rattle.std.specs.Prelude.{◌≡◌, take, MatchResult};
ghost use Rattle.grow_hash.specs.Grown.{IsGrown};
ghost use Rattle.grow_hash.specs.SplitSteps.{IsPlannedSplit, IsClosed};

use crate::bucket::{MOST_SPLIT, Parted, part, read_bucket};
use crate::rules::GrowingRules;
use crate::table::{most_level, table_of};
use mv_history::{Tag, View, Words};
use section_work::{Decision, Work};
use std::marker::PhantomData;

// The first number of the tag of a split's commit.
const SPLIT: u64 = 7;

/// What a look at the bucket at the split place comes to.
#[derive(Clone, Copy, Debug, Drop, PartialEq, Eq)]
pub(crate) enum Looked {
    /// It can be split.
    Splits,
    /// All buckets are split.
    Whole,
    /// It has this many keys, more than a split can write.
    Long { keys: u32 },
    /// It could be split, but no time is left.
    Worn,
}

/// The split of the bucket at the split place.
#[derive(Drop)]
pub(crate) struct SplitWork<const LEVELS: u32, R> {
    pub rules: PhantomData<R>,
}

impl<const LEVELS: u32, R: GrowingRules<LEVELS>> Work for SplitWork<LEVELS, R> {
    ghost use Rattle.std.specs.Prelude.{⊤, take};
    ghost use Rattle.grow_hash.specs.GrowRules.{split_tag};
    ghost use Rattle.grow_hash.specs.SplitMeaning.{split_meaning};

    type Rules = R;

    type Reply = Looked;

    type WriteSet = Parted;

    type Memo = ();

    ghost accepts = { λ w. ⊤ };

    ghost means = { λ w. split_meaning LEVELS };

    ghost tag_of = { λ w parted. split_tag parted.place };

    ghost writes_of = { λ memo parted. take parted.count parted.writes };

    ghost knows = { λ memo s. ⊤ };

    ghost notes = { λ w before after s. ⊤ };

    fn decide<V: View>(
        &self,
        _memo: &mut (),
        view: V,
        _time: u64,
    ) -> (V, Decision<Looked, Parted>) {
        let mut view = view;
        match plan_split::<LEVELS, V>(&mut view) {
            Ok(plan) => {
                let reply = Looked::Splits;
                (view, Decision::Change { plan, reply })
            }
            Err(looked) => (view, Decision::Settled(looked)),
        }
    }

    fn writes<'a>(_memo: &'a (), plan: &'a Parted) -> &'a [(u32, Words)] {
        &plan.writes[..plan.count]
    }

    fn tag(&self, plan: &Parted) -> Tag {
        [SPLIT, plan.place as u64, 0, 0]
    }

    fn at_last(&self, _reply: Looked) -> Looked {
        Looked::Worn
    }

    ghost knows_on = { λ memo s t on known. tt };

    ghost makes = { λ w s before tag ws reply accepts plan drifts allowed. tt };
}

// What the split of the bucket at the split place writes, or by which of the first two tests none can be made.
fn plan_split<const LEVELS: u32, V: View>(view: &mut V) -> Result<Parted, Looked>
    requires lawful { IsGrown LEVELS (V.state view.old) }
    ensures planned { MatchResult result
        (λ parted. IsPlannedSplit LEVELS (V.state view.old) parted.place (take parted.count parted.writes))
        (λ looked. IsClosed LEVELS (V.state view.old) looked) }
    ensures as_before { V.as_before view.old view.new }
{
    let (level, place) = table_of::<LEVELS, V>(view);
    if level == most_level(LEVELS) {
        return Err(Looked::Whole);
    }
    let bucket = read_bucket(view, place + 1);
    if bucket.keys > MOST_SPLIT {
        return Err(Looked::Long { keys: bucket.keys });
    }
    Ok(part(LEVELS, level, place, &bucket))
}
