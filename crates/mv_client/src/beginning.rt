// Sections that are begun, and sections that are only read.
ghost use Rattle.std.specs.Prelude.{◌≡◌, length};
ghost use Rattle.mv_history.specs.Calls.{Continues, Enters};
ghost use Rattle.mv_history.specs.Meaning.{snapshot_of};
ghost use Rattle.mv_client.specs.Closures.{MayShow, Shows};
ghost use Rattle.mv_client.specs.Updates.{IsRead};

use mv_history::{Section, Store};

/// Begins a section, as `enter` does. It reads the state of its snapshot, which has as many objects as the store
/// opened with.
pub fn begin<S: Store>(store: S) -> S::Open
    ensures enters { Enters (S.seat_of store) (S.Open.section result) }
    ensures took { S.took (S.seat_of store) (S.Open.section result) }
    ensures objects { length (S.Open.state result) ≡ length (S.seat_of store).start }
    ensures snapshot { S.Open.state result ≡ snapshot_of (S.Open.section result) }
{
    store.enter()
}

/// Reads in one section, and gives the store back with what the closure answered, which only reads. It never refuses.
pub fn read<S: Store, T, F: Fn(&mut S::Open) -> T>(store: S, look: F) -> (S, T)
    requires callable { (s : S.Open) → length (S.Open.state s) ≡ length (S.seat_of store).start → MayShow F.Fn look s }
    requires only_reads { (s t : S.Open) (r : T) → Shows F.Fn look s r t → S.Open.as_before s t }
    ensures read { IsRead S.took S.Open.section S.Open.as_before (Shows F.Fn look) (S.seat_of store) (S.seat_of result.0) result.1 }
    ensures continues { Continues (S.seat_of store) (S.seat_of result.0) }
{
    let mut section = begin(store);
    let told = look(&mut section);
    (section.leave(), told)
}
