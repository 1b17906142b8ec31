// Names, their sets, and which objects are nodes.
ghost use Rattle.std.specs.Prelude.{◌≡◌, ◌<◌};
ghost use Rattle.set_model.specs.CatalogueOf.{name_of as name_of_head};
ghost use Rattle.set_catalog.specs.Sets.{IsSetOf};

/// The first object that is the root of a tree; the heads below are those of lists and buckets.
pub const FIRST_ROOT: u32 = 170;

/// The first object that is a node; those below are heads.
pub const FIRST_NODE: u32 = 180;

use set_model::Name;

// The set of a name, as its own crate numbers it.
pub enum Set {
    // The head of a list.
    List(u32),
    // The number of a hash table.
    Table(u32),
    // The root of a tree.
    Tree(u32),
}

// The set of a name.
pub fn set_of(name: Name) -> Set
    ensures { IsSetOf name result }
{
    match name.index() {
        index @ 0..10 => Set::List(index),
        index @ 10..20 => Set::Table(index - 10),
        index => Set::Tree(index + 150),
    }
}

// The number of the name to which a head belongs.
pub fn name_of(head: u32) -> u32
    requires { head < 180 }
    ensures is { result ≡ name_of_head head }
    ensures few { result < 30 }
{
    match head {
        0..10 => head,
        10..170 => 10 + (head - 10) / 16,
        _ => head - 150,
    }
}
