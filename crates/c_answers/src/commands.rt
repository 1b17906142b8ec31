// The commands of C on the sets, by the numbers of their sets.
ghost use Rattle.std.specs.Prelude.{◌≡◌, ◌≢◌, ◌<◌, ◌≤◌, ◌⊎◌, Ok, Err};
ghost use Rattle.set_model.specs.declared.commands.Command.TheVariants as command;
ghost use Rattle.c_answers.specs.Commands.{in_set};
ghost use Rattle.c_answers.specs.declared.status.Status.TheVariants.{BadSet, SameSet};

use crate::status::Status;
use set_model::{Command, Name};

/// The set of this number.
#[inline(always)]
pub(crate) fn named(set: u32) -> Result<Name, Status>
    ensures { result ≡ in_set set }
{
    match Name::new(set) {
        Some(name) => Ok(name),
        None => Err(Status::BadSet),
    }
}

/// Puts the key into the set, with value 0.
#[inline(always)]
pub fn add(set: u32, key: u32) -> Result<Command, Status>
    ensures bad { 30 ≤ set → result ≡ Err BadSet }
    ensures issues { set < 30 → result ≡ Ok (command.Add set key) }
{
    match Name::new(set) {
        None => Err(Status::BadSet),
        Some(name) => Ok(Command::Add { name, key }),
    }
}

/// Gives the key this value in the set.
#[inline(always)]
pub fn put(set: u32, key: u32, value: u64) -> Result<Command, Status>
    ensures bad { 30 ≤ set → result ≡ Err BadSet }
    ensures issues { set < 30 → result ≡ Ok (command.Put set key value) }
{
    match Name::new(set) {
        None => Err(Status::BadSet),
        Some(name) => Ok(Command::Put { name, key, value }),
    }
}

/// Takes the key out of the set.
#[inline(always)]
pub fn del(set: u32, key: u32) -> Result<Command, Status>
    ensures bad { 30 ≤ set → result ≡ Err BadSet }
    ensures issues { set < 30 → result ≡ Ok (command.Del set key) }
{
    match Name::new(set) {
        None => Err(Status::BadSet),
        Some(name) => Ok(Command::Del { name, key }),
    }
}

/// Asks whether the set has the key.
#[inline(always)]
pub fn has(set: u32, key: u32) -> Result<Command, Status>
    ensures bad { 30 ≤ set → result ≡ Err BadSet }
    ensures issues { set < 30 → result ≡ Ok (command.Has set key) }
{
    match Name::new(set) {
        None => Err(Status::BadSet),
        Some(name) => Ok(Command::Has { name, key }),
    }
}

/// Asks for the value of the key in the set.
#[inline(always)]
pub fn get(set: u32, key: u32) -> Result<Command, Status>
    ensures bad { 30 ≤ set → result ≡ Err BadSet }
    ensures issues { set < 30 → result ≡ Ok (command.Get set key) }
{
    match Name::new(set) {
        None => Err(Status::BadSet),
        Some(name) => Ok(Command::Get { name, key }),
    }
}

/// Asks for the least key of the set that is not below this one.
#[inline(always)]
pub fn next(set: u32, key: u32) -> Result<Command, Status>
    ensures bad { 30 ≤ set → result ≡ Err BadSet }
    ensures issues { set < 30 → result ≡ Ok (command.Next set key) }
{
    match Name::new(set) {
        None => Err(Status::BadSet),
        Some(name) => Ok(Command::Next { name, key }),
    }
}

/// Asks how many keys the set has.
#[inline(always)]
pub fn size(set: u32) -> Result<Command, Status>
    ensures bad { 30 ≤ set → result ≡ Err BadSet }
    ensures issues { set < 30 → result ≡ Ok (command.Size set) }
{
    match Name::new(set) {
        None => Err(Status::BadSet),
        Some(name) => Ok(Command::Size { name }),
    }
}

/// Takes the key out of one set and puts it into another, with its value.
#[inline(always)]
pub fn move_key(source: u32, target: u32, key: u32) -> Result<Command, Status>
    ensures bad { (30 ≤ source) ⊎ (30 ≤ target) → result ≡ Err BadSet }
    ensures same { source < 30 → source ≡ target → result ≡ Err SameSet }
    ensures issues { source < 30 → target < 30 → source ≢ target → result ≡ Ok (command.Move source target key) }
{
    match (Name::new(source), Name::new(target)) {
        (Some(source), Some(target)) => {
            if source.index() == target.index() {
                return Err(Status::SameSet);
            }
            Ok(Command::Move {
                source,
                target,
                key,
            })
        }
        _ => Err(Status::BadSet),
    }
}

/// Asks of each of two sets whether it has the key.
#[inline(always)]
pub fn pair(first: u32, second: u32, key: u32) -> Result<Command, Status>
    ensures bad { (30 ≤ first) ⊎ (30 ≤ second) → result ≡ Err BadSet }
    ensures issues { first < 30 → second < 30 → result ≡ Ok (command.Pair first second key) }
{
    match (Name::new(first), Name::new(second)) {
        (Some(first), Some(second)) => Ok(Command::Pair { first, second, key }),
        _ => Err(Status::BadSet),
    }
}
