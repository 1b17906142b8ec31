// A map from keys to values for each name.
ghost use Rattle.std.specs.Prelude.{◌≡◌, ℕ, ◌<◌, [], map, set, not, IfOk, OnOk, OnErr};
ghost use Rattle.set_model.specs.Catalogue.{Map, Maps, empty, map_of, has_key, put, take_out, IsCatalogue};

use std::alloc::{AllocError, Global};
use std::marker::Model;

const NAMES: usize = 30;

/// A map from keys to values for each of the 30 names: `l0` to `l9`, `h0` to `h9` and `t0` to `t9`, in this order.
/// It is seen as 30 lists of rising keys, each key with its value.
#[derive(Drop)]
pub struct Catalogue {
    maps: Vec<KeyMap>,
}

impl Model for Catalogue {
    ghost use Rattle.set_model.specs.Catalogue.{Maps, IsCatalogue};

    ghost Value = { Maps };

    ghost view = { λ c. c.maps.items };

    ghost invariant = { λ c. IsCatalogue c.maps.items };
}

impl Catalogue {
    /// 30 empty maps. The error is want of memory.
    pub fn new(alloc: Global) -> Result<Catalogue, AllocError>
        ensures { IfOk result (λ c. c ≡ empty) }
    {
        let mut maps = Vec::with_capacity(alloc, NAMES)?;
        for _ in 0..NAMES {
            maps.push_reserved(KeyMap::new(alloc));
        }
        Ok(Catalogue { maps })
    }

    /// Gives a key of a name below 30 this value, and answers whether the key is new there.
    /// The error is want of memory, and then nothing changes.
    pub fn insert(&mut self, name: u32, key: u32, value: u64) -> Result<bool, AllocError>
        requires { name < 30 }
        ensures put { OnOk result (self.new ≡ set self.old name (put key value (map_of name self.old))) }
        ensures added { IfOk result (λ added. added ≡ not (has_key key (map_of name self.old))) }
        ensures unchanged { OnErr result (self.new ≡ self.old) }
    {
        self.maps[name as usize].insert(key, value)
    }

    /// Takes a key out of the map of a name below 30, and answers whether it was there.
    pub fn remove(&mut self, name: u32, key: u32) -> bool
        requires { name < 30 }
        ensures taken { self.new ≡ set self.old name (take_out key (map_of name self.old)) }
        ensures found { result ≡ has_key key (map_of name self.old) }
    {
        self.maps[name as usize].remove(key)
    }

    /// The keys of a name below 30, rising.
    pub fn keys(&self, name: u32) -> &[u32]
        requires { name < 30 }
        ensures keys { result.now ≡ map (λ (e : ℕ × ℕ). e.0) (map_of name self.now) }
        ensures lawful { IsCatalogue self.now }
    {
        self.maps[name as usize].keys()
    }

    /// The values of a name below 30, in the order of its keys.
    pub fn values(&self, name: u32) -> &[u64]
        requires { name < 30 }
        ensures values { result.now ≡ map (λ (e : ℕ × ℕ). e.1) (map_of name self.now) }
        ensures lawful { IsCatalogue self.now }
    {
        self.maps[name as usize].values()
    }
}

// The keys of one name, with their values in step.
#[derive(Drop)]
struct KeyMap {
    keys: Vec<u32>,
    values: Vec<u64>,
}

impl Model for KeyMap {
    ghost use Rattle.std.specs.Prelude.{◌≡◌, length};
    ghost use Rattle.std.specs.List.{zip};
    ghost use Rattle.set_model.specs.Catalogue.{Map, IsMap};

    ghost Value = { Map };

    ghost view = { λ m. zip m.keys.items m.values.items };

    ghost invariant = { λ m. (length m.values.items ≡ length m.keys.items) × IsMap (zip m.keys.items m.values.items) };
}

impl KeyMap {
    fn new(alloc: Global) -> KeyMap
        ensures { result ≡ [] }
    {
        KeyMap {
            keys: Vec::new(alloc),
            values: Vec::new(alloc),
        }
    }

    fn insert(&mut self, key: u32, value: u64) -> Result<bool, AllocError>
        ensures put { OnOk result (self.new ≡ put key value self.old) }
        ensures added { IfOk result (λ added. added ≡ not (has_key key self.old)) }
        ensures unchanged { OnErr result (self.new ≡ self.old) }
    {
        match self.keys.binary_search(&key) {
            Ok(at) => {
                self.values[at] = value;
                Ok(false)
            }
            Err(at) => {
                // The keys and the values stay in step: with this room the second insert succeeds.
                self.values.reserve(1)?;
                self.keys.insert(at, key)?;
                self.values.insert(at, value)?;
                Ok(true)
            }
        }
    }

    fn remove(&mut self, key: u32) -> bool
        ensures taken { self.new ≡ take_out key self.old }
        ensures found { result ≡ has_key key self.old }
    {
        match self.keys.binary_search(&key) {
            Ok(at) => {
                self.keys.remove(at);
                self.values.remove(at);
                true
            }
            Err(_) => false,
        }
    }

    fn keys(&self) -> &[u32]
        ensures { result.now ≡ map (λ (e : ℕ × ℕ). e.0) self.now }
    {
        &self.keys
    }

    fn values(&self) -> &[u64]
        ensures { result.now ≡ map (λ (e : ℕ × ℕ). e.1) self.now }
    {
        &self.values
    }
}
