ghost use Rattle.std.specs.Prelude.{◌≡◌, ◌+◌, ◌-◌, ◌<◌, ◌≤◌, ◌↔◌, ◌^◌, [], ◌∷◌, ◌++◌, length, max, slice_get, IsOk, IsSome, IfOk, OnOk, OnErr};
ghost use Rattle.std.specs.Option.{option_copied};

use crate::object::Object;
use std::alloc::{AllocError, Global};
use std::marker::Model;

/// Objects, numbered from 0 in the order of their making, with room that is reserved for more.
#[derive(Drop)]
pub struct Objects {
    items: Vec<Object>,
    spare: usize,
}

impl Model for Objects {
    ghost use Rattle.std.specs.Prelude.{◌+◌, ◌≤◌, vec_len, vec_capacity};
    ghost use Rattle.nova_objects.specs.ObjectTables.{ObjectTable};

    ghost Value = { ObjectTable };

    ghost view = { λ o. record { items = o.items.items; spare = o.spare } };

    ghost invariant = { λ o. vec_len o.items + o.spare ≤ vec_capacity o.items };
}

impl Objects {
    /// No objects, and room for none.
    pub fn new(alloc: Global) -> Objects
        ensures { result ≡ record { items = []; spare = 0 } }
    {
        Objects {
            items: Vec::new(alloc),
            spare: 0,
        }
    }

    /// Makes room for `n` more objects, counted from those that are there. Room that was made before
    /// stays, and where it is enough, this succeeds.
    pub fn reserve(&mut self, n: usize) -> Result<(), AllocError>
        ensures ok { OnOk result (self.new ≡ record self.old { spare = max self.old.spare n }) }
        ensures enough { n ≤ self.old.spare → IsOk result }
        ensures err { OnErr result (self.new ≡ self.old) }
    {
        self.items.reserve(n)?;
        self.spare = self.spare.max(n);
        Ok(())
    }

    /// Adds `object` in reserved room, and answers its number. There are fewer than 2^32 - 1 objects before.
    pub fn add(&mut self, object: Object) -> u32
        requires room { 0 < self.old.spare }
        requires numbered { length self.old.items < 2 ^ 32 - 1 }
        ensures number { result ≡ length self.old.items }
        ensures added { self.new ≡ record { items = self.old.items ++ object ∷ []; spare = self.old.spare - 1 } }
    {
        let id = self.items.len() as u32;
        self.items.push_reserved(object);
        self.spare -= 1;
        id
    }

    /// The object of number `id`, or nothing where none has it.
    pub fn get(&self, id: u32) -> Option<&Object>
        ensures object { option_copied result ≡ slice_get self.now.items id }
        ensures there { IsSome result ↔ (id < length self.now.items) }
    {
        self.items.get(id as usize)
    }

    /// The objects by number.
    pub fn as_slice(&self) -> &[Object]
        ensures { result.now ≡ self.now.items }
    {
        self.items.as_slice()
    }

    /// Copies the objects into memory of their own, with no spare room.
    pub fn copy(&self) -> Result<Objects, AllocError>
        ensures { IfOk result (λ copy. copy ≡ record { items = self.now.items; spare = 0 }) }
    {
        let items = Vec::from_slice(*self.items.allocator(), self.items.as_slice())?;
        Ok(Objects { items, spare: 0 })
    }

    /// How many objects there are.
    pub fn len(&self) -> usize
        ensures { result ≡ length self.now.items }
    {
        self.items.len()
    }
}
