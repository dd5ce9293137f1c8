ghost use Rattle.std.specs.Prelude.{◌≡◌, ◌+◌, ◌-◌, ◌<◌, ◌≤◌, ◌^◌, ℕ, [], ◌∷◌, ◌++◌, length, max, slice_get, vec_capacity, vec_len, Some, IfOk, IsOk, OnOk, OnErr};
ghost use Rattle.std.specs.Option.{option_copied};
ghost use Rattle.std.specs.List.{AllByRecursion};
ghost use Rattle.law_turns.specs.Tables.{Refers};
ghost use Rattle.nova_choice.specs.Schedules.{owner_in};
ghost use Rattle.nova_turn.specs.Homes.{AreOthers, Includes, both, home_of, housed};

use nova_model::{EcKind, Object};
use nova_objects::Objects;
use std::alloc::{AllocError, Global};
use std::marker::Model;

/// Some objects, as far as they are known: none, at most that of a number, or perhaps several.
#[derive(Clone, Copy)]
pub(crate) enum Numbers {
    Empty,
    Single(u32),
    Several,
}

impl Numbers {
    /// These numbers and `others`.
    pub(crate) fn and(self, others: Numbers) -> Numbers
        ensures { result ≡ both self others }
    {
        match self {
            Numbers::Empty => others,
            Numbers::Single(one) => match others {
                Numbers::Empty => Numbers::Single(one),
                Numbers::Single(other) if other == one => Numbers::Single(one),
                _ => Numbers::Several,
            },
            Numbers::Several => Numbers::Several,
        }
    }
}

/// Adds `number` to what is kept of the protection domain of `object`, where it is a virtual CPU.
fn house(homes: &mut Vec<Numbers>, object: Object, number: u32)
    ensures items { homes.new.items ≡ housed (home_of (Some object)) number homes.old.items }
    ensures len { vec_len homes.new ≡ vec_len homes.old }
    ensures capacity { vec_capacity homes.new ≡ vec_capacity homes.old }
{
    let Object::Ec {
        pd,
        kind: EcKind::Vcpu,
        ..
    } = object
    else {
        return;
    };
    if let Some(home) = homes.get(pd as usize) {
        homes[pd as usize] = home.and(Numbers::Single(number));
    }
}

/// Adds `number` to what is kept of the execution context of `object`, where it is a scheduling context.
fn bind(owners: &mut Vec<Numbers>, object: Object, number: u32)
    ensures items { owners.new.items ≡ housed (owner_in (Some object)) number owners.old.items }
    ensures len { vec_len owners.new ≡ vec_len owners.old }
    ensures capacity { vec_capacity owners.new ≡ vec_capacity owners.old }
{
    let Object::Sc { ec, .. } = object else {
        return;
    };
    if let Some(home) = owners.get(ec as usize) {
        owners[ec as usize] = home.and(Numbers::Single(number));
    }
}

/// The objects, by number. Of each protection domain is kept what virtual CPUs it has, so that a store, and memory
/// that is given or taken, look at few of them; and of each execution context what scheduling contexts it has.
#[derive(Drop)]
pub struct Inventory {
    objects: Objects,
    homes: Vec<Numbers>,
    owners: Vec<Numbers>,
    spare: usize,
}

impl Model for Inventory {
    ghost use Rattle.std.specs.Prelude.{◌≡◌, ◌+◌, ◌≤◌, length, vec_len, vec_capacity};
    ghost use Rattle.nova_objects.specs.ObjectTables.{ObjectTable};
    ghost use Rattle.nova_turn.specs.Homes.{AreHoused, AreOwned};

    ghost Value = { ObjectTable };

    ghost view = { λ o. record { items = o.objects.items; spare = o.spare } };

    ghost invariant = { λ o. ((o.spare ≤ o.objects.spare) × ((vec_len o.owners + o.spare ≤ vec_capacity o.owners) × ((length o.owners.items ≡ length o.objects.items) × AreOwned o.objects.items o.owners.items))) × ((vec_len o.homes + o.spare ≤ vec_capacity o.homes) × ((length o.homes.items ≡ length o.objects.items) × AreHoused o.objects.items o.homes.items)) };
}

impl Inventory {
    /// The inventory of `objects`, of which none is a virtual CPU, and none a scheduling context but `sc`, with no room for more.
    pub(crate) fn new(alloc: Global, objects: Objects, sc: u32) -> Result<Inventory, AllocError>
        requires guests { (guest pd : ℕ) → home_of (slice_get objects.items guest) ≡ Some pd → ⊥ }
        requires schedules { (number ec : ℕ) → owner_in (slice_get objects.items number) ≡ Some ec → sc ≡ number }
        ensures { IfOk result (λ o. o ≡ record { items = objects.items; spare = 0 }) }
    {
        let mut homes = Vec::new(alloc);
        homes.resize(objects.len(), Numbers::Empty)?;
        let mut owners = Vec::new(alloc);
        owners.resize(objects.len(), Numbers::Single(sc))?;
        Ok(Inventory {
            objects,
            homes,
            owners,
            spare: 0,
        })
    }

    /// Makes room for `n` more objects, counted from those that are there. Room that was made before
    /// stays, and where it is enough, this succeeds.
    pub(crate) fn reserve(&mut self, n: usize) -> Result<(), AllocError>
        ensures ok { OnOk result (self.new ≡ record self.old { spare = max self.old.spare n }) }
        ensures enough { n ≤ self.old.spare → IsOk result }
        ensures err { OnErr result (self.new ≡ self.old) }
    {
        self.objects.reserve(n)?;
        self.homes.reserve(n)?;
        self.owners.reserve(n)?;
        self.spare = self.spare.max(n);
        Ok(())
    }

    /// Adds `object` in reserved room. There are fewer than 2^32 - 1 objects before, and what they refer to is there.
    pub(crate) fn add(&mut self, object: Object)
        requires room { 0 < self.old.spare }
        requires numbered { length self.old.items < 2 ^ 32 - 1 }
        requires refer { AllByRecursion (Refers self.old.items) self.old.items }
        ensures { self.new ≡ record { items = self.old.items ++ object ∷ []; spare = self.old.spare - 1 } }
    {
        let number = self.objects.add(object);
        self.homes.push_reserved(Numbers::Empty);
        house(&mut self.homes, object, number);
        self.owners.push_reserved(Numbers::Empty);
        bind(&mut self.owners, object, number);
        self.spare -= 1;
    }

    /// The object of number `id`, or nothing where none has it.
    pub fn get(&self, id: u32) -> Option<&Object>
        ensures { option_copied result ≡ slice_get self.now.items id }
    {
        self.objects.get(id)
    }

    /// The objects by number.
    pub fn as_slice(&self) -> &[Object]
        ensures { result.now ≡ self.now.items }
    {
        self.objects.as_slice()
    }

    /// The objects as the table of their own.
    pub(crate) fn table(&self) -> &Objects
        ensures { result.now.items ≡ self.now.items }
    {
        &self.objects
    }

    /// How many objects there are.
    pub(crate) fn len(&self) -> usize
        ensures { result ≡ length self.now.items }
    {
        self.objects.len()
    }

    /// Copies the objects into memory of their own, with no spare room.
    pub(crate) fn copy(&self) -> Result<Inventory, AllocError>
        ensures { IfOk result (λ copy. copy ≡ record { items = self.now.items; spare = 0 }) }
    {
        let objects = self.objects.copy()?;
        let homes = Vec::from_slice(*self.homes.allocator(), self.homes.as_slice())?;
        let owners = Vec::from_slice(*self.owners.allocator(), self.owners.as_slice())?;
        Ok(Inventory {
            objects,
            homes,
            owners,
            spare: 0,
        })
    }

    /// The virtual CPUs of the protection domain `pd`, but for `ec`.
    pub(crate) fn others(&self, pd: u32, ec: u32) -> Numbers
        ensures { AreOthers self.now.items ec pd result }
    {
        match self.homes.get(pd as usize) {
            Some(Numbers::Empty) => Numbers::Empty,
            Some(Numbers::Single(guest)) if *guest == ec => Numbers::Empty,
            Some(Numbers::Single(guest)) => Numbers::Single(*guest),
            _ => Numbers::Several,
        }
    }

    /// What scheduling contexts the execution context `ec` has.
    pub(crate) fn schedules_of(&self, ec: u32) -> Numbers
        ensures { (sc : ℕ) → owner_in (slice_get self.now.items sc) ≡ Some ec → Includes sc result }
    {
        match self.owners.get(ec as usize) {
            Some(home) => *home,
            None => Numbers::Several,
        }
    }
}
