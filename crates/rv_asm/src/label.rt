ghost use Rattle.std.specs.Prelude.{◌≡◌, OnOk, OnErr};
ghost use Rattle.rv_asm.specs.Program.{added, no_labels};
ghost use Rattle.rv_asm.specs.Places.{places_of};

use std::alloc::{AllocError, Global};
use std::collections::HashMap;

/// Where a label stands.
#[derive(Clone, Copy)]
pub struct Label {
    /// The number of its line, from 1.
    pub line: u64,

    /// How many words the lines before it have.
    pub place: u64,
}

/// The labels of a text. Contracts see where each name stands, or nothing.
#[derive(Drop)]
pub struct Labels<'a> {
    places: HashMap<&'a [u8], Label>,
}

impl<'a> Labels<'a> {
    pub fn new(alloc: Global) -> Labels<'a>
        ensures { places_of result ≡ no_labels }
    {
        Labels {
            places: HashMap::new(alloc),
        }
    }

    /// Where the label `name` stands, if it does.
    pub fn find(&self, name: &[u8]) -> Option<Label>
        ensures { result ≡ places_of self.now name.now }
    {
        self.places.get(name).copied()
    }

    /// Adds `label` as that of `name`, unless the name stands among the others.
    pub fn add(&mut self, name: &'a [u8], label: Label) -> Result<(), AllocError>
        ensures added { OnOk result (places_of self.new ≡ added (places_of self.old) name.now label (places_of self.old name.now)) }
        ensures err { OnErr result (places_of self.new ≡ places_of self.old) }
    {
        if self.find(name).is_none() {
            self.places.insert(name, label)?;
        }
        Ok(())
    }
}
