ghost use Rattle.std.specs.Prelude.{◌≡◌, ◌≤◌, ◌^◌, [], ◌∷◌, ◌++◌, false, is_ok, OnOk, OnErr};
ghost use Rattle.std.specs.List.{list_any};
ghost use Rattle.nova_scenario.specs.Images.{empty, begun, end_of, shares, with_apart, with_image, is_word_address};
ghost use Rattle.nova_scenario.specs.Read.{Becomes, BecomesAt, TakesIf};
ghost use Rattle.nova_scenario.specs.Sources.{closing, row_in, with_source};
ghost use Rattle.nova_scenario.specs.Fault.{on_line};
ghost use Rattle.nova_scenario.specs.Scenario.{finished};
ghost use Rattle.nova_scenario.specs.Segments.{with_settings};
ghost use Rattle.nova_scenario.specs.Settings.{entered, ram_size, with_setting};

use crate::fault::{ScenarioFault, Why};
use crate::image::{Image, Images};
use crate::occupied::Occupied;
use crate::scenario::Scenario;
use crate::settings::{Root, Settings};
use crate::source::SourceRow;
use crate::statement::{Setting, SourceHead};
use std::alloc::{AllocError, Global};
use std::marker::Model;

/// The most sources of a scenario.
const MAX_SOURCES: usize = 32;

/// What the text says so far. Contracts see the settings and the list of images.
#[derive(Drop)]
pub struct Draft {
    settings: Settings,
    images: Vec<Image>,
    occupied: Occupied,
    sources: Vec<SourceRow>,
    closed: bool,
}

impl Model for Draft {
    ghost use Rattle.nova_scenario.specs.Images.{Draft as DraftValue};

    ghost Value = { DraftValue };

    ghost use Rattle.nova_scenario.specs.Kept.{IsKept};

    ghost view = { λ d. record { settings = d.settings; images = d.images.items; sources = d.sources.items; closed = d.closed } };

    ghost invariant = { λ d. IsKept d.settings d.images.items d.occupied };
}

impl Draft {
    /// A draft with no settings and no images.
    pub fn new(alloc: Global) -> Draft
        ensures { result ≡ empty }
    {
        Draft {
            settings: Settings::new(),
            images: Vec::new(alloc),
            occupied: Occupied::new(alloc),
            sources: Vec::new(alloc),
            closed: false,
        }
    }

    /// Adds `setting` to the draft.
    pub fn set(&mut self, setting: Setting) -> Result<(), Why>
        ensures { Becomes (with_settings self.old (with_setting self.old.settings setting)) self.new result }
    {
        self.settings = self.settings.with(setting)?;
        Ok(())
    }

    /// The source of the line `head`, where it may stand.
    fn source_of(&self, head: SourceHead) -> Result<SourceRow, Why>
        ensures { result ≡ row_in self.now head }
    {
        if self.closed {
            return Err(Why::Syntax);
        }
        if !self.settings.is_whole() {
            return Err(Why::Missing);
        }
        match self.settings.source_of(head) {
            Some(row) if self.sources.len() < MAX_SOURCES => Ok(row),
            _ => Err(Why::Range),
        }
    }

    /// Adds the source `head` of line `line`.
    pub fn add_source(&mut self, head: SourceHead, line: u64) -> Result<(), ScenarioFault>
        ensures draft { BecomesAt (on_line line (with_source self.old head)) self.new result }
        ensures memory { TakesIf (is_ok (with_source self.old head)) result }
    {
        let row = self.source_of(head).map_err(|why| why.at(line))?;
        self.sources.reserve(1)?;
        self.sources.push_reserved(row);
        Ok(())
    }

    /// Closes the draft: no source may follow.
    pub fn close(&mut self)
        ensures { self.new ≡ closing self.old }
    {
        self.closed = true;
    }

    /// The address of an image that begins, at `address` where that is given.
    pub fn begin(&self, address: Option<u32>) -> Result<u32, Why>
        ensures { result ≡ begun self.now.settings address }
    {
        if !self.settings.is_whole() {
            return Err(Why::Missing);
        }
        match address {
            Some(address) if is_word_address(self.settings.ram_size(), address) => Ok(address),
            _ => Err(Why::Range),
        }
    }

    /// Makes the executable's `entry` the root's pc, where the root has none yet: Range where that is no multiple of 4 below 2^32.
    pub fn enter(&mut self, entry: u64) -> Result<(), Why>
        ensures { Becomes (with_settings self.old (entered self.old.settings self.old.settings.root entry)) self.new result }
    {
        self.settings = self.settings.entered(entry)?;
        Ok(())
    }

    /// How many bytes RAM has.
    pub fn ram_size(&self) -> u64
        ensures size { result ≡ ram_size self.now.settings }
        ensures small { result ≤ 2 ^ 26 }
    {
        self.settings.ram_size()
    }

    /// Adds `image`, of words, which ends at line `line`.
    pub fn add(&mut self, image: Image, line: u64) -> Result<(), ScenarioFault>
        ensures { BecomesAt (on_line line (with_image self.old image)) self.new result }
    {
        if self.settings.ram_size() < end_of(&image) {
            return Err(Why::Range.at(line));
        }
        self.add_apart(image, line)
    }

    /// Adds `image`, of a block that ends at line `line`.
    pub fn add_apart(&mut self, image: Image, line: u64) -> Result<(), ScenarioFault>
        ensures image { BecomesAt (on_line line (with_apart self.old image)) self.new result }
        ensures settings { OnOk result (self.new.settings ≡ self.old.settings) }
    {
        let start = u64::from(image.address);
        let end = end_of(&image);
        if self.occupied.meets(start, end) {
            return Err(Why::Overlap.at(line));
        }
        self.keep(image, start, end)?;
        Ok(())
    }

    /// Adds `image`, which lies from `start` up to `end`, where no other does.
    fn keep(&mut self, image: Image, start: u64, end: u64) -> Result<(), AllocError>
        requires start { start ≡ image.address }
        requires end { end ≡ end_of image }
        requires free { list_any (shares image) self.old.images ≡ false }
        ensures kept { OnOk result (self.new ≡ record self.old { images = self.old.images ++ image ∷ [] }) }
        ensures err { OnErr result (self.new ≡ self.old) }
    {
        self.images.reserve(1)?;
        self.occupied.add(start, end)?;
        self.images.push_reserved(image);
        Ok(())
    }

    /// The scenario, if all settings stand.
    pub fn finish(self) -> Option<Scenario>
        ensures { result ≡ finished self }
    {
        let Settings {
            cpus,
            ram,
            consoles,
            root,
        } = self.settings;
        match (cpus, ram, consoles, root) {
            (
                Some(cpus),
                Some(ram),
                Some(consoles),
                Some(
                    Root {
                        pc: Some(pc),
                        sp,
                        priority,
                        quantum,
                    },
                ),
            ) => Some(Scenario {
                cpus,
                ram,
                consoles,
                pc,
                sp,
                priority,
                quantum,
                images: self.images.into(),
                sources: self.sources.into(),
            }),
            _ => None,
        }
    }
}

/// The address after `image`.
fn end_of(image: &Image) -> u64
    ensures { result ≡ end_of image.now }
{
    u64::from(image.address) + image.bytes.as_slice().len() as u64
}

/// Whether `address` is a multiple of 4 in RAM of `ram` bytes.
fn is_word_address(ram: u64, address: u32) -> bool
    ensures { result ≡ is_word_address ram address }
{
    address % 4 == 0 && u64::from(address) + 4 <= ram
}
