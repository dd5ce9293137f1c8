ghost use Rattle.std.specs.Prelude.{◌≡◌, IfOk};

use crate::reach::Reach;
use crate::recent::Recents;
use crate::sights::Sights;
use nova_frames::Frames;
use nova_messages::Messages;
use nova_model::Derivation;
use nova_nodes::Nodes;
use nova_space::Space;
use std::alloc::AllocError;
use std::marker::Model;

/// What an instruction reaches, in memory of its own, without what was read at addresses and which pages were looked up.
#[derive(Drop)]
pub struct ReachTables {
    frames: Frames,
    nodes: Nodes<Space>,
    messages: Messages,
    sights: Sights,
    last: Option<Derivation>,
    ec: u32,
    pd: u32,
    is_thread: bool,
    written: Option<u32>,
}

impl Model for ReachTables {
    ghost use Rattle.std.specs.Prelude.{◌+◌, length, IfSome};
    ghost use Rattle.nova_range.specs.declared.range.Kind.TheVariants.{Mem};
    ghost use Rattle.nova_memory.specs.Reach.{ReachState, IsFound, LeadToFrames};
    ghost use Rattle.nova_memory.specs.Sights.{AreSeen};

    ghost Value = { ReachState };

    ghost view = { λ r. record {
      nodes = r.nodes;
      memory = r.frames.memory;
      messages = r.messages;
      ec = r.ec;
      pd = r.pd;
      is_thread = r.is_thread;
      written = r.written;
      consoles = r.frames.consoles;
      room = r.frames.room;
    } };

    ghost invariant = { λ r. LeadToFrames (length r.frames.memory.ram + r.frames.consoles) r.nodes.delegations.list × (IfSome r.last (IsFound Mem r.nodes.delegations.list) × AreSeen r.nodes.delegations.list r.sights) };
}

impl Reach {
    /// Copies frames, delegations and message words into memory of their own, to be put into another by `restore`. The copy's log has no room for
    /// more bytes.
    pub fn tables(&self) -> Result<ReachTables, AllocError>
        ensures delegations { IfOk result (λ r. r.nodes.delegations ≡ self.now.nodes.delegations) }
        ensures memory { IfOk result (λ r. r.memory ≡ self.now.memory) }
        ensures messages { IfOk result (λ r. r.messages.items ≡ self.now.messages.items) }
        ensures consoles { IfOk result (λ r. r.consoles ≡ self.now.consoles) }
        ensures log { IfOk result (λ r. r.room ≡ 0) }
    {
        let sights = self.sights.copy()?;
        let messages = self.messages.copy()?;
        let frames = self.frames.copy()?;
        let nodes = self.nodes.copy()?;
        Ok(ReachTables {
            frames,
            nodes,
            messages,
            sights,
            last: self.last,
            ec: self.ec,
            pd: self.recents.pd,
            is_thread: self.is_thread,
            written: self.written,
        })
    }

    /// Puts `tables` in place of what is there. Nothing is remembered any more, but no memory is taken and little is written.
    pub fn restore(&mut self, tables: ReachTables)
        ensures { self.new ≡ tables }
    {
        self.recents = Recents::new(tables.pd);
        self.others = Recents::new(tables.pd);
        self.recalled.forget();
        self.frames = tables.frames;
        self.nodes = tables.nodes;
        self.messages = tables.messages;
        self.sights = tables.sights;
        self.last = tables.last;
        self.ec = tables.ec;
        self.is_thread = tables.is_thread;
        self.written = tables.written;
    }
}
