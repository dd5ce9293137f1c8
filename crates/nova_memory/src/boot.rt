ghost use Rattle.std.specs.Prelude.{◌<◌, ◌≡◌, ◌+◌, ◌^◌, ◌≤◌, [], ◌∷◌, length, map, replicate, IfOk, None, Some};
ghost use Rattle.std.specs.List.{range_with_len};
ghost use Rattle.nova_model.specs.Boot.{ram_derivation, console_derivation, root_derivations};
ghost use Rattle.nova_model.specs.State.{no_words};
ghost use Rattle.nova_nodes.specs.NodesStates.{room};
ghost use Rattle.nova_memory.specs.Reach.{page_range, selector_range};

use crate::reach::Reach;
use crate::recent::Recents;
use crate::sights::Sights;
use crate::stepping::Recalled;
use bitflags::Flags;
use nova_frames::Frames;
use nova_messages::Messages;
use nova_model::{Kind, Rights};
use nova_nodes::Nodes;
use nova_range::{Range, Target};
use nova_space::Space;
use nova_utcb::Utcb;
use std::alloc::{AllocError, Global};

/// The message words of the root's thread, which are all 0.
fn root_messages(alloc: Global) -> Result<Messages, AllocError>
    ensures { IfOk result (λ m. m.items ≡ None ∷ Some no_words ∷ None ∷ []) }
{
    let mut messages = Messages::new(alloc);
    messages.reserve(3)?;
    messages.add(None);
    messages.add(Some(Utcb::new()));
    messages.add(None);
    Ok(messages)
}

/// Adds RAM of `2^order` frames, to be read, written and executed, and the page of each of `consoles` consoles, to be read and written.
fn add_memory(nodes: &mut Nodes<Space>, order: u8, consoles: u32)
    requires order { order ≤ 14 }
    requires consoles { consoles ≤ 16 }
    requires empty { nodes.old.delegations ≡ record { list = []; next = 0 } }
    requires room { consoles + 4 ≤ room nodes.old 0 }
    ensures delegations { nodes.new.delegations ≡ record { list = ram_derivation order ∷ map (console_derivation order) (range_with_len 0 consoles); next = 1 + consoles } }
    ensures room { 3 ≤ room nodes.new 0 }
{
    let ram = Range {
        kind: Kind::Mem,
        base: 0,
        order,
    };
    nodes.root(0, ram, Rights::from_bits_retain(7), 0);
    for console in 0..consoles {
        add_console(nodes, order, console);
    }
}

/// The page of the console `console`, after RAM and the consoles before it.
fn console_page(order: u8, console: u32) -> u32
    requires order { order ≤ 14 }
    requires console { console < 16 }
    ensures page { result ≡ 2 ^ order + console }
    ensures few { result < 2 ^ 15 }
{
    (1 << order) + console
}

/// The range of `page`.
fn page_range(page: u32) -> Range
    ensures { result ≡ page_range page }
{
    Range {
        kind: Kind::Mem,
        base: page,
        order: 0,
    }
}

/// Adds the page of the console `console`, after RAM and the consoles before it.
fn add_console(nodes: &mut Nodes<Space>, order: u8, console: u32)
    requires order { order ≤ 14 }
    requires console { console < 16 }
    requires before { nodes.old.delegations ≡ record { list = ram_derivation order ∷ map (console_derivation order) (range_with_len 0 console); next = 1 + console } }
    requires room { 0 < room nodes.old 0 }
    ensures delegations { nodes.new.delegations ≡ record { list = ram_derivation order ∷ map (console_derivation order) (range_with_len 0 (console + 1)); next = 1 + (console + 1) } }
    ensures room { room nodes.old 0 ≤ room nodes.new 0 + 1 }
{
    let page = console_page(order, console);
    nodes.root(0, page_range(page), Rights::from_bits_retain(3), page);
}

/// The range of `selector`.
fn selector_range(selector: u32) -> Range
    ensures { result ≡ selector_range selector }
{
    Range {
        kind: Kind::Obj,
        base: selector,
        order: 0,
    }
}

/// Adds the root's own three objects, at the selectors of their numbers: its protection domain, its
/// execution context and its scheduling context.
fn add_objects(nodes: &mut Nodes<Space>, order: u8, consoles: u32)
    requires consoles { consoles ≤ 16 }
    requires before { nodes.old.delegations ≡ record { list = ram_derivation order ∷ map (console_derivation order) (range_with_len 0 consoles); next = 1 + consoles } }
    requires room { 3 ≤ room nodes.old 0 }
    ensures { nodes.new.delegations ≡ record { list = root_derivations order consoles; next = consoles + 4 } }
{
    nodes.root(0, selector_range(0), Rights::all_to(Target::Pd), 0);
    nodes.root(0, selector_range(1), Rights::all_to(Target::Ec), 1);
    nodes.root(0, selector_range(2), Rights::all_to(Target::Sc), 2);
}

/// What the root holds: RAM, the consoles, and its own three objects.
fn root_nodes(alloc: Global, order: u8, consoles: u32) -> Result<Nodes<Space>, AllocError>
    requires order { order ≤ 14 }
    requires consoles { consoles ≤ 16 }
    ensures { IfOk result (λ n. n.delegations ≡ record { list = root_derivations order consoles; next = consoles + 4 }) }
{
    let mut nodes = Nodes::new(alloc);
    nodes.reserve(0, consoles as usize + 4)?;
    add_memory(&mut nodes, order, consoles);
    add_objects(&mut nodes, order, consoles);
    Ok(nodes)
}

impl Reach {
    /// What a machine boots with: `2^ram` frames of zeros, what the root holds, and the message words of its thread.
    /// The log has room for `log_room` bytes.
    pub fn new(alloc: Global, ram: u8, consoles: u32, log_room: u64) -> Result<Reach, AllocError>
        requires ram { ram ≤ 14 }
        requires consoles { consoles ≤ 16 }
        ensures delegations { IfOk result (λ r. r.nodes.delegations ≡ record { list = root_derivations ram consoles; next = consoles + 4 }) }
        ensures memory { IfOk result (λ r. r.memory ≡ record { ram = replicate (2 ^ ram) (replicate 4096 0); log = [] }) }
        ensures messages { IfOk result (λ r. r.messages.items ≡ None ∷ Some no_words ∷ None ∷ []) }
        ensures consoles { IfOk result (λ r. r.consoles ≡ consoles) }
        ensures room { IfOk result (λ r. r.room ≡ log_room) }
    {
        let frames = Frames::new(alloc, ram, consoles, log_room)?;
        let nodes = root_nodes(alloc, ram, consoles)?;
        let messages = root_messages(alloc)?;
        let sights = Sights::new(alloc, frames.ram_frames())?;
        Ok(Reach {
            frames,
            nodes,
            messages,
            last: None,
            sights,
            ec: 1,
            is_thread: true,
            written: None,
            recents: Recents::new(0),
            others: Recents::new(0),
            recalled: Recalled::none(),
        })
    }
}
