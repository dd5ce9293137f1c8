ghost use Rattle.std.specs.Prelude.{◌≡◌, option_and_then, ◌<◌, if◌then◌else◌, ◌≤◌, ◌^◌, drop, length, take, IfOk, OnErr};
ghost use Rattle.nova_model.specs.Inputs.{only_if, own_input, reply_groups, reply_of, reply_word, reply_words, contents_of};
ghost use Rattle.nova_preview.specs.Ahead.{foreign_at};
ghost use Rattle.nova_range.specs.Mtds.{names};
ghost use Rattle.nova_utcb.specs.Messages.{IsMessage, groups_in};
ghost use Rattle.nova_preview.specs.Given.{BringsBytes, given_in};
ghost use Rattle.nova_model.specs.Views.{is_memory_of};

use bitflags::Flags;
use nova_deeds::inputs::is_memory_of;
use nova_guest::{Bytes, Input};
use nova_memory::{Reach, Write};
use nova_model::{Deed, Derivation};
use nova_range::Mtd;
use nova_utcb::Utcb;
use std::alloc::{AllocError, Global};

/// The input that `deed`, a virtual CPU's own, is for it: it acts, its exit is sent, or it ends.
pub fn own_input(deed: Deed) -> Option<Input>
    ensures { result ≡ own_input deed }
{
    match deed {
        Deed::Steps | Deed::Raises { .. } => Some(Input::Own),
        Deed::Sends { .. } => Some(Input::Sent),
        Deed::Dies { .. } | Deed::Aborts { .. } => Some(Input::Died),
        _ => None,
    }
}

/// The input `input` where `test` holds, and else none.
pub fn input_if(test: bool, input: Input) -> Option<Input>
    ensures { result ≡ only_if test input }
{
    if test { Some(input) } else { None }
}

/// The input that the store `write` is for a virtual CPU of the protection domain `pd`: none where it goes to
/// no RAM frame to which memory of the domain leads.
pub fn foreign(reach: &Reach, pd: u32, write: Option<Write>) -> Option<Input>
    ensures { result ≡ option_and_then (foreign_at reach.now pd) write }
{
    let Write {
        frame,
        offset,
        width,
        value,
    } = write?;
    if frame < reach.ram_frames() && reach.leads_to(pd, frame) {
        Some(Input::Foreign {
            frame,
            offset,
            width,
            value,
        })
    } else {
        None
    }
}

/// The bits of the groups of registers: pc, x1 to x15 and x16 to x31.
const REGISTERS: u32 = 14;

/// How many words of a message are told: pc, a word that is 0, and x1 to x31.
const TOLD: usize = 33;

/// The first of these words.
const FIRST: usize = 7;

/// The groups that word 4 of `message` names.
fn groups_in(message: &Utcb) -> Mtd
    ensures { result ≡ groups_in message.now }
{
    Mtd::from_bits_retain(message.word(4))
}

/// The groups that the reply `message` names, but for the qualifications.
fn reply_groups(message: &Utcb) -> Mtd
    ensures { result ≡ reply_groups message.now }
{
    Mtd::from_bits_retain(groups_in(message).bits() & REGISTERS)
}

/// `word` of `group`, or 0 where `groups` don't name it.
fn named_word(groups: Mtd, group: Mtd, word: u32) -> u32
    ensures { result ≡ if names groups group then word else 0 }
{
    if groups.contains(group) { word } else { 0 }
}

/// Word `n` that a reply tells: 0 where its group isn't named, and word 8 is 0.
fn reply_word(message: &Utcb, n: usize) -> u32
    requires { n < 128 }
    ensures word { result ≡ reply_word message.now n }
    ensures message { IsMessage message.now }
{
    let groups = groups_in(message);
    let word = message.word(n);
    if n == FIRST {
        named_word(groups, Mtd::PC, word)
    } else if n == FIRST + 1 {
        0
    } else if n <= 23 {
        named_word(groups, Mtd::LOW, word)
    } else {
        named_word(groups, Mtd::HIGH, word)
    }
}

/// The words that the reply `message` tells, in order.
fn reply_words(message: &Utcb) -> [u32; TOLD]
    ensures { result ≡ reply_words message.now }
{
    let mut words = [0; TOLD];
    for i in 0..TOLD {
        words[i] = reply_word(message, FIRST + i);
    }
    words
}

/// The input of a reply with `message`, where `test` holds, and else none.
pub fn reply_if(test: bool, message: &Utcb) -> Option<Input>
    ensures { result ≡ only_if test (reply_of message.now) }
{
    if test {
        Some(Input::Reply(reply_groups(message), reply_words(message)))
    } else {
        None
    }
}

/// How many RAM frames there are of the `2^order` frames from `frame` on.
fn ram_frames(reach: &Reach, frame: u32, order: u8) -> u32
    requires { order ≤ 20 }
    ensures count { result ≡ length (take (2 ^ order) (drop frame reach.now.memory.ram)) }
    ensures few { length reach.now.memory.ram < 2 ^ 32 }
{
    let left = reach.ram_frames().saturating_sub(frame);
    left.min(1 << order)
}

/// The bytes of the RAM frames of the `2^order` frames from `frame` on, one after another; a console has none.
/// Memory can run out only where there are any.
fn contents(alloc: Global, reach: &Reach, frame: u32, order: u8) -> Result<Bytes, AllocError>
    requires { order ≤ 20 }
    ensures bytes { IfOk result (λ bytes. bytes ≡ contents_of reach.now.memory.ram frame order) }
    ensures memory { OnErr result (0 < length (contents_of reach.now.memory.ram frame order)) }
{
    let mut bytes = Vec::new(alloc);
    for i in 0..ram_frames(reach, frame, order) {
        bytes.extend_from_slice(reach.frame(frame + i))?;
    }
    Ok(Bytes::new(bytes))
}

/// The input that making `child` is for the protection domain `pd`, where it is its memory: its map, with the
/// bytes of its RAM frames. Memory can run out only where there are such bytes.
pub fn given_if(
    alloc: Global,
    reach: &Reach,
    pd: u32,
    child: &Derivation,
) -> Result<Option<Input>, AllocError>
    requires { child.now.order ≤ 20 }
    ensures input { IfOk result (λ i. i ≡ only_if (is_memory_of pd child.now) (given_in reach.now.memory.ram child.now)) }
    ensures memory { OnErr result (BringsBytes (only_if (is_memory_of pd child.now) (given_in reach.now.memory.ram child.now))) }
{
    if !is_memory_of(pd, child) {
        return Ok(None);
    }
    let contents = contents(alloc, reach, child.target, child.order)?;
    Ok(Some(Input::Given {
        base: child.base,
        order: child.order,
        rights: child.rights,
        frame: child.target,
        contents,
    }))
}
