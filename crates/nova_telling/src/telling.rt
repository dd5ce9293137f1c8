ghost use Rattle.std.specs.Prelude.{◌≡◌, ◌++◌, ◌<◌, ◌^◌, codes, length, OnOk, string_bytes, option_map, slice_get, Some};
ghost use Rattle.nova_report.specs.Words.{line_feed, parent_word};
ghost use Rattle.nova_model.specs.State.{context_at, entry};
ghost use Rattle.rv_model.specs.Codes.{instr_of};
ghost use Rattle.nova_telling.specs.Told.{access_line, awaited, bytes_text, caller_of, code_line, context_line, event_line, events_between, events_text, frame_line, instruction_line, load_line, numbers_text, object_line, object_lines, page_line, place_line, queue_line, store_line, told_at, word_text, words_line, words_text};

use crate::reading::Reading;
use crate::slices::write_slices;
use nova_kernel::{EcState, Event, Kernel, Object, State, Utcb};
use nova_recording::{Access, Next, Recording};
use nova_report::{
    event_word, write_byte, write_consoles, write_contexts, write_derivations, write_semaphores,
    write_word,
};
use rv_asm::print;
use rv_core::decode;
use std::alloc::{AllocError, Global};

fn write_place(out: &mut String, turn: usize, turns: usize) -> Result<(), AllocError>
    ensures { OnOk result (string_bytes out.new ≡ string_bytes out.old ++ place_line turn turns) }
{
    writeln!(out, "turn {turn} of {turns}")
}

fn write_instruction(out: &mut String, next: Option<Next>) -> Result<(), AllocError>
    ensures { OnOk result (string_bytes out.new ≡ string_bytes out.old ++ instruction_line next) }
{
    match next {
        Some(Next { ec, pd, pc }) => writeln!(out, "next {ec} {pd} {pc}"),
        None => out.push_str("next -\n"),
    }
}

fn write_event(out: &mut String, place: usize, event: Event) -> Result<(), AllocError>
    ensures { OnOk result (string_bytes out.new ≡ string_bytes out.old ++ event_line place event) }
{
    let Event {
        cpu,
        sc,
        ec,
        kind,
        a,
        b,
    } = event;
    let word = event_word(kind);
    writeln!(out, "event {place} {cpu} {sc} {ec} {word} {a} {b}")
}

/// The events of the turns from `from` on, before `to`.
fn events_between(events: &[Event], from: usize, to: usize) -> &[Event]
    ensures between { result.now ≡ events_between events.now from to }
    ensures fits { length result.now < 2 ^ 63 }
{
    let (_, rest) = events.split_at(from.min(events.len()));
    let (between, _) = rest.split_at(to.saturating_sub(from).min(rest.len()));
    between
}

fn write_events(out: &mut String, from: usize, events: &[Event]) -> Result<(), AllocError>
    requires from { from < 2 ^ 32 }
    requires fits { length events.now < 2 ^ 63 }
    ensures { OnOk result (string_bytes out.new ≡ string_bytes out.old ++ events_text from events.now) }
{
    for (i, event) in events.iter().enumerate() {
        write_event(out, from + i, *event)?;
    }
    Ok(())
}

fn write_option(out: &mut String, number: Option<u32>) -> Result<(), AllocError>
    ensures { OnOk result (string_bytes out.new ≡ string_bytes out.old ++ parent_word number) }
{
    match number {
        Some(number) => write!(out, "{number}"),
        None => out.push_str("-"),
    }
}

/// What an execution context in `state` waits for: the handler of its call or exit, or a semaphore.
fn awaited(state: State) -> Option<u32>
    ensures { result ≡ awaited state }
{
    match state {
        State::Calling(handler) => Some(handler),
        State::Helping(handler) => Some(handler),
        State::Sending(_, _, _, handler) => Some(handler),
        State::Blocked(sm) => Some(sm),
        _ => None,
    }
}

/// The caller that `context` serves.
fn caller_of(context: &EcState) -> Option<u32>
    ensures { result ≡ caller_of context.now }
{
    match context.caller {
        Some((caller, _)) => Some(caller),
        None => None,
    }
}

/// Writes the caller of an execution context and what it waits for, at the end of its line.
fn write_edges(
    out: &mut String,
    caller: Option<u32>,
    awaited: Option<u32>,
) -> Result<(), AllocError>
    ensures { OnOk result (string_bytes out.new ≡ string_bytes out.old ++ (parent_word caller ++ (codes " " ++ (parent_word awaited ++ line_feed)))) }
{
    write_option(out, caller)?;
    out.push_str(" ")?;
    write_option(out, awaited)?;
    out.push_str("\n")
}

fn write_context(
    out: &mut String,
    id: u32,
    pd: u32,
    cpu: u32,
    context: &EcState,
) -> Result<(), AllocError>
    ensures { OnOk result (string_bytes out.new ≡ string_bytes out.old ++ context_line id pd cpu (Some context.now)) }
{
    write!(out, "object {id} {pd} {cpu} ")?;
    write_edges(out, caller_of(context), awaited(context.state))
}

fn write_context_of(
    out: &mut String,
    kernel: &Kernel,
    id: u32,
    pd: u32,
    cpu: u32,
) -> Result<(), AllocError>
    ensures { OnOk result (string_bytes out.new ≡ string_bytes out.old ++ context_line id pd cpu (context_at kernel.now.state id)) }
{
    match kernel.ec(id) {
        Some(context) => write_context(out, id, pd, cpu, context),
        None => Ok(()),
    }
}

fn write_object(
    out: &mut String,
    kernel: &Kernel,
    id: u32,
    object: Object,
) -> Result<(), AllocError>
    ensures { OnOk result (string_bytes out.new ≡ string_bytes out.old ++ object_line kernel.now.state (id, object)) }
{
    match object {
        Object::Ec { pd, cpu, .. } => write_context_of(out, kernel, id, pd, cpu),
        _ => Ok(()),
    }
}

fn write_objects(out: &mut String, kernel: &Kernel) -> Result<(), AllocError>
    ensures { OnOk result (string_bytes out.new ≡ string_bytes out.old ++ object_lines kernel.now.state) }
{
    for (i, object) in kernel.objects().iter().enumerate() {
        write_object(out, kernel, i as u32, *object)?;
    }
    Ok(())
}

fn write_word_after_space(out: &mut String, word: u32) -> Result<(), AllocError>
    ensures { OnOk result (string_bytes out.new ≡ string_bytes out.old ++ word_text word) }
{
    out.push_str(" ")?;
    write_word(out, word)
}

#[tactic(auto, unfolding(crate::specs::Told::words_text))]
fn write_each_word(out: &mut String, words: &Utcb) -> Result<(), AllocError>
    ensures { OnOk result (string_bytes out.new ≡ string_bytes out.old ++ words_text words.now) }
{
    for i in 0..128 {
        write_word_after_space(out, words.word(i))?;
    }
    Ok(())
}

fn write_words(out: &mut String, words: Option<&Utcb>) -> Result<(), AllocError>
    ensures { OnOk result (string_bytes out.new ≡ string_bytes out.old ++ words_line (option_map (λ w. w.now) words.entry)) }
{
    let Some(words) = words else {
        return out.push_str("words -\n");
    };
    out.push_str("words")?;
    write_each_word(out, words)?;
    out.push_str("\n")
}

fn write_bytes(out: &mut String, bytes: &[u8]) -> Result<(), AllocError>
    ensures { OnOk result (string_bytes out.new ≡ string_bytes out.old ++ bytes_text bytes.now) }
{
    for byte in bytes {
        write_byte(out, *byte)?;
    }
    Ok(())
}

fn write_frame(out: &mut String, kernel: &Kernel, frame: u32) -> Result<(), AllocError>
    ensures { OnOk result (string_bytes out.new ≡ string_bytes out.old ++ frame_line (slice_get kernel.now.state.memory.ram frame)) }
{
    if frame >= kernel.ram() {
        return out.push_str("bytes -\n");
    }
    out.push_str("bytes ")?;
    write_bytes(out, kernel.frame(frame))?;
    out.push_str("\n")
}

fn write_numbers(out: &mut String, numbers: &[u32]) -> Result<(), AllocError>
    ensures { OnOk result (string_bytes out.new ≡ string_bytes out.old ++ numbers_text numbers.now) }
{
    for number in numbers {
        write!(out, " {number}")?;
    }
    Ok(())
}

fn write_queue(out: &mut String, queue: &[u32]) -> Result<(), AllocError>
    ensures { OnOk result (string_bytes out.new ≡ string_bytes out.old ++ queue_line queue.now) }
{
    out.push_str("queue")?;
    write_numbers(out, queue)?;
    out.push_str("\n")
}

/// Writes what `page` leads to: a frame, and the rights there.
pub fn write_page(out: &mut String, page: Option<(u32, u8)>) -> Result<(), AllocError>
    ensures { OnOk result (string_bytes out.new ≡ string_bytes out.old ++ page_line page) }
{
    match page {
        Some((frame, rights)) => writeln!(out, "page {frame} {rights}"),
        None => out.push_str("page -\n"),
    }
}

fn write_load(
    out: &mut String,
    address: u32,
    width: u32,
    frame: Option<u32>,
) -> Result<(), AllocError>
    ensures { OnOk result (string_bytes out.new ≡ string_bytes out.old ++ load_line address width frame) }
{
    let offset = address % 4096;
    match frame {
        Some(frame) => writeln!(out, "access load {address} {width} {frame} {offset}"),
        None => writeln!(out, "access load {address} {width} - {offset}"),
    }
}

fn write_store(
    out: &mut String,
    address: u32,
    width: u32,
    frame: Option<u32>,
    value: u32,
) -> Result<(), AllocError>
    ensures { OnOk result (string_bytes out.new ≡ string_bytes out.old ++ store_line address width frame value) }
{
    let offset = address % 4096;
    match frame {
        Some(frame) => writeln!(
            out,
            "access store {address} {width} {frame} {offset} {value}"
        ),
        None => writeln!(out, "access store {address} {width} - {offset} {value}"),
    }
}

/// Writes `access`, what a turn loads or stores: the address, how many bytes, the frame and the offset there, and the number that is stored.
pub fn write_access(out: &mut String, access: Option<Access>) -> Result<(), AllocError>
    ensures { OnOk result (string_bytes out.new ≡ string_bytes out.old ++ access_line access) }
{
    let Some(access) = access else {
        return out.push_str("access -\n");
    };
    let Access {
        address,
        width,
        stored,
        frame,
    } = access;
    match stored {
        None => write_load(out, address, width, frame),
        Some(value) => write_store(out, address, width, frame, value),
    }
}

/// Writes the text of the instruction `word`, as the assembler has it.
pub fn write_code(alloc: Global, out: &mut String, word: u32) -> Result<(), AllocError>
    ensures { OnOk result (string_bytes out.new ≡ string_bytes out.old ++ code_line (instr_of word)) }
{
    match decode(word) {
        Some(instr) => {
            let text = print(alloc, &instr)?;
            writeln!(out, "code {text}")
        }
        None => out.push_str("code -\n"),
    }
}

/// Tells in `out` what `reading` asks of `recording` in its present state, which is that after the first
/// entries of its order, as many as its turn says.
pub fn tell(
    alloc: Global,
    out: &mut String,
    recording: &Recording,
    reading: Reading,
) -> Result<(), AllocError>
    ensures { OnOk result (string_bytes out.new ≡ string_bytes out.old ++ told_at recording.now reading) }
{
    let kernel = recording.kernel();
    let events = recording.events();
    match reading {
        Reading::Place => write_place(out, recording.turn(), events.len()),
        Reading::Instruction => write_instruction(out, recording.next()),
        Reading::Contexts => write_contexts(out, kernel),
        Reading::Semaphores => write_semaphores(out, kernel),
        Reading::Consoles => write_consoles(out, kernel),
        Reading::Delegations => write_derivations(out, kernel),
        Reading::Objects => write_objects(out, kernel),
        Reading::Words(ec) => write_words(out, kernel.words(ec)),
        Reading::Frame(frame) => write_frame(out, kernel, frame),
        Reading::Events(from, to) => {
            let (from, to) = (from as usize, to as usize);
            write_events(out, from, events_between(events, from, to))
        }
        Reading::Slices(from, to) => {
            let (from, to) = (from as usize, to as usize);
            write_slices(out, from, events_between(events, from, to))
        }
        Reading::Queue(sm) => write_queue(out, &kernel.queue(alloc, sm)?),
    }
}
