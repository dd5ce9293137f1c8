ghost use Rattle.std.specs.Prelude.{◌≡◌, ◌^◌, ◌<◌, length, option_map, OnOk};
ghost use Rattle.std.specs.Io.KnownBytes.{Appends};
ghost use Rattle.nova_text.specs.Token.{texts_of, tokens_left};
ghost use Rattle.nova_debug.specs.Answers.{reply_text};
ghost use Rattle.nova_debug.specs.Commands.{command_of, words_of};
ghost use Rattle.nova_debug.specs.Conversations.{HasConversed, HasToldOrder, HasToldReply, HasWritten};
ghost use Rattle.nova_debug.specs.Orders.{behind_order, order_text};

use crate::command::{Command, command_of};
use crate::orders::{OrderReply, reply_to_pairs};
use crate::serving::{Reply, Session};
use nova_text::Line;
use std::alloc::Global;
use std::io;
use std::io::{BufRead, Write};

/// The line that `text` is, whole.
fn whole(text: &[u8]) -> Line<'_>
    ensures { texts_of (tokens_left result) ≡ words_of text.now }
{
    Line {
        number: 1,
        start: 0,
        text,
    }
}

/// What `line` asks; none where it is no command.
fn asked(line: &[u8]) -> Option<Command>
    ensures { result ≡ command_of (words_of line.now) }
{
    command_of(&mut whole(line))
}

/// What stands in `line` behind the word `order`; none where another word is the first.
fn behind_order(line: &[u8]) -> Option<Line<'_>>
    ensures { option_map (λ rest. texts_of (tokens_left rest)) result ≡ behind_order (words_of line.now) }
{
    let mut rest = whole(line);
    let verb = rest.next_token()?;
    if verb.text == b"order".as_slice() {
        Some(rest)
    } else {
        None
    }
}

/// Writes the lines of `reply`, of which `text`, what is told, comes first.
fn write_reply<W: Write>(out: &mut W, text: &[u8], reply: Reply) -> io::Result<()>
    ensures { OnOk result (Appends (W.contents out.old) (W.contents out.new) (reply_text reply text.now)) }
{
    match reply {
        Reply::No => out.write_all(b"no\n"),
        Reply::Done(turn) => {
            out.write_all(text)?;
            writeln!(out, "ok {turn}")
        }
        Reply::Refused(turn) => writeln!(out, "memory {turn}"),
    }
}

/// Writes the lines of `reply`, to an order.
fn write_order_reply<W: Write>(out: &mut W, reply: &OrderReply) -> io::Result<()>
    ensures { OnOk result (Appends (W.contents out.old) (W.contents out.new) (order_text reply.now)) }
{
    match reply {
        OrderReply::No => out.write_all(b"no\n"),
        OrderReply::Report(text) => {
            out.write_all(text)?;
            out.write_all(b"ok\n")
        }
        OrderReply::Idle(block) => writeln!(out, "idle {block}"),
        OrderReply::Memory => out.write_all(b"memory\n"),
    }
}

/// Answers `pairs`, what stands behind the word `order`, by the run of another order.
fn answer_order<W: Write>(
    alloc: Global,
    out: &mut W,
    session: &Session,
    pairs: &mut Line,
) -> io::Result<()>
    ensures { OnOk result (HasToldOrder session.now (texts_of (tokens_left pairs.old)) (W.contents out.old) (W.contents out.new)) }
{
    let reply = reply_to_pairs(alloc, session.recording.opening(), pairs);
    write_order_reply(out, &reply)
}

/// Answers `line`, which asks something of the session's run.
fn answer_command<W: Write>(
    alloc: Global,
    out: &mut W,
    session: &mut Session,
    line: &[u8],
) -> io::Result<()>
    ensures { OnOk result (HasToldReply session.old (words_of line.now) session.new (W.contents out.old) (W.contents out.new)) }
{
    let mut text = String::new(alloc);
    let reply = session.reply(alloc, &mut text, asked(line));
    write_reply(out, text.as_bytes(), reply)
}

/// Answers `line`.
fn answer<W: Write>(
    alloc: Global,
    out: &mut W,
    session: &mut Session,
    line: &[u8],
) -> io::Result<()>
    ensures { OnOk result (HasWritten session.old line.now session.new (W.contents out.old) (W.contents out.new)) }
{
    match behind_order(line) {
        Some(mut pairs) => answer_order(alloc, out, session, &mut pairs),
        None => answer_command(alloc, out, session, line),
    }
}

/// Answers each line of `input` in `out`, in the session that the line before it left, before the next is read.
pub fn converse<R: BufRead + Drop, W: Write>(
    alloc: Global,
    input: R,
    out: &mut W,
    session: &mut Session,
) -> io::Result<()>
    ensures { OnOk result (HasConversed session.old session.new (R.remaining input) (W.contents out.old) (W.contents out.new)) }
{
    for line in input.split(alloc, b'\n') {
        let line = line?;
        answer(alloc, out, session, &line)?;
        out.flush()?;
    }
    Ok(())
}
