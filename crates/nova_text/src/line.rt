ghost use Rattle.std.specs.Prelude.{◌≡◌, ◌+◌, ◌≤◌, ◌<◌, ◌^◌, length};

use crate::bytes::{gap_len, token_len};
use crate::span::Span;

/// A line of a text without its line feed, or what is left of it after the tokens that were taken.
#[derive(Clone, Copy, Debug, PartialEq, Eq)]
pub struct Line<'a> {
    /// Its number in the text, from 1.
    pub number: u64,

    /// The place in the text of the first byte that is left, from 0.
    pub start: u64,

    /// The bytes that are left.
    pub text: &'a [u8],

    // Each line in front of this line has at least its line feed.
    ghost counted: { number ≤ start + 1 },

    // No slice is longer than `isize::MAX`.
    ghost within: { start + length text.now < 2 ^ 63 },
}

/// A token of a line: bytes in a row between separators, before the comment.
#[derive(Clone, Copy, Debug, PartialEq, Eq)]
pub struct Token<'a> {
    /// Its bytes.
    pub text: &'a [u8],

    /// Their places in the text that the line is of.
    pub span: Span,

    // The span is as long as the bytes.
    ghost spans: { span.start + length text.now ≡ span.end },
}

impl<'a> Line<'a> {
    ghost use Rattle.std.specs.Iterator.{YieldsFirstBy};
    ghost use Rattle.std.specs.Prelude.{option_map};
    ghost use Rattle.nova_text.specs.Line.{row_of};
    ghost use Rattle.nova_text.specs.Token.{piece_of, tokens_left, row_after};

    /// Takes the next token off the front of the line, with the separators before it.
    ///
    /// `None` comes exactly where no token is left before the comment, and the line then stays as it was.
    pub fn next_token(&mut self) -> Option<Token<'a>>
        ensures tokens { YieldsFirstBy piece_of tokens_left self.old result self.new }
        ensures after { row_of self.new ≡ row_after (option_map piece_of result) (row_of self.old) }
    {
        let gap = gap_len(self.text);
        let (_, rest) = self.text.split_at(gap);
        let len = token_len(rest);
        if len == 0 {
            return None;
        }
        let (text, after) = rest.split_at(len);
        let start = self.start + gap as u64;
        let end = start + len as u64;
        self.start = end;
        self.text = after;
        Some(Token {
            text,
            span: Span { start, end },
        })
    }
}
