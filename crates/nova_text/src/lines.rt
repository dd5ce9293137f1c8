use crate::bytes::split_line;
use crate::line::Line;
use std::marker::Model;

/// The lines of a text that are left, with their numbers and places. Contracts see them as the list of these lines.
#[derive(Debug, Drop)]
pub struct Lines<'a> {
    number: u64,
    start: u64,
    rest: &'a [u8],
}

impl<'a> Model for Lines<'a> {
    ghost use Rattle.std.specs.Prelude.{List, ◌+◌, ◌≤◌, ◌<◌, ◌^◌, length};
    ghost use Rattle.nova_text.specs.Line.{Row, rows_from, line_texts};

    ghost Value = { List Row };

    ghost view = { λ l. rows_from l.number l.start (line_texts l.rest.now) };

    ghost invariant = { λ l. (l.number ≤ l.start + 1) × (l.start + length l.rest.now < 2 ^ 63) };
}

impl<'a> Lines<'a> {
    ghost use Rattle.std.specs.Prelude.{◌≡◌, length, map};
    ghost use Rattle.nova_text.specs.Line.{lines, piece_of_row};
    ghost use Rattle.nova_text.specs.Piece.{AreSlicesBetween};

    /// All lines of the text `bytes`, numbered from 1.
    #[tactic(auto, unfolding(crate::specs::Line::lines))]
    pub fn new(bytes: &'a [u8]) -> Lines<'a>
        ensures lines { result ≡ lines bytes.now }
        ensures slices { AreSlicesBetween bytes.now 0 (length bytes.now) (map piece_of_row result) }
    {
        Lines {
            number: 1,
            start: 0,
            rest: bytes,
        }
    }
}

impl<'a> Iterator for Lines<'a> {
    ghost use Rattle.std.specs.Iterator.{YieldsFirstBy, item_count};
    ghost use Rattle.nova_text.specs.Line.{row_of};

    type Item = Line<'a>;

    ghost next_gives = { YieldsFirstBy row_of (λ lines. lines) };

    ghost remaining = { item_count (λ lines. lines) };

    /// Takes the next line. `None` comes exactly where no line is left.
    fn next(&mut self) -> Option<Line<'a>> {
        if self.rest.is_empty() {
            return None;
        }
        let (text, after) = split_line(self.rest);
        let line = Line {
            number: self.number,
            start: self.start,
            text,
        };
        self.number += 1;
        self.start += (self.rest.len() - after.len()) as u64;
        self.rest = after;
        Some(line)
    }
}
