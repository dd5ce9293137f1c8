//! Laws of the definitions that the contracts of this crate cite. The functions do nothing: their contracts are the laws.

ghost use Rattle.std.specs.Prelude.{◌≡◌, ℕ, ◌+◌, ◌^◌, ◌<◌, List, IsTrue, length, map};
ghost use Rattle.std.specs.Fmt.{decimal};
ghost use Rattle.std.specs.List.{flat_map, list_all, range_with_len};
ghost use Rattle.nova_text.specs.Line.{Row, piece_of_row, lines, line_texts, with_line_feed, is_one_line, ended_text};
ghost use Rattle.nova_text.specs.Number.{number};
ghost use Rattle.nova_text.specs.Piece.{IsSliceOf, AreSlicesBetween};
ghost use Rattle.nova_text.specs.Token.{tokens};

/// The lines of a text have the numbers from 1 on.
pub fn lines_are_numbered()
    ensures numbers { (bytes : List ℕ)
        → map (λ row. row.number) (lines bytes) ≡ range_with_len 1 (length (line_texts bytes)) }
    ensures texts { (bytes : List ℕ) → map (λ row. row.text) (lines bytes) ≡ line_texts bytes }
{}

/// The tokens of a line that is a slice of a text are slices of that text, in order and within the line.
pub fn tokens_are_slices()
    ensures { (bytes : List ℕ) (row : Row) → IsSliceOf bytes (piece_of_row row)
        → AreSlicesBetween bytes row.start (row.start + length row.text) (tokens row.start row.text) }
{}

/// The lines with a line feed after each are the text, with a line feed at its end unless it is empty.
/// Lines that are written so are read back as they were.
pub fn lines_make_the_text()
    ensures written { (bytes : List ℕ) → flat_map with_line_feed (line_texts bytes) ≡ ended_text bytes }
    ensures read_back { (texts : List (List ℕ)) → IsTrue (list_all is_one_line texts)
        → line_texts (flat_map with_line_feed texts) ≡ texts }
{}

/// The decimal text of a number is read as that number.
pub fn decimal_is_read_back()
    ensures { (n : ℕ) → n < 2 ^ 64 → number (decimal n) ≡ Some n }
{}
