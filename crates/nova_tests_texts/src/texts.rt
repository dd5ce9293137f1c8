use nova_text::{
    Line, Lines, NumberError, NumberFault, Span, has_forbidden, parse_number, read_number,
};
use std::alloc::{AllocError, Global};
use std::test::Fail;

/// The number, the place and the bytes of a line.
type LineParts<'a> = (u64, u64, &'a [u8]);

/// Texts, and their lines.
static TEXTS: [(&[u8], &[LineParts<'static>]); 7] = [
    (b"", &[]),
    (b"\n", &[(1, 0, b"")]),
    (b"a", &[(1, 0, b"a")]),
    (b"a\n", &[(1, 0, b"a")]),
    (b"\n\nx", &[(1, 0, b""), (2, 1, b""), (3, 2, b"x")]),
    (b"a\n\nb\r\n", &[(1, 0, b"a"), (2, 2, b""), (3, 3, b"b\r")]),
    (
        b"# \xff\x00\ncpus 1",
        &[(1, 0, b"# \xff\x00"), (2, 5, b"cpus 1")],
    ),
];

/// The lines of `text`.
fn lines_of<'a>(alloc: Global, text: &'a [u8]) -> Result<Vec<LineParts<'a>>, AllocError> {
    let mut found = Vec::new(alloc);
    for line in Lines::new(text) {
        found.push((line.number, line.start, line.text))?;
    }
    Ok(found)
}

#[test]
fn lines_end_at_line_feeds(rt: HostRuntime) -> Result<(), Fail> {
    for &(text, wants) in &TEXTS {
        let found = lines_of(rt.alloc(), text)?;
        assert!(rt; found.as_slice() == wants, "{text:?}");
    }
    Ok(())
}

/// The bytes of a token, and the places of the first and of that after the last.
type TokenParts<'a> = (&'a [u8], u64, u64);

/// Lines that begin at place 100, and their tokens.
static LINES: [(&[u8], &[TokenParts<'static>]); 8] = [
    (b"", &[]),
    (b" \t\r", &[]),
    (b"# cpus 1", &[]),
    (b"cpus 2", &[(b"cpus", 100, 104), (b"2", 105, 106)]),
    (
        b"\tram\r 0x10 # four\xff",
        &[(b"ram", 101, 104), (b"0x10", 106, 110)],
    ),
    (b"root  0\r", &[(b"root", 100, 104), (b"0", 106, 107)]),
    (b"a#b c", &[(b"a", 100, 101)]),
    (b"a\x0bb", &[(b"a\x0bb", 100, 103)]),
];

/// The tokens of `line`, or the first eight of them.
fn tokens_of<'a>(alloc: Global, line: Line<'a>) -> Result<Vec<TokenParts<'a>>, AllocError> {
    let mut line = line;
    let mut found = Vec::new(alloc);
    for _ in 0..8 {
        let Some(token) = line.next_token() else {
            break;
        };
        found.push((token.text, token.span.start, token.span.end))?;
    }
    Ok(found)
}

#[test]
fn tokens_stand_between_separators(rt: HostRuntime) -> Result<(), Fail> {
    for &(text, wants) in &LINES {
        assert!(rt; text.len() < 1000);
        let line = Line {
            number: 3,
            start: 100,
            text,
        };
        let found = tokens_of(rt.alloc(), line)?;
        assert!(rt; found.as_slice() == wants, "{text:?}");
    }
    Ok(())
}

static NUMBERS: [(&[u8], Result<u32, NumberError>); 19] = [
    (b"0", Ok(0)),
    (b"007", Ok(7)),
    (b"4294967295", Ok(4_294_967_295)),
    (b"4294967296", Err(NumberError::TooLarge)),
    (b"99999999999999999999", Err(NumberError::TooLarge)),
    (b"99999999999999999999x", Err(NumberError::Malformed)),
    (b"0x0", Ok(0)),
    (b"0x00000000000000001a", Ok(26)),
    (b"0xffffFFFF", Ok(4_294_967_295)),
    (b"0x100000000", Err(NumberError::TooLarge)),
    (b"", Err(NumberError::Malformed)),
    (b"0x", Err(NumberError::Malformed)),
    (b"0X1", Err(NumberError::Malformed)),
    (b"0x1g", Err(NumberError::Malformed)),
    (b"0x+1", Err(NumberError::Malformed)),
    (b"-1", Err(NumberError::Malformed)),
    (b"+1", Err(NumberError::Malformed)),
    (b"12a", Err(NumberError::Malformed)),
    (b"1_0", Err(NumberError::Malformed)),
];

#[test]
fn numbers_are_decimal_or_hexadecimal(rt: HostRuntime) {
    for &(token, want) in &NUMBERS {
        assert!(rt; parse_number(token) == want, "{token:?}");
    }
}

#[test]
fn faults_name_the_place(rt: HostRuntime) {
    let span = Span { start: 7, end: 9 };
    let answers = [
        read_number(b"10", span),
        read_number(b"0x", span),
        read_number(b"5000000000", span),
    ];
    let wants = [
        Ok(10),
        Err(NumberFault::BadToken(span)),
        Err(NumberFault::TooLarge(span)),
    ];
    assert!(rt; answers == wants);
}

/// Lines, and whether another byte than they may have stands before the comment.
static BYTES: [(&[u8], bool); 6] = [
    (b"", false),
    (b"\tcpus ~ 1\r# \x00\xff\x0b", false),
    (b"cpus\x0b1", true),
    (b"\x7f", true),
    (b"a\xc3\xa4 # b", true),
    (b"\x00#", true),
];

#[test]
fn comments_may_hold_any_bytes(rt: HostRuntime) {
    for &(line, is_forbidden) in &BYTES {
        assert!(rt; has_forbidden(line) == is_forbidden, "{line:?}");
    }
}
