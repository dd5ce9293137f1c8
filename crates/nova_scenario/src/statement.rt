ghost use Rattle.std.specs.Prelude.{◌≡◌};
ghost use Rattle.nova_text.specs.Line.{row_of};
ghost use Rattle.nova_text.specs.Token.{tokens_left};
ghost use Rattle.nova_scenario.specs.Items.{is_end, is_end_in};
ghost use Rattle.nova_scenario.specs.Statement.{keyword_text, keyword_named, number_of, form_of, one_number, start_of, start_and_numbers, four_numbers, address_and_form, statement_of, said_in, said};

use crate::fault::Why;
use nova_text::{Line, NumberError, has_forbidden, parse_number};

/// The first token of a line outside of the blocks.
#[derive(Clone, Copy)]
pub enum Keyword {
    Cpus,
    Ram,
    Consoles,
    Root,
    Source,
    Image,
}

/// What the block of an image holds.
#[derive(Clone, Copy)]
pub enum Form {
    /// Words as hexadecimal digits.
    Hex,

    /// Words in the assembler's language.
    Asm,

    /// The bytes of an executable as hexadecimal digits.
    Elf,
}

/// Where the first thread starts.
#[derive(Clone, Copy)]
pub enum Start {
    /// At an address. One of 2^32 or more is `None`.
    Address(Option<u32>),

    /// At the entry of the first executable.
    Entry,
}

/// A line that sets something. A number of 2^32 or more is `None`.
#[derive(Clone, Copy)]
pub enum Setting {
    Cpus(Option<u32>),
    Ram(Option<u32>),
    Consoles(Option<u32>),
    Root {
        start: Start,
        sp: Option<u32>,
        priority: Option<u32>,
        quantum: Option<u32>,
    },
}

/// The line that begins an image. A number of 2^32 or more is `None`.
#[derive(Clone, Copy)]
pub struct Head {
    pub address: Option<u32>,
    pub form: Form,
}

/// The line of a source. A number of 2^32 or more is `None`.
#[derive(Clone, Copy)]
pub struct SourceHead {
    pub cpu: Option<u32>,
    pub first: Option<u32>,
    pub period: Option<u32>,
    pub count: Option<u32>,
}

/// What a line outside of the blocks says.
#[derive(Clone, Copy)]
pub enum Statement {
    Sets(Setting),
    Adds(SourceHead),
    Begins(Head),
}

const KEYWORDS: [Keyword; 6] = [
    Keyword::Cpus,
    Keyword::Ram,
    Keyword::Consoles,
    Keyword::Root,
    Keyword::Source,
    Keyword::Image,
];

impl Keyword {
    fn text(self) -> &'static str
        ensures { result.now ≡ keyword_text self }
    {
        match self {
            Keyword::Cpus => "cpus",
            Keyword::Ram => "ram",
            Keyword::Consoles => "consoles",
            Keyword::Root => "root",
            Keyword::Source => "source",
            Keyword::Image => "image",
        }
    }

    /// The keyword that the token `text` is.
    fn named(text: &[u8]) -> Option<Keyword>
        ensures { result ≡ keyword_named text.now }
    {
        KEYWORDS
            .iter()
            .copied()
            .find(|keyword| keyword.text().as_bytes() == text)
    }
}

/// The number of the token `text`, where it has one. One of 2^32 or more is `None`.
fn number_of(text: &[u8]) -> Option<Option<u32>>
    ensures { result ≡ number_of text.now }
{
    match parse_number(text) {
        Ok(number) => Some(Some(number)),
        Err(NumberError::TooLarge) => Some(None),
        Err(NumberError::Malformed) => None,
    }
}

/// The form that the token `text` names.
fn form_of(text: &[u8]) -> Option<Form>
    ensures { result ≡ form_of text.now }
{
    if text == b"hex".as_slice() {
        Some(Form::Hex)
    } else if text == b"asm".as_slice() {
        Some(Form::Asm)
    } else if text == b"elf".as_slice() {
        Some(Form::Elf)
    } else {
        None
    }
}

/// The number that is all that is left of `line`.
fn one_number(mut line: Line) -> Option<Option<u32>>
    ensures { result ≡ one_number (tokens_left line.entry) }
{
    let token = line.next_token()?;
    match line.next_token() {
        Some(_) => None,
        None => number_of(token.text),
    }
}

/// The start that the token `text` says, where it says one.
fn start_of(text: &[u8]) -> Option<Start>
    ensures { result ≡ start_of text.now }
{
    if text == b"entry".as_slice() {
        return Some(Start::Entry);
    }
    Some(Start::Address(number_of(text)?))
}

/// The start and the three numbers that are all that is left of `line`, as those of the first thread.
fn start_and_numbers(mut line: Line) -> Option<Setting>
    ensures { result ≡ start_and_numbers (tokens_left line.entry) }
{
    let start = line.next_token()?;
    let sp = line.next_token()?;
    let priority = line.next_token()?;
    let quantum = line.next_token()?;
    match line.next_token() {
        Some(_) => None,
        None => Some(Setting::Root {
            start: start_of(start.text)?,
            sp: number_of(sp.text)?,
            priority: number_of(priority.text)?,
            quantum: number_of(quantum.text)?,
        }),
    }
}

/// The four numbers that are all that is left of `line`, as those of a source.
fn four_numbers(mut line: Line) -> Option<SourceHead>
    ensures { result ≡ four_numbers (tokens_left line.entry) }
{
    let cpu = line.next_token()?;
    let first = line.next_token()?;
    let period = line.next_token()?;
    let count = line.next_token()?;
    match line.next_token() {
        Some(_) => None,
        None => Some(SourceHead {
            cpu: number_of(cpu.text)?,
            first: number_of(first.text)?,
            period: number_of(period.text)?,
            count: number_of(count.text)?,
        }),
    }
}

/// The number and the form that are all that is left of `line`.
fn address_and_form(mut line: Line) -> Option<Head>
    ensures { result ≡ address_and_form (tokens_left line.entry) }
{
    let address = line.next_token()?;
    let form = line.next_token()?;
    match line.next_token() {
        Some(_) => None,
        None => Some(Head {
            address: number_of(address.text)?,
            form: form_of(form.text)?,
        }),
    }
}

/// What `line` says with what is left of it after its keyword.
fn statement_of(keyword: Keyword, line: Line) -> Option<Statement>
    ensures { result ≡ statement_of (tokens_left line.entry) keyword }
{
    match keyword {
        Keyword::Cpus => Some(Statement::Sets(Setting::Cpus(one_number(line)?))),
        Keyword::Ram => Some(Statement::Sets(Setting::Ram(one_number(line)?))),
        Keyword::Consoles => Some(Statement::Sets(Setting::Consoles(one_number(line)?))),
        Keyword::Root => Some(Statement::Sets(start_and_numbers(line)?)),
        Keyword::Source => Some(Statement::Adds(four_numbers(line)?)),
        Keyword::Image => Some(Statement::Begins(address_and_form(line)?)),
    }
}

/// What `line` says by its tokens.
fn said_in(mut line: Line) -> Result<Option<Statement>, Why>
    ensures { result ≡ said_in (tokens_left line.entry) }
{
    let Some(first) = line.next_token() else {
        return Ok(None);
    };
    let Some(keyword) = Keyword::named(first.text) else {
        return Err(Why::Syntax);
    };
    match statement_of(keyword, line) {
        Some(statement) => Ok(Some(statement)),
        None => Err(Why::Syntax),
    }
}

/// What `line`, outside of the blocks, says, or nothing where it is blank.
pub fn said(line: Line) -> Result<Option<Statement>, Why>
    ensures { result ≡ said (row_of line.entry) }
{
    if has_forbidden(line.text) {
        return Err(Why::Syntax);
    }
    said_in(line)
}

/// Whether `end` is the only token of `line`.
pub fn is_end(mut line: Line) -> bool
    ensures { result ≡ is_end (row_of line.entry) }
{
    match line.next_token() {
        Some(token) => token.text == b"end".as_slice() && line.next_token().is_none(),
        None => false,
    }
}
