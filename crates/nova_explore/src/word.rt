ghost use Rattle.std.specs.Prelude.{◌≡◌};

/// A word of a question: with which it begins, or that is part of it.
#[derive(Clone, Copy)]
pub(crate) enum Word {
    Console,
    Text,
    Word,
    At,
    Stores,
    Blocked,
    Dies,
    But,
    Stuck,
    Hangs,
    Ends,
}

impl Word {
    ghost use Rattle.nova_explore.specs.Requests.{word_of};

    /// The word that `text` stands for.
    pub(crate) fn from_text(text: &str) -> Option<Word>
        ensures { result ≡ word_of text.now }
    {
        match text {
            "console" => Some(Word::Console),
            "text" => Some(Word::Text),
            "word" => Some(Word::Word),
            "at" => Some(Word::At),
            "stores" => Some(Word::Stores),
            "blocked" => Some(Word::Blocked),
            "dies" => Some(Word::Dies),
            "but" => Some(Word::But),
            "stuck" => Some(Word::Stuck),
            "hangs" => Some(Word::Hangs),
            "ends" => Some(Word::Ends),
            _ => None,
        }
    }
}
