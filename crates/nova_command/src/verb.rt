ghost use Rattle.std.specs.Prelude.{◌≡◌};

/// What a command's first word tells the program to do.
#[derive(Clone, Copy)]
pub(crate) enum Verb {
    Run,
    Solo,
    Check,
    Bench,
    Twin,
}

impl Verb {
    ghost use Rattle.nova_command.specs.Verb.{verb_of};

    /// The verb that `word` stands for.
    pub(crate) fn from_word(word: &str) -> Option<Verb>
        ensures { result ≡ verb_of word.now }
    {
        match word {
            "run" => Some(Verb::Run),
            "solo" => Some(Verb::Solo),
            "check" => Some(Verb::Check),
            "bench" => Some(Verb::Bench),
            "twin" => Some(Verb::Twin),
            _ => None,
        }
    }
}
