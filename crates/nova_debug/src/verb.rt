ghost use Rattle.std.specs.Prelude.{◌≡◌};
ghost use Rattle.nova_debug.specs.Commands.{verb_named, verb_text};

/// The word with which a command begins.
#[derive(Clone, Copy)]
pub enum Verb {
    At,
    Next,
    Contexts,
    Semaphores,
    Consoles,
    Delegations,
    Objects,
    Access,
    Clear,
    Words,
    Frame,
    Queue,
    Code,
    Go,
    Run,
    Last,
    By,
    Keep,
    Events,
    Slices,
    Page,
    Break,
    Loads,
    Stores,
}

const VERBS: [Verb; 24] = [
    Verb::At,
    Verb::Next,
    Verb::Contexts,
    Verb::Semaphores,
    Verb::Consoles,
    Verb::Delegations,
    Verb::Objects,
    Verb::Access,
    Verb::Clear,
    Verb::Words,
    Verb::Frame,
    Verb::Queue,
    Verb::Code,
    Verb::Go,
    Verb::Run,
    Verb::Last,
    Verb::By,
    Verb::Keep,
    Verb::Events,
    Verb::Slices,
    Verb::Page,
    Verb::Break,
    Verb::Loads,
    Verb::Stores,
];

impl Verb {
    fn text(self) -> &'static str
        ensures { result.now ≡ verb_text self }
    {
        match self {
            Verb::At => "at",
            Verb::Next => "next",
            Verb::Contexts => "contexts",
            Verb::Semaphores => "semaphores",
            Verb::Consoles => "consoles",
            Verb::Delegations => "delegations",
            Verb::Objects => "objects",
            Verb::Access => "access",
            Verb::Clear => "clear",
            Verb::Words => "words",
            Verb::Frame => "frame",
            Verb::Queue => "queue",
            Verb::Code => "code",
            Verb::Go => "go",
            Verb::Run => "run",
            Verb::Last => "last",
            Verb::By => "by",
            Verb::Keep => "keep",
            Verb::Events => "events",
            Verb::Slices => "slices",
            Verb::Page => "page",
            Verb::Break => "break",
            Verb::Loads => "loads",
            Verb::Stores => "stores",
        }
    }

    /// The verb that `word` is.
    pub fn named(word: &[u8]) -> Option<Verb>
        ensures { result ≡ verb_named word.now }
    {
        VERBS
            .iter()
            .copied()
            .find(|verb| verb.text().as_bytes() == word)
    }
}
