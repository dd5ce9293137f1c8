//! Laws of the command line: what words ask for.
ghost use Rattle.std.specs.Prelude.{◌≡◌, ℕ, List, [], ◌∷◌, codes};
ghost use Rattle.nova_command.specs.Command.{command, asked};
ghost use Rattle.nova_command.specs.Words.{typed, IsPlain};
ghost use Rattle.nova_command.specs.Verb.{verb_of};
ghost use Rattle.nova_command.specs.Limit.{limit_of};

use crate::command::Command;

/// Words that can't be taken for options are the command's word and its names, in their order, and `--limit` takes one too.
pub fn plain_words()
    ensures name { (word name : List ℕ) → IsPlain word → IsPlain name
        → command (word ∷ name ∷ []) ≡ asked (verb_of word) (Some name) None (Some 1000000) }
    ensures names { (word first second : List ℕ) → IsPlain word → IsPlain first → IsPlain second
        → command (word ∷ first ∷ second ∷ []) ≡ asked (verb_of word) (Some first) (Some second) (Some 1000000) }
    ensures limit { (word name text : List ℕ) → IsPlain word → IsPlain name → IsPlain text
        → command (word ∷ name ∷ codes "--limit" ∷ text ∷ []) ≡ asked (verb_of word) (Some name) None (limit_of text) }
    ensures names_limit { (word first second text : List ℕ) → IsPlain word → IsPlain first → IsPlain second → IsPlain text
        → command (word ∷ first ∷ second ∷ codes "--limit" ∷ text ∷ []) ≡ asked (verb_of word) (Some first) (Some second) (limit_of text) }
{}

/// Commands, where the limit may be given anywhere and in hexadecimal, and the name of a file may begin with a dash.
pub fn commands()
    ensures run { command (typed "run a b") ≡ Some (Command.Run (codes "a") (codes "b") 1000000) }
    ensures run_limit { command (typed "run --limit 5 a b") ≡ Some (Command.Run (codes "a") (codes "b") 5) }
    ensures bench { command (typed "bench 7") ≡ Some (Command.Bench 7 1000000) }
    ensures bench_limit { command (typed "bench 0x10 --limit 9") ≡ Some (Command.Bench 16 9) }
    ensures bench_most { command (typed "bench 90000") ≡ Some (Command.Bench 90000 1000000) }
    ensures twin { command (typed "twin a") ≡ Some (Command.Twin (codes "a") 1000000) }
    ensures twin_limit { command (typed "twin a --limit 7") ≡ Some (Command.Twin (codes "a") 7) }
    ensures solo { command (typed "solo a") ≡ Some (Command.Solo (codes "a") None 1000000) }
    ensures order { command (typed "solo a b") ≡ Some (Command.Solo (codes "a") (Some (codes "b")) 1000000) }
    ensures check { command (typed "check a") ≡ Some (Command.Check (codes "a")) }
    ensures limit { command (typed "solo a --limit 7") ≡ Some (Command.Solo (codes "a") None 7) }
    ensures order_limit { command (typed "solo a b --limit 7") ≡ Some (Command.Solo (codes "a") (Some (codes "b")) 7) }
    ensures limit_between { command (typed "solo a --limit 7 b") ≡ Some (Command.Solo (codes "a") (Some (codes "b")) 7) }
    ensures zeros { command (typed "solo a --limit 007") ≡ Some (Command.Solo (codes "a") None 7) }
    ensures hexadecimal { command (typed "solo a --limit=0x10") ≡ Some (Command.Solo (codes "a") None 16) }
    ensures option_first { command (typed "--limit 5 solo a") ≡ Some (Command.Solo (codes "a") None 5) }
    ensures most { command (typed "solo a --limit 10000000") ≡ Some (Command.Solo (codes "a") None 10000000) }
    ensures check_limit { command (typed "check a --limit 7") ≡ Some (Command.Check (codes "a")) }
    ensures dashes { command (typed "solo -- --limit") ≡ Some (Command.Solo (codes "--limit") None 1000000) }
{}

/// Words with a name too few or too many, a number out of range, an option twice or an unknown word are no command.
pub fn no_commands()
    ensures no_words { command [] ≡ None }
    ensures no_name { command (typed "solo") ≡ None }
    ensures three_names { command (typed "solo a b c") ≡ None }
    ensures check_two_names { command (typed "check a b") ≡ None }
    ensures run_one_name { command (typed "run a") ≡ None }
    ensures run_three_names { command (typed "run a b c") ≡ None }
    ensures bench_two_names { command (typed "bench 7 a") ≡ None }
    ensures bench_zero { command (typed "bench 0") ≡ None }
    ensures bench_too_large { command (typed "bench 90001") ≡ None }
    ensures bench_name { command (typed "bench a") ≡ None }
    ensures twin_no_name { command (typed "twin") ≡ None }
    ensures twin_two_names { command (typed "twin a b") ≡ None }
    ensures unknown { command (typed "walk a") ≡ None }
    ensures zero { command (typed "check a --limit 0") ≡ None }
    ensures too_large { command (typed "solo a --limit 10000001") ≡ None }
    ensures no_number { command (typed "solo a --limit 0X1") ≡ None }
    ensures no_limit { command (typed "solo a --limit") ≡ None }
    ensures twice { command (typed "solo a --limit 5 --limit 6") ≡ None }
    ensures unknown_option { command (typed "solo a --turns 5") ≡ None }
    ensures help { command (typed "--help") ≡ None }
    ensures short_help { command (typed "solo a -h") ≡ None }
    ensures help_word { command (typed "help") ≡ None }
    ensures version { command (typed "--version") ≡ None }
{}
