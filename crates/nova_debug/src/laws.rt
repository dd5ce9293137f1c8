//! Laws of what lines ask. The functions do nothing: their contracts are the laws.
ghost use Rattle.std.specs.Prelude.{◌≡◌, [], ◌∷◌, codes, Some, None};
ghost use Rattle.std.specs.Option.{option_and_then};
ghost use Rattle.nova_debug.specs.Beginnings.{limit_of};
ghost use Rattle.nova_debug.specs.Commands.{command_of, words_of};
ghost use Rattle.nova_debug.specs.Orders.{behind_order, turns_asked};
ghost use Rattle.nova_debug.specs.declared.command.Command.TheVariants.{Tell, Access, Go, Break, Stores, Keep};
ghost use Rattle.nova_telling.specs.Told.{access_line};
ghost use Rattle.nova_telling.specs.declared.reading.Reading.TheVariants.{Place, Instruction, Events};

/// What some lines ask, and that others are no commands.
pub fn lines_ask_commands()
    ensures place { command_of (words_of (codes "at")) ≡ Some (Tell Place) }
    ensures next { command_of (words_of (codes "\tnext # one")) ≡ Some (Tell Instruction) }
    ensures events { command_of (words_of (codes "events 36 39")) ≡ Some (Tell (Events 36 39)) }
    ensures go { command_of (words_of (codes " go 0x10  # there\r")) ≡ Some (Go 16) }
    ensures instruction { command_of (words_of (codes "break 0 332")) ≡ Some (Break 0 332) }
    ensures stores { command_of (words_of (codes "stores 1 0 3")) ≡ Some (Stores 1 0 3) }
    ensures access { command_of (words_of (codes "access # of it")) ≡ Some Access }
    ensures keep { command_of (words_of (codes "keep 100000")) ≡ Some (Keep 100000) }
    ensures empty { command_of (words_of []) ≡ None }
    ensures unknown { command_of (words_of (codes "xyz")) ≡ None }
    ensures few { command_of (words_of (codes "stores 1 2")) ≡ None }
    ensures many { command_of (words_of (codes "go 1 2")) ≡ None }
    ensures large { command_of (words_of (codes "go 4294967296")) ≡ None }
{}

/// Which words allow turns, and how many.
pub fn words_allow_turns()
    ensures one { limit_of (codes "1") ≡ Some 1 }
    ensures most { limit_of (codes "10000000") ≡ Some 10000000 }
    ensures hexadecimal { limit_of (codes "0x10") ≡ Some 16 }
    ensures none { limit_of (codes "0") ≡ None }
    ensures more { limit_of (codes "10000001") ≡ None }
    ensures large { limit_of (codes "4294967297") ≡ None }
    ensures word { limit_of (codes "ten") ≡ None }
    ensures empty { limit_of [] ≡ None }
{}

/// What is told of some loads and stores.
pub fn accesses_are_told_so()
    ensures store { access_line (Some (record { address = 4100; width = 4; stored = Some 1; frame = Some 2 })) ≡ codes "access store 4100 4 2 4 1\n" }
    ensures load { access_line (Some (record { address = 8191; width = 1; stored = None; frame = Some 3 })) ≡ codes "access load 8191 1 3 4095\n" }
    ensures words { access_line (Some (record { address = 4294963200; width = 2; stored = Some 7; frame = None })) ≡ codes "access store 4294963200 2 - 0 7\n" }
    ensures none { access_line None ≡ codes "access -\n" }
{}

/// The turns that some lines ask for, and that others are no orders.
pub fn lines_ask_orders()
    ensures turns { option_and_then (turns_asked 10) (behind_order (words_of (codes "order 0 3 1 1"))) ≡ Some (0 ∷ 0 ∷ 0 ∷ 1 ∷ []) }
    ensures merged { option_and_then (turns_asked 10) (behind_order (words_of (codes " order 1 1 1 0x1"))) ≡ Some (1 ∷ 1 ∷ []) }
    ensures empty { option_and_then (turns_asked 10) (behind_order (words_of (codes "order"))) ≡ Some [] }
    ensures odd { option_and_then (turns_asked 10) (behind_order (words_of (codes "order 0"))) ≡ None }
    ensures none { option_and_then (turns_asked 10) (behind_order (words_of (codes "order 0 0"))) ≡ None }
    ensures many { option_and_then (turns_asked 10) (behind_order (words_of (codes "order 0 6 1 5"))) ≡ None }
    ensures other { behind_order (words_of (codes "at")) ≡ None }
{}
