ghost use Rattle.std.specs.Prelude.{◌≡◌, [], ◌∷◌, codes, Some, Ok, Err};
ghost use Rattle.nova_elf.specs.Executable.{program};
ghost use Rattle.nova_elf.specs.declared.fault.ElfFault.TheVariants.{Dynamic, Segment as BadSegment};
ghost use Rattle.nova_model.specs.Boot.{boot};
ghost use Rattle.nova_order.specs.Read.{order_of};
ghost use Rattle.nova_order.specs.declared.fault.OrderFault.TheVariants.{BadCpu};
ghost use Rattle.nova_report.specs.Report.{report};
ghost use Rattle.nova_scenario.specs.Statement.{said};
ghost use Rattle.nova_scenario.specs.declared.statement.Setting.TheVariants.{Cpus, Ram, Consoles, Root};
ghost use Rattle.nova_scenario.specs.declared.statement.Start.TheVariants.{Address};
ghost use Rattle.nova_scenario.specs.declared.statement.Statement.TheVariants.{Adds, Sets};
ghost use Rattle.law_texts.specs.Rows.{a_raise, a_start, alarms_of_text, line_of, one_segment, segment_and};

/// Some bytes are read so: a segment of 20 bytes of the file and 50 of memory, at its address and offset, with the entry of the file's header; a
/// segment whose memory is less than its bytes is a fault of its header; headers of type 2 and of type 3, an interpreter's, are faults by their
/// number; and a header of type 4 is passed over.
pub fn executables_by_their_bytes()
    ensures segment { program (one_segment 20 50) ≡ Ok (record { entry = 4100; segments = record { address = 4096; offset = 8; file = 20; memory = 50 } ∷ [] }) }
    ensures memory { program (one_segment 20 19) ≡ Err (BadSegment 0) }
    ensures dynamic { program (segment_and 2) ≡ Err (Dynamic 1) }
    ensures interpreter { program (segment_and 3) ≡ Err (Dynamic 1) }
    ensures other { program (segment_and 4) ≡ Ok (record { entry = 4100; segments = record { address = 4096; offset = 8; file = 20; memory = 50 } ∷ [] }) }
{}

/// A line of an order says a processor, and after it a count of turns.
pub fn orders_by_their_columns()
    ensures blocks { order_of (codes "1 3\n0 2\n") 2 10 ≡ Ok (record { cpu = 1; count = 3 } ∷ record { cpu = 0; count = 2 } ∷ []) }
    ensures processors { order_of (codes "3 1\n") 2 10 ≡ Err (BadCpu 1) }
{}

/// What the columns of a scenario's lines are: of `root` its pc, stack pointer, priority and quantum; of `source` its processor, first moment,
/// period and count. And the alarms that a kernel begins with by a text with two sources, the first on processor 1.
pub fn settings_by_their_columns()
    ensures cpus { said (line_of (codes "cpus 3")) ≡ Ok (Some (Sets (Cpus (Some 3)))) }
    ensures ram { said (line_of (codes "ram 4")) ≡ Ok (Some (Sets (Ram (Some 4)))) }
    ensures consoles { said (line_of (codes "consoles 2")) ≡ Ok (Some (Sets (Consoles (Some 2)))) }
    ensures root { said (line_of (codes "root 8 12 5 6")) ≡ Ok (Some (Sets (Root (Address (Some 8)) (Some 12) (Some 5) (Some 6)))) }
    ensures alarms { alarms_of_text (codes "cpus 2\nram 0\nconsoles 0\nroot 0 0 1 1\nsource 1 7 9 2\nsource 0 4 5 6\n")
        ≡ record { alarm = record { cpu = 1; sm = 3; first = 7; period = 9; count = 2 }; next = 7; rings = 0 }
        ∷ record { alarm = record { cpu = 0; sm = 4; first = 4; period = 5; count = 6 }; next = 4; rings = 0 } ∷ [] }
    ensures source { said (line_of (codes "source 1 7 9 2")) ≡ Ok (Some (Adds (record { cpu = Some 1; first = Some 7; period = Some 9; count = Some 2 }))) }
{}

/// What the columns of a report's lines are, of a root at its start and an event.
pub fn reports_by_their_columns()
    ensures { report (boot a_start) (a_raise ∷ []) ≡ codes "run open 0\nat 1 0 1 raise 7 3\nec 1 global ready 00000008 x2=0000000c\nsc 2 0 0\nsm 3 0 0\nsource 0 0 3 0 0\nconsole 0 -\ncap 0 - 0 mem 0 1 7 0\ncap 1 - 0 mem 2 0 3 2\ncap 2 - 0 obj 0 0 1 0\ncap 3 - 0 obj 1 0 7 1\ncap 4 - 0 obj 2 0 1 2\ncap 5 - 0 obj 3 0 3 3\n" }
{}
