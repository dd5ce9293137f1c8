ghost use Rattle.std.specs.Prelude.{◌≡◌};
ghost use Rattle.rv_asm.specs.Name.{name_of, short_named, short_text, slots_in, slots_of, given};

use crate::slot::Slot;
use rv_core::table;
use rv_core::table::Row;
use rv_model::{Format, Mnemonic, Operands};

/// A name that isn't in the instruction table.
#[derive(Clone, Copy)]
pub enum ShortForm {
    /// `addi x0, x0, 0`.
    Nop,

    /// `mv rd, rs` is `addi rd, rs, 0`.
    Mv,

    /// `j target` is `jal x0, target`.
    J,

    /// `jalr x0, 0(x1)`.
    Ret,

    /// `li rd, n` is `lui` and `addi`.
    Li,

    /// `.word n` is the number itself.
    Word,
}

/// What the name of an instruction means.
#[derive(Clone, Copy)]
pub enum Name {
    Instruction(Mnemonic),
    Short(ShortForm),
}

const SHORT_FORMS: [ShortForm; 6] = [
    ShortForm::Nop,
    ShortForm::Mv,
    ShortForm::J,
    ShortForm::Ret,
    ShortForm::Li,
    ShortForm::Word,
];

const JUMP_TARGET: Slot = Slot::Target {
    low: 1048576,
    high: 1048574,
};

const BRANCH_TARGET: Slot = Slot::Target {
    low: 4096,
    high: 4094,
};

impl ShortForm {
    fn text(self) -> &'static str
        ensures { result.now ≡ short_text self }
    {
        match self {
            ShortForm::Nop => "nop",
            ShortForm::Mv => "mv",
            ShortForm::J => "j",
            ShortForm::Ret => "ret",
            ShortForm::Li => "li",
            ShortForm::Word => ".word",
        }
    }
}

/// The operands of `row` of the instruction table.
fn row_slots(row: Row) -> &'static [Slot]
    ensures { result.now ≡ slots_in row.format row.opcode }
{
    match row.format {
        Format::Register => &[Slot::Rd, Slot::Rs1, Slot::Rs2],
        Format::Immediate if row.opcode == 0x13 => &[
            Slot::Rd,
            Slot::Rs1,
            Slot::Number {
                low: 2048,
                high: 2047,
            },
        ],
        Format::Immediate => &[Slot::Rd, Slot::Address],
        Format::Shift => &[Slot::Rd, Slot::Rs1, Slot::Number { low: 0, high: 31 }],
        Format::Store => &[Slot::Rs2, Slot::Address],
        Format::Branch => &[Slot::Rs1, Slot::Rs2, BRANCH_TARGET],
        Format::Upper => &[Slot::Rd, Slot::Upper],
        Format::Jump => &[Slot::Rd, JUMP_TARGET],
        Format::Fence | Format::Alone(_) => &[],
    }
}

/// The short form that is named `text`.
fn short_named(text: &[u8]) -> Option<ShortForm>
    ensures { result ≡ short_named text.now }
{
    SHORT_FORMS
        .iter()
        .copied()
        .find(|short| short.text().as_bytes() == text)
}

impl Name {
    /// What the name `text` means, or nothing where no instruction has it.
    pub fn of(text: &[u8]) -> Option<Name>
        ensures { result ≡ name_of text.now }
    {
        match short_named(text) {
            Some(short) => Some(Name::Short(short)),
            None => match table::named(text) {
                Some(mnemonic) => Some(Name::Instruction(mnemonic)),
                None => None,
            },
        }
    }

    /// The operands that are written after the name.
    pub fn slots(self) -> &'static [Slot]
        ensures { result.now ≡ slots_of self }
    {
        match self {
            Name::Instruction(mnemonic) => row_slots(Row::of(mnemonic)),
            Name::Short(ShortForm::Nop | ShortForm::Ret) => &[],
            Name::Short(ShortForm::Mv) => &[Slot::Rd, Slot::Rs1],
            Name::Short(ShortForm::J) => &[JUMP_TARGET],
            Name::Short(ShortForm::Li) => &[
                Slot::Rd,
                Slot::Number {
                    low: 2147483648,
                    high: 4294967295,
                },
            ],
            Name::Short(ShortForm::Word) => &[Slot::Number {
                low: 0,
                high: 4294967295,
            }],
        }
    }

    /// The operands that the name gives and that aren't written.
    pub fn given(self) -> Operands
        ensures { result ≡ given self }
    {
        let rs1 = match self {
            Name::Short(ShortForm::Ret) => 1,
            _ => 0,
        };
        Operands {
            rd: 0,
            rs1,
            rs2: 0,
            imm: 0,
        }
    }
}
