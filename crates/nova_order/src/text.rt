ghost use Rattle.std.specs.Prelude.{◌≡◌, ◌++◌, IfOk, OnOk, string_bytes};
ghost use Rattle.nova_order.specs.Text.{line_of, text_of};

use crate::block::Block;
use crate::order::Order;
use std::alloc::AllocError;

fn write_block(out: &mut String, block: Block) -> Result<(), AllocError>
    ensures { OnOk result (string_bytes out.new ≡ string_bytes out.old ++ line_of block) }
{
    let Block { cpu, count } = block;
    writeln!(out, "{cpu} {count}")
}

impl Order {
    /// The text of the order: a line `cpu count` for each block.
    #[tactic(auto, unfolding(crate::specs::Text::text_of))]
    pub fn text(&self) -> Result<Vec<u8>, AllocError>
        ensures { IfOk result (λ text. text.items ≡ text_of self.now.blocks) }
    {
        let mut out = String::new(self.alloc());
        for block in self.blocks() {
            write_block(&mut out, *block)?;
        }
        Ok(out.into_bytes())
    }
}
