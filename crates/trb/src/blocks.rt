ghost use Rattle.std.specs.Prelude.{◌≡◌, [], ◌∷◌, List};
ghost use Rattle.trb.specs.Blocks.{kept_blocks};

use crate::block::Block;
use std::marker::Model;

/// The blocks of one declaration, in their order. Contracts see the list of blocks.
#[derive(Debug, Drop)]
pub struct Blocks {
    kept: Kept,
}

/// One block, as most declarations have, needs no memory of its own.
#[derive(Debug, Drop)]
enum Kept {
    One([Block; 1]),
    Several(Vec<Block>),
}

impl Model for Blocks {
    ghost use Rattle.std.specs.Prelude.{List};
    ghost use Rattle.trb.specs.declared.block.Block.{Block};
    ghost use Rattle.trb.specs.Blocks.{kept_blocks};

    ghost Value = { List Block };

    ghost view = { λ b. kept_blocks b.kept };
}

impl Blocks {
    /// The blocks of a vector.
    pub fn new(blocks: Vec<Block>) -> Blocks
        ensures { result ≡ blocks.items }
    {
        Blocks {
            kept: Kept::Several(blocks),
        }
    }

    /// One block.
    #[inline(always)]
    pub fn one(block: Block) -> Blocks
        ensures { result ≡ block ∷ [] }
    {
        Blocks {
            kept: Kept::One([block]),
        }
    }

    /// The blocks, in their order.
    #[inline(always)]
    pub fn as_slice(&self) -> &[Block]
        ensures { result.now ≡ self.now }
    {
        match &self.kept {
            Kept::One(block) => block.as_slice(),
            Kept::Several(blocks) => blocks.as_slice(),
        }
    }
}
