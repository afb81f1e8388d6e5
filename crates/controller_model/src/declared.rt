ghost use Rattle.std.specs.Prelude.{◌≡◌, ℕ, ◌+◌, ◌∷◌, [], ◌<◌, ◌++◌, length, sum, List, OnOk, OnErr, slice_get, option_map};
ghost use Rattle.segments.specs.Descriptors.{declared_at, length_from, no_ops, split_at};
ghost use Rattle.trb.specs.declared.block.Block.{Block};
ghost use Rattle.controller_model.specs.Declarations.{Declares, as_declared, withdrawn_from};

use std::alloc::{AllocError, Global};
use trb::Block;

/// A declared block, and whether a descriptor begins and ends with it (xHCI 4.11.2).
#[derive(Clone, Copy, Debug, PartialEq, Eq)]
pub struct Declared {
    pub(crate) block: Block,
    pub(crate) begins: bool,
    pub(crate) ends: bool,
}

/// A No Op, a descriptor of its own (xHCI 6.4.1.4.1).
const NO_OP: Declared = Declared {
    block: Block {
        w: [0, 0, 0, 0x2000],
    },
    begins: true,
    ends: true,
};

/// The blocks that the driver declared on a ring, by position.
#[derive(Drop)]
pub struct Declarations {
    blocks: Vec<Declared>,
}

impl Declarations {
    /// Nothing is declared.
    #[tactic(auto, unfolding(segments::specs::Descriptors::declared_at))]
    pub(crate) fn new(alloc: Global) -> Declarations
        ensures { Declares result [] [] }
    {
        Declarations {
            blocks: Vec::new(alloc),
        }
    }

    /// What is declared at a position.
    pub(crate) fn at(&self, position: u64) -> Option<Declared>
        ensures { (queue : List Block) (lengths : List ℕ) → Declares self.now queue lengths →
            option_map as_declared result ≡ declared_at queue lengths position }
    {
        self.blocks.get(usize::try_from(position).ok()?).copied()
    }

    /// Nothing is declared any more.
    #[tactic(auto, unfolding(segments::specs::Descriptors::declared_at))]
    pub(crate) fn clear(&mut self)
        ensures { Declares self.new [] [] }
    {
        self.blocks.clear();
    }

    /// The descriptor that begins at a position becomes No Ops, each a descriptor of one block.
    pub(crate) fn withdraw(&mut self, position: u64)
        ensures { (queue : List Block) (lengths : List ℕ) → Declares self.old queue lengths →
            Declares self.new (no_ops queue position (length_from lengths 0 position)) (split_at lengths 0 position) }
    {
        let first = position as usize;
        match self.blocks.get(first) {
            None => {}
            Some(declared) if declared.begins => self.withdraw_from(first),
            Some(_) => {}
        }
    }

    /// The blocks from one on become No Ops, up to the next that ends a descriptor, each a descriptor of one block.
    #[tactic(auto, using(crate::proofs::WithdrawLemmas::none_behind))]
    fn withdraw_from(&mut self, first: usize)
        ensures { self.new.blocks.items ≡ withdrawn_from self.old.blocks.items first }
    {
        for place in first..self.blocks.len() {
            let ends = self.blocks[place].ends;
            self.blocks[place] = NO_OP;
            if ends {
                return;
            }
        }
    }

    /// Declares the blocks of one descriptor. Want of memory may leave a part of them.
    pub(crate) fn declare(&mut self, blocks: &[Block]) -> Result<(), AllocError>
        requires { 0 < length blocks.now }
        ensures { OnOk result ((queue : List Block) (lengths : List ℕ) → Declares self.old queue lengths →
            Declares self.new (queue ++ blocks.now) (lengths ++ length blocks.now ∷ [])) }
    {
        let last = blocks.len() - 1;
        for (i, block) in blocks.iter().enumerate() {
            self.blocks.push(Declared {
                block: *block,
                begins: i == 0,
                ends: i == last,
            })?;
        }
        Ok(())
    }
}
