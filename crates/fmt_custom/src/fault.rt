//! Why blocks can't be read.
ghost use Rattle.std.specs.Prelude.{◌≡◌};
ghost use Rattle.fmt_custom.specs.declared.fault.BlockStop.TheVariants as stops;

use std::alloc::{AllocError, AllocFailed};
use toc_layout::ArchiveFault;
use toc_parts::FieldFault;

/// What is wrong with a block; places are told by the bytes that are left.
#[derive(Clone, Copy)]
pub(crate) enum BlockHalt {
    /// The bytes end within the block.
    Short,
    /// Another byte than 1 and 3 where a block begins, or a piece whose length is below 0.
    Block {
        /// The bytes left from there on.
        left: usize,
    },
    /// The id of no entry with rows.
    WrongId(i64),
    /// A second block of one entry.
    RepeatedBlock {
        /// The bytes left from the block on.
        left: usize,
    },
    /// A block of large objects.
    LargeObjects {
        /// The bytes left from the block on.
        left: usize,
    },
}

impl BlockHalt {
    ghost use Rattle.fmt_custom.specs.Blocks.{placed_block_fault};

    /// The fault in bytes of this length.
    pub(crate) fn placed(self, len: usize) -> ArchiveFault
        ensures { result ≡ placed_block_fault len self }
    {
        match self {
            BlockHalt::Short => ArchiveFault::Short(len),
            BlockHalt::Block { left } => ArchiveFault::Block(len.saturating_sub(left)),
            BlockHalt::WrongId(id) => ArchiveFault::WrongId(id),
            BlockHalt::RepeatedBlock { left } => {
                ArchiveFault::RepeatedBlock(len.saturating_sub(left))
            }
            BlockHalt::LargeObjects { left } => ArchiveFault::LargeObjects(len.saturating_sub(
                left,
            )),
        }
    }
}

impl From<FieldFault> for BlockHalt {
    ghost use Rattle.std.specs.Prelude.{◌≡◌};
    ghost use Rattle.fmt_custom.specs.Blocks.{in_block};

    ghost from_gives = { λ fault halt. halt ≡ in_block fault };

    fn from(fault: FieldFault) -> BlockHalt {
        match fault {
            FieldFault::Short | FieldFault::BadString { .. } => BlockHalt::Short,
        }
    }
}

/// Why blocks could not be read: one is at fault, or memory ran out.
#[derive(Drop)]
pub(crate) enum BlockStop {
    /// A block is at fault.
    Halt(BlockHalt),
    /// Memory ran out.
    Memory,
}

impl From<BlockHalt> for BlockStop {
    ghost from_gives = { λ halt stop. stop ≡ stops.Halt halt };

    fn from(halt: BlockHalt) -> BlockStop {
        BlockStop::Halt(halt)
    }
}

impl From<AllocError> for BlockStop {
    ghost from_gives = { λ _ stop. stop ≡ stops.Memory };

    fn from(_error: AllocError) -> BlockStop {
        BlockStop::Memory
    }
}

impl<T: Drop> From<AllocFailed<T>> for BlockStop {
    ghost from_gives = { λ _ stop. stop ≡ stops.Memory };

    fn from(_error: AllocFailed<T>) -> BlockStop {
        BlockStop::Memory
    }
}
