//! Entries by character.
ghost use Rattle.std.specs.Prelude.{◌≡◌, ◌<◌, ◌↔◌, IsOk, IfOk, IfErr};
ghost use Rattle.icu_table_data.specs.CodePointTables.{IsCodePointTable, FailsBlocks, stored_value};

use icu_table_entries::DataErrorKind;

/// How many code points share a block.
pub const BLOCK_LEN: usize = 64;

/// How many blocks the code points up to U+10FFFF fill.
pub const BLOCK_COUNT: usize = 17408;

/// How many code points there are.
pub const CODE_POINT_COUNT: usize = 0x110000;

/// A function from characters to entries. There are 17408 blocks of 64 code points; character c has the value
/// `values[64 * blocks[c / 64] + c % 64]`.
#[derive(Debug, Clone, Copy, PartialEq)]
pub struct CodePointTable<'d> {
    blocks: &'d [u16],
    values: &'d [u32],
    ghost is_table: { IsCodePointTable blocks.now values.now },
}

impl<'d> CodePointTable<'d> {
    ghost use Rattle.icu_table_data.specs.StoredData.{table_value, table_block};

    /// Borrows the blocks and the values. Refuses with `Length` if there are not 17408 blocks or the values don't come
    /// in whole blocks of 64, and with `Index` if a block number lies past them.
    pub fn new(blocks: &'d [u16], values: &'d [u32]) -> Result<CodePointTable<'d>, DataErrorKind>
        ensures accepts { IsOk result ↔ IsCodePointTable blocks.entry.now values.entry.now }
        ensures kind { IfErr result (FailsBlocks blocks.entry.now values.entry.now) }
        ensures keeps { IfOk result
            (λ t. table_value t ≡ stored_value blocks.entry.now values.entry.now) }
    {
        if blocks.len() != BLOCK_COUNT || values.len() % BLOCK_LEN != 0 {
            return Err(DataErrorKind::Length);
        }
        let whole = values.len() / BLOCK_LEN;
        if !blocks.iter().all(|block| (*block as usize) < whole) {
            return Err(DataErrorKind::Index);
        }
        Ok(CodePointTable::from_parts(blocks, values))
    }

    /// The value of a character.
    pub fn get(self, c: char) -> u32
        ensures { result ≡ table_value self.entry c }
    {
        let code = c as usize;
        self.values[self.blocks[code / BLOCK_LEN] as usize * BLOCK_LEN + code % BLOCK_LEN]
    }

    /// The number of the block that 64 code points share, from `64 * index` on.
    pub(crate) fn block(self, index: usize) -> u16
        requires { index < 17408 }
        ensures { result ≡ table_block self.entry index }
    {
        self.blocks[index]
    }

    /// The blocks and the values, as `new` takes them.
    pub fn parts(self) -> (&'d [u16], &'d [u32])
        ensures value { stored_value result.0.now result.1.now ≡ table_value self.entry }
        ensures table { IsCodePointTable result.0.now result.1.now }
    {
        (self.blocks, self.values)
    }

    /// The table of parts that its caller has shown to fit, as those that `parts` returns do: nothing is checked again.
    pub fn from_parts(blocks: &'d [u16], values: &'d [u32]) -> CodePointTable<'d>
        requires { IsCodePointTable blocks.now values.now }
        ensures { table_value result ≡ stored_value blocks.entry.now values.entry.now }
    {
        CodePointTable { blocks, values }
    }
}
