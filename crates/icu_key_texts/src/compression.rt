//! How the primaries of a collator are written.

ghost use Rattle.std.specs.Prelude.{◌≡◌, ◌<◌, ℕ, false};
ghost use Rattle.icu_table_provider.specs.well_formed.Checked.{checked_tables};
ghost use Rattle.icu_table_provider.specs.SpecialPrimaries.{is_compressible};
ghost use Rattle.icu_table_provider.specs.StoredTables.{special_of};
ghost use Rattle.icu_order_texts.specs.weighting.Forms.{compression_of};

use icu_key_writers::primaries::PrimaryCompression;
use icu_order_texts::weighting::element_weights::reordered;
use icu_table_provider::CollationSpecialPrimaries;
use icu_table_provider::well_formed::CheckedTables;

/// The first lead that six of the numbers with bits for leads say nothing of. Those below it are the leads of spaces,
/// signs, digits and Latin letters.
const FIRST_AFTER_LATIN: u8 = 0x60;

/// What stands for the lead that was asked of last, where none was yet.
const NONE_ASKED: u16 = 0x100;

/// A lead below which none is compressible: that after Latin, or 0 where there is one among those before it.
#[tactic(auto, using(crate::proofs::CompressionLemmas::none_below, crate::proofs::CompressionLemmas::none_without_bits))]
fn first_compressible(special: CollationSpecialPrimaries<'_>) -> u8
    ensures { (lead : ℕ) → lead < result → is_compressible (special_of special.entry) lead ≡ false }
{
    let numbers = special.last_primaries();
    if numbers.len() != 20 {
        return FIRST_AFTER_LATIN;
    }
    for index in 4..10usize {
        if numbers[index] != 0 {
            return 0;
        }
    }
    FIRST_AFTER_LATIN
}

/// A lead of checked tables below which none is compressible. Work it out once for many keys.
pub fn first_asked(tables: &CheckedTables) -> u8
    ensures { (lead : ℕ) → lead < result
        → is_compressible (checked_tables tables.now).special lead ≡ false }
{
    first_compressible(tables.special_primaries())
}

/// How primaries are written: by the reordering of the tables, if they have one, and by the leads that their special
/// primaries name compressible (UTS #35 part 5, "Collation Reordering").
#[derive(Clone, Copy)]
pub struct TableCompression<'d> {
    tables: &'d CheckedTables,
    /// No lead below it is compressible, so that this isn't asked of Latin letters and digits.
    first_asked: u8,
    /// The lead that was asked of last, or `NONE_ASKED`, and whether it is compressible: weights of most
    /// scripts share their lead.
    last: u16,
    is_last_compressible: bool,
    ghost none_below: { (lead : ℕ) → lead < first_asked
        → is_compressible (checked_tables tables.now).special lead ≡ false },
    ghost answered: { last < 0x100
        → is_compressible (checked_tables tables.now).special last ≡ is_last_compressible },
}

impl<'d> TableCompression<'d> {
    ghost use Rattle.icu_key_texts.specs.Compressions.{table_compression};

    /// That of checked tables. It copies nothing.
    #[inline(always)]
    pub fn new(tables: &'d CheckedTables) -> TableCompression<'d>
        ensures { table_compression result ≡ compression_of (checked_tables tables.now) }
    {
        TableCompression::asked_from(tables, first_asked(tables))
    }

    /// That of checked tables, where none of the leads below `first_asked` is compressible, as `first_asked` returned
    /// it.
    #[inline(always)]
    pub fn asked_from(tables: &'d CheckedTables, first_asked: u8) -> TableCompression<'d>
        requires { (lead : ℕ) → lead < first_asked
            → is_compressible (checked_tables tables.now).special lead ≡ false }
        ensures { table_compression result ≡ compression_of (checked_tables tables.now) }
    {
        TableCompression {
            tables,
            first_asked,
            last: NONE_ASKED,
            is_last_compressible: false,
        }
    }

    /// This compression, once this lead was asked of.
    #[inline(always)]
    fn asked_of(self, lead: u8) -> TableCompression<'d>
        ensures compression { table_compression result ≡ table_compression self.entry }
        ensures asked { result.last ≡ lead }
        ensures tables { result.tables ≡ self.entry.tables }
    {
        TableCompression {
            tables: self.tables,
            first_asked: self.first_asked,
            last: u16::from(lead),
            is_last_compressible: self.tables.special_primaries().is_compressible(lead),
        }
    }
}

impl<'d> PrimaryCompression for TableCompression<'d> {
    ghost use Rattle.icu_key_texts.specs.Compressions.{table_compression};

    ghost compression = { table_compression };

    #[inline(always)]
    fn reorder(&self, primary: u32) -> u32 {
        reordered(self.tables.reordering(), primary)
    }

    #[inline(always)]
    fn is_compressible(&mut self, lead: u8) -> bool {
        if lead < self.first_asked {
            return false;
        }
        if u16::from(lead) != self.last {
            *self = self.asked_of(lead);
        }
        self.is_last_compressible
    }
}
