//! The root collation as a provider.
ghost use Rattle.std.specs.Prelude.{◌≡◌, [], IfOk, IfErr, IfSome, MatchOption, None, Some, option_map, string_bytes};
ghost use Rattle.icu_table_provider.specs.OwnedTables.{owned_tables};
ghost use Rattle.icu_cldr_root.specs.Errors.{IsNumbered, IsRightlyRefused};
ghost use Rattle.icu_cldr_root.specs.FileRoots.{SaysFile};
ghost use Rattle.icu_cldr_root.specs.IdeographOrder.{first_ideographs};
ghost use Rattle.icu_cldr_root.specs.Roots.{IsRoot, root_facts, root_tables};

use crate::error::ReadError;
use crate::file_facts::FileFacts;
use crate::ideograph_order::IdeographOrder;
use crate::line_reader::collect_lines;
use icu_table_provider::{FixedLoads, FixedProvider, OwnedTables};
use std::alloc::Global;
use std::io::BufRead;

/// The root collation of CLDR, for every locale and type: without a tailoring and without a reordering.
#[derive(Drop)]
pub struct CldrRoot {
    pub(crate) tables: OwnedTables,
    pub(crate) facts: FileFacts,
}

/// Reads the root collation from the lines of FractionalUCA.txt. The tables have each passed their own checks; what
/// they show together is checked where a collator is made of them. A file without the line that is the last of each
/// file is cut off, and refused as such (`Missing::End`), and one without a byte as empty (`ReadError::Empty`).
pub fn read_root<R: BufRead + Drop>(alloc: Global, reader: R) -> Result<CldrRoot, ReadError>
    ensures root { IfOk result (λ r. IsRoot (root_tables r)) }
    ensures says { IfOk result (λ r.
        IfSome (R.remaining reader) (λ bytes. SaysFile [] bytes (root_tables r) (root_facts r))) }
    ensures numbered { IfErr result IsNumbered }
    ensures refused { IfErr result (λ e.
        IfSome (R.remaining reader) (λ bytes. IsRightlyRefused bytes e)) }
{
    collect_lines(alloc, &[], reader)?.finish()
}

/// Reads the root collation as `read_root` does, with ideographs in another order.
pub fn read_root_by<R: BufRead + Drop>(
    alloc: Global,
    order: &IdeographOrder,
    reader: R,
) -> Result<CldrRoot, ReadError>
    ensures root { IfOk result (λ r. IsRoot (root_tables r)) }
    ensures says { IfOk result (λ r. IfSome (R.remaining reader)
        (λ bytes. SaysFile (first_ideographs order.now) bytes (root_tables r) (root_facts r))) }
    ensures numbered { IfErr result IsNumbered }
    ensures refused { IfErr result (λ e.
        IfSome (R.remaining reader) (λ bytes. IsRightlyRefused bytes e)) }
{
    collect_lines(alloc, order.first_ranges(), reader)?.finish()
}

impl CldrRoot {
    /// The tables, without a copy. `Collator::try_from_tables` takes them.
    #[tactic(auto, unfolding(crate::specs::Roots::root_tables))]
    pub fn into_tables(self) -> OwnedTables
        ensures { owned_tables result ≡ root_tables self }
    {
        self.tables
    }

    /// What the file says of itself.
    #[tactic(auto, unfolding(crate::specs::Roots::root_facts))]
    pub fn facts(&self) -> &FileFacts
        ensures { result.now ≡ root_facts self.now }
    {
        &self.facts
    }

    /// The version of the Unicode Collation Algorithm that the file is of, which is one of Unicode, as `14.0.0`, if the
    /// file says it.
    #[tactic(auto, unfolding(crate::specs::Roots::root_facts))]
    pub fn version(&self) -> Option<&str>
        ensures { MatchOption result ((root_facts self.now).version ≡ None)
            (λ version. option_map string_bytes (root_facts self.now).version ≡ Some version.now) }
    {
        match &self.facts.version {
            Some(version) => Some(version.as_str()),
            None => None,
        }
    }
}

impl FixedProvider for CldrRoot {
    ghost use Rattle.icu_table_provider.specs.TableSets.{loads_of};
    ghost use Rattle.icu_cldr_root.specs.Roots.{root_tables};

    ghost fixed = { λ r. loads_of (root_tables r) };

    #[tactic(auto, unfolding(crate::specs::Roots::root_tables))]
    fn loads(&self) -> FixedLoads<'_> {
        self.tables.loads()
    }
}
