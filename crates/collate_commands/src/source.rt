//! Where the collators of a program come from.
ghost use Rattle.std.specs.Prelude.{IfOk, IfErr, ℕ, List};
ghost use Rattle.icu_table_provider.specs.well_formed.WellFormedTables.{IsWellFormedTables};
ghost use Rattle.icu_collator.specs.Collators.{collation_kept, tables_kept};
ghost use Rattle.icu_options.specs.declared.settings.Strength.{Strength};
ghost use Rattle.icu_order_texts.specs.Collations.{Collation};
ghost use Rattle.program_files.specs.ProgramErrors.{IsCollatorError};

use icu_collator::Collator;
use icu_options::Strength;
use program_files::ProgramError;
use std::alloc::Global;

/// What makes the collators of a program, by the strength that its words name: the tables that it compiles in, or those
/// of a file.
pub trait CollatorSource {
    /// By which collations texts are compared at a strength.
    ghost compares: { Self → Strength → Collation → Type 0 };

    /// With which text a collator of a strength is refused.
    ghost refuses: { Self → Strength → List ℕ → Type 0 };

    /// A collator of this strength.
    ///
    /// # Errors
    ///
    /// `NoMemory` where an allocation fails; `Refused`, with a text that says why, where the tables can't be had.
    fn collator(&self, alloc: Global, strength: Strength) -> Result<Collator, ProgramError>
        ensures compares { IfOk result (λ c. compares self.now strength (collation_kept c)) }
        ensures well_formed { IfOk result (λ c. IsWellFormedTables (tables_kept c)) }
        ensures refused { IfErr result (IsCollatorError (refuses self.now strength)) };
}
