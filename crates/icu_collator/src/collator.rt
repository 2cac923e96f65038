//! Collators: each has a collation, tables and settings together.

ghost use Rattle.std.specs.Prelude.{◌≡◌, ◌<◌, ℕ, false, Err, Ok, IfErr, IfOk, IsOk, IfSome, IsSome};
ghost use Rattle.icu_options.specs.Conversions.{resolved_of};
ghost use Rattle.icu_options.specs.Merge.{merge};
ghost use Rattle.icu_options.specs.FlaggedSettings.{values_of};
ghost use Rattle.icu_options.specs.Metadata.{metadata_settings, is_backward};
ghost use Rattle.icu_table_entries.specs.declared.error.DataErrorKind.TheVariants.{NoMemory};
ghost use Rattle.icu_table_provider.specs.well_formed.Checked.{checked_tables};
ghost use Rattle.icu_table_provider.specs.well_formed.WellFormedTables.{IsWellFormedTables, IsTrueError};
ghost use Rattle.icu_table_provider.specs.OwnedTables.{owned_tables};
ghost use Rattle.icu_element_cursor.specs.Cursors.{cursor_reading};
ghost use Rattle.icu_element_reading.specs.Reading.{element_tables, reading_of};
ghost use Rattle.icu_element_reading.specs.TextElements.{elements_of};
ghost use Rattle.icu_table_provider.specs.SpecialPrimaries.{is_compressible};
ghost use Rattle.icu_key_texts.specs.Compressions.{table_compression};
ghost use Rattle.icu_order_texts.specs.Forms.{compression_of, form_by, last_variable_by};
ghost use Rattle.icu_order_texts.specs.TextOrder.{reading_by, handled_elements, handled_by};
ghost use Rattle.icu_order_texts.specs.level_weights.Weighings.{weighing_of};
ghost use Rattle.icu_order_texts.specs.weighting.CheckedCollations.{collation_of};
ghost use Rattle.icu_order_levels.specs.CommonBeginnings.{ReadsForward};
ghost use Rattle.icu_element_facts.specs.KeptFacts.{AreFirstFacts};
ghost use Rattle.icu_element_facts.specs.FactsTables.{AreFacts};
ghost use Rattle.icu_element_reading.specs.boundaries.BoundaryTables.{boundary_reading};
ghost use Rattle.unicode_normalization.specs.Forms.{nfd};

use crate::handled::{HandledText, PlainText};
use crate::key_text::{HandledKeyText, PlainKeyText};
use crate::steady_text::SteadyText;
use icu_element_cursor::{Boundaries, CharFacts, CursorTables, ElementCursor, Kept, KeptFacts};
use icu_element_reading::{ElementTables, TextReading, all_elements};
use icu_key_texts::TableCompression;
use icu_key_texts::compression::first_asked;
use icu_options::{
    CollatorOptions, CollatorOptionsBitField, CollatorPreferences, ResolvedCollatorOptions,
    merged_options,
};
use icu_order_levels::forms::{KeyForm, SecondaryForm};
use icu_order_texts::level_weights::{LevelWeighing, OrderLevel};
use icu_order_texts::weighting::{key_form, last_variable};
use icu_table_check::{checked_owned, checked_set};
use icu_table_entries::{CollationElement, DataError, DataErrorKind, DataTable};
use icu_table_provider::well_formed::CheckedTables;
use icu_table_provider::{CollationProvider, OwnedTables, load_tables};
use icu_text_decomposition::CountedText;
use icu_text_encodings::{Characters, EncodedText};
use std::alloc::{AllocError, Global};

/// Compares texts by a language's rules (UTS #10). Owns copies of its tables, which were checked
/// together, and its settings, with what each comparison asks of them.
#[derive(Debug, Drop)]
pub struct Collator {
    tables: CheckedTables,
    kept_facts: KeptFacts,
    settings: CollatorOptionsBitField,
    form: KeyForm,
    last_variable: u32,
    /// No lead of a primary weight below it is compressible.
    first_asked: u8,
    ghost backward: { (values_of settings).backward_second_level
        ≡ is_backward (checked_tables tables).bits },
    ghost known: { AreFacts (reading_by (collation_of tables settings)) kept_facts },
    ghost levels: { form ≡ form_by (collation_of tables settings) },
    ghost variable: { last_variable ≡ last_variable_by (collation_of tables settings) },
    ghost asked: { (lead : ℕ) → lead < first_asked
        → is_compressible (checked_tables tables).special lead ≡ false },
}

impl Collator {
    ghost use Rattle.icu_collator.specs.Collators.{loaded_for, tables_kept, settings_kept};
    ghost use Rattle.icu_collator.specs.Collators.{collation_kept, collation_borrowed};

    /// A collator by the tables that a provider returns for the locale and the type of `preferences`
    /// (`load_tables` says which are asked for, and in which order). They are checked together, and
    /// copied; nothing is kept that wasn't checked. Each setting is that of the first source that sets
    /// it: `options` or `preferences`, then the metadata that the provider returned, then the default
    /// (`merged_options`).
    ///
    /// Where the provider refuses a table, its last error of it is returned. Tables that don't meet
    /// the conditions together are refused with the name of one that takes part in a condition that
    /// fails, and the condition's kind. `NoMemory` says that an allocation failed.
    pub fn try_new_unstable<P: CollationProvider>(
        alloc: Global,
        provider: &P,
        preferences: CollatorPreferences<'_>,
        options: CollatorOptions,
    ) -> Result<Collator, DataError>
        // What the provider returns, or its error.
        ensures not_loaded { IfErr (loaded_for (P.loads provider.now) preferences.entry)
            (λ e. result ≡ Err e) }
        ensures keeps { IfOk result (λ c.
            loaded_for (P.loads provider.now) preferences.entry ≡ Ok (tables_kept c)) }

        // It is checked: unless an allocation fails, a collator is made of well-formed tables, and only
        // of them.
        ensures well_formed { IfOk result (λ c. IsWellFormedTables (tables_kept c)) }
        ensures error { IfErr result (λ e.
            IfOk (loaded_for (P.loads provider.now) preferences.entry)
            (λ all. IsTrueError all e)) }
        ensures exact { IfErr result (λ e.
            IfOk (loaded_for (P.loads provider.now) preferences.entry) (λ all.
            (e.kind ≡ NoMemory → ⊥) → IsWellFormedTables all → ⊥)) }

        ensures settings { IfOk result (λ c. settings_kept c
            ≡ merge options preferences.entry (metadata_settings (tables_kept c).bits)) }
    {
        let loaded = load_tables(provider, preferences.locale, preferences.collation_type)?;
        let tables = checked_set(alloc, loaded)?;
        Collator::from_checked_tables(alloc, tables, preferences, options)
    }

    /// A collator by these tables, which are checked together and kept: nothing is copied, and
    /// nothing is kept that wasn't checked. The tables are those of one collation, so the locale and
    /// the type of `preferences` aren't read; a tailoring and a reordering are to be there exactly
    /// where the metadata names them. Settings are those of `try_new_unstable`.
    ///
    /// Tables that don't meet the conditions together are refused as `try_new_unstable` refuses them,
    /// and dropped. `NoMemory` says that an allocation failed.
    pub fn try_from_tables(
        alloc: Global,
        tables: OwnedTables,
        preferences: CollatorPreferences<'_>,
        options: CollatorOptions,
    ) -> Result<Collator, DataError>
        ensures keeps { IfOk result (λ c. tables_kept c ≡ owned_tables tables) }

        // Unless an allocation fails, a collator is made of well-formed tables, and only of them.
        ensures well_formed { IfOk result (λ c. IsWellFormedTables (tables_kept c)) }
        ensures error { IfErr result (IsTrueError (owned_tables tables)) }
        ensures exact { IfErr result (λ e.
            (e.kind ≡ NoMemory → ⊥) → IsWellFormedTables (owned_tables tables) → ⊥) }

        ensures settings { IfOk result (λ c. settings_kept c
            ≡ merge options preferences.entry (metadata_settings (tables_kept c).bits)) }
    {
        let tables = checked_owned(alloc, tables)?;
        Collator::from_checked_tables(alloc, tables, preferences, options)
    }

    /// A collator by tables that were checked together, which are kept: they aren't checked again. The locale and the
    /// type of `preferences` aren't read. Settings are those of `try_new_unstable`. `NoMemory` says that an allocation
    /// failed.
    pub fn from_checked_tables(
        alloc: Global,
        tables: CheckedTables,
        preferences: CollatorPreferences<'_>,
        options: CollatorOptions,
    ) -> Result<Collator, DataError>
        ensures keeps { IfOk result (λ c. tables_kept c ≡ checked_tables tables) }
        ensures settings { IfOk result (λ c. settings_kept c
            ≡ merge options preferences.entry (metadata_settings (checked_tables tables).bits)) }
        ensures memory { IfErr result (λ e. e.kind ≡ NoMemory) }
    {
        let settings = merged_options(options, preferences, tables.metadata().settings());
        let places = boundaries(&tables, settings);
        let kept_facts = refused_as_root(KeptFacts::new(alloc, &tables, places))?;
        let form = key_form(&tables, settings);
        let last_variable = last_variable(&tables, settings);
        let first_asked = first_asked(&tables);
        Ok(Collator {
            tables,
            kept_facts,
            settings,
            form,
            last_variable,
            first_asked,
        })
    }

    /// The collator by the same tables with other settings. The tables aren't checked again, and what is kept of
    /// characters stays, unless digits are to be read otherwise than before: then it is worked out anew. The locale and
    /// the type of `preferences` aren't read. Settings are those of `try_new_unstable`.
    ///
    /// `NoMemory` says that an allocation failed, and comes only where digits are read otherwise than before.
    pub fn with_options(
        self,
        alloc: Global,
        preferences: CollatorPreferences<'_>,
        options: CollatorOptions,
    ) -> Result<Collator, DataError>
        ensures keeps { IfOk result (λ c. tables_kept c ≡ tables_kept self) }
        ensures settings { IfOk result (λ c. settings_kept c
            ≡ merge options preferences.entry (metadata_settings (tables_kept self).bits)) }
        ensures memory { IfErr result (λ e. e.kind ≡ NoMemory) }
        ensures free { (merge options preferences.entry
            (metadata_settings (tables_kept self).bits)).numeric ≡ (settings_kept self).numeric
            → IsOk result }
    {
        let metadata = self.tables.metadata().settings();
        let settings = merged_options(options, preferences, metadata);
        if settings.numeric() != self.settings.numeric() {
            return Collator::from_checked_tables(alloc, self.tables, preferences, options);
        }
        let form = key_form(&self.tables, settings);
        let last_variable = last_variable(&self.tables, settings);
        Ok(Collator {
            tables: self.tables,
            kept_facts: self.kept_facts,
            settings,
            form,
            last_variable,
            first_asked: self.first_asked,
        })
    }

    /// The tables, as they were checked together.
    pub fn checked_tables(&self) -> &CheckedTables
        ensures { checked_tables result.now ≡ tables_kept self.now }
    {
        &self.tables
    }

    /// The settings, of which each is that of the first source that set it.
    pub fn settings(&self) -> CollatorOptionsBitField
        ensures { values_of result ≡ settings_kept self.now }
    {
        self.settings
    }

    /// The same collator, borrowed: copies nothing of the tables, and works nothing out.
    pub fn as_borrowed(&self) -> CollatorBorrowed<'_>
        ensures { collation_borrowed result ≡ collation_kept self.now }
    {
        CollatorBorrowed {
            tables: &self.tables,
            kept_facts: &self.kept_facts,
            settings: self.settings,
            form: self.form,
            last_variable: self.last_variable,
            first_asked: self.first_asked,
        }
    }
}

/// What is kept beside the tables. Where an allocation fails, that is said of the root.
fn refused_as_root<T>(kept: Result<T, AllocError>) -> Result<T, DataError>
    ensures kept { IfOk result (λ x. kept ≡ Ok x) }
    ensures error { IfErr result (λ e. e.kind ≡ NoMemory) }
{
    match kept {
        Ok(kept) => Ok(kept),
        Err(AllocError) => Err(DataError {
            table: DataTable::Root,
            kind: DataErrorKind::NoMemory,
        }),
    }
}

/// How texts are read by this collation.
#[inline]
fn text_reading(tables: &CheckedTables, settings: CollatorOptionsBitField) -> TextReading<'_>
    ensures reading { reading_of result ≡ reading_by (collation_of tables.now settings) }
    ensures tables { element_tables result.tables ≡ (checked_tables tables.now).tables }
{
    TextReading {
        tables: ElementTables::new(tables),
        numeric_primary: numeric_primary(tables, settings),
        lithuanian_dot_above: tables.metadata().lithuanian_dot_above(),
    }
}

/// Before which characters texts may be cut that are read by this collation.
fn boundaries(tables: &CheckedTables, settings: CollatorOptionsBitField) -> Boundaries<'_>
    ensures { boundary_reading result ≡ reading_by (collation_of tables.now settings) }
{
    Boundaries::new(text_reading(tables, settings))
}

/// The lead byte of numbers, where digits are read as numbers.
fn numeric_primary(tables: &CheckedTables, settings: CollatorOptionsBitField) -> Option<u8>
    ensures { result ≡ (reading_by (collation_of tables.now settings)).numeric }
{
    if settings.numeric() {
        Some(tables.special_primaries().numeric_primary())
    } else {
        None
    }
}

/// A collator that borrows its tables, with what each comparison asks of the settings: the levels that count, which
/// elements are variable, and how texts are read.
#[derive(Debug, Clone, Copy)]
pub struct CollatorBorrowed<'a> {
    pub(crate) tables: &'a CheckedTables,
    kept_facts: &'a KeptFacts,
    pub(crate) settings: CollatorOptionsBitField,
    form: KeyForm,
    last_variable: u32,
    /// No lead of a primary weight below it is compressible.
    first_asked: u8,
    ghost backward: { (values_of settings).backward_second_level
        ≡ is_backward (checked_tables tables.now).bits },
    ghost known: { AreFacts (reading_by (collation_of tables.now settings)) kept_facts.now },
    ghost levels: { form ≡ form_by (collation_of tables.now settings) },
    ghost variable: { last_variable ≡ last_variable_by (collation_of tables.now settings) },
    ghost asked: { (lead : ℕ) → lead < first_asked
        → is_compressible (checked_tables tables.now).special lead ≡ false },
}

impl<'a> CollatorBorrowed<'a> {
    ghost use Rattle.icu_collator.specs.Collators.{collation_borrowed, settings_borrowed, tables_borrowed};
    ghost use Rattle.icu_collator.specs.HandledRests.{handled_to_come, plain_to_come, steady_to_come};
    ghost use Rattle.icu_collator.specs.LevelWeighings.{weighing_by};
    ghost use Rattle.icu_collator.specs.inner.KeyElements.{handled_for_key, plain_for_key};

    /// The settings that the collator works by.
    pub fn resolved_options(&self) -> ResolvedCollatorOptions
        ensures { result ≡ resolved_of (settings_borrowed self.now) }
    {
        self.settings.into()
    }

    /// The tables meet the conditions on all tables of a collator: no collator has others.
    pub fn has_well_formed_tables(&self)
        ensures { IsWellFormedTables (tables_borrowed self.now) }
    {
        self.tables.are_well_formed();
    }

    /// The tables, as they were checked together.
    pub fn checked_tables(&self) -> &'a CheckedTables
        ensures { checked_tables result.now ≡ tables_borrowed self.now }
    {
        self.tables
    }

    /// The tables that elements are read from.
    pub fn tables(&self) -> ElementTables<'a>
        ensures { element_tables result ≡ (tables_borrowed self.now).tables }
    {
        ElementTables::new(self.tables)
    }

    /// A collator of the same tables with other settings, beside this one: nothing is checked again, worked out anew or
    /// copied. The locale and the type of `preferences` aren't read. Settings are those of
    /// `Collator::try_new_unstable`.
    ///
    /// `None` where digits are to be read otherwise than by this collator: what is kept of characters serves one way of
    /// reading them. `Collator::with_options` makes a collator then.
    pub fn with_options(
        &self,
        preferences: CollatorPreferences<'_>,
        options: CollatorOptions,
    ) -> Option<CollatorBorrowed<'a>>
        ensures keeps { IfSome result (λ c. tables_borrowed c ≡ tables_borrowed self.now) }
        ensures settings { IfSome result (λ c. settings_borrowed c
            ≡ merge options preferences.entry (metadata_settings (tables_borrowed self.now).bits)) }
        ensures given { (merge options preferences.entry
            (metadata_settings (tables_borrowed self.now).bits)).numeric
            ≡ (settings_borrowed self.now).numeric → IsSome result }
    {
        let metadata = self.tables.metadata().settings();
        let settings = merged_options(options, preferences, metadata);
        if settings.numeric() != self.settings.numeric() {
            return None;
        }
        Some(CollatorBorrowed {
            tables: self.tables,
            kept_facts: self.kept_facts,
            settings,
            form: key_form(self.tables, settings),
            last_variable: last_variable(self.tables, settings),
            first_asked: self.first_asked,
        })
    }

    /// The levels that count, and their forms.
    pub(crate) fn key_form(&self) -> KeyForm
        ensures { result ≡ form_by (collation_borrowed self.now) }
    {
        self.form
    }

    /// The last primary weight of the groups that are variable (UTS #10, "Variable Weighting"), or 0 where none is.
    pub fn last_variable(&self) -> u32
        ensures { result ≡ last_variable_by (collation_borrowed self.now) }
    {
        self.last_variable
    }

    /// How a level weighs elements.
    pub fn level_weighing(&self, level: OrderLevel) -> LevelWeighing<'a>
        ensures { weighing_of result ≡ weighing_by (collation_borrowed self.now) level }
    {
        LevelWeighing {
            level,
            form: self.form,
            reordering: self.tables.reordering(),
            handling: self.settings.alternate_handling(),
            last_variable: self.last_variable,
        }
    }

    /// How primary weights are written in keys.
    #[inline(always)]
    pub(crate) fn compression(&self) -> TableCompression<'a>
        ensures { table_compression result
            ≡ compression_of (collation_borrowed self.now).tables }
    {
        TableCompression::asked_from(self.tables, self.first_asked)
    }

    /// Whether secondary weights are read backward.
    pub(crate) fn reads_backward(&self) -> bool
        ensures { result ≡ false → ReadsForward (form_by (collation_borrowed self.now)).secondary }
    {
        self.key_form().secondary == Some(SecondaryForm::Backward)
    }

    /// What is kept of texts that begin with a character: by its own facts, or where it is a Hangul syllable, by those
    /// of its first jamo.
    #[inline(always)]
    pub(crate) fn kept_facts(&self, c: char) -> Option<&'a CharFacts>
        ensures { IfSome result
            (λ l. AreFirstFacts (reading_by (collation_borrowed self.now)) c l.now) }
    {
        match self.kept_facts.get(c) {
            Kept::Facts(facts) => Some(facts),
            Kept::Own => None,
            Kept::Nothing => self.kept_facts.leading_jamo(c),
        }
    }

    /// What is known of texts that begin with a character of which no facts are kept.
    #[inline(never)]
    pub(crate) fn other_facts(&self, c: char) -> CharFacts
        ensures { AreFirstFacts (reading_by (collation_borrowed self.now)) c result }
    {
        let places = boundaries(self.tables, self.settings);
        self.kept_facts.work_out(&places, c)
    }

    /// What texts are read by: an `ElementCursor` over these tables gives the collation elements of a text, one by one,
    /// as the comparison reads them, by what is kept of each character (UTS #10, "Produce Collation Element Arrays").
    /// Make them once for many texts.
    #[inline(always)]
    pub fn cursor_tables(&self) -> CursorTables<'a>
        ensures { cursor_reading result ≡ reading_by (collation_borrowed self.now) }
    {
        CursorTables::new(boundaries(self.tables, self.settings), self.kept_facts)
    }

    /// Reads the elements of a text, as the collation handles variable ones.
    #[inline(always)]
    pub(crate) fn handled_text<'c, T: CountedText>(
        &self,
        tables: &'c CursorTables<'a>,
        text: T,
    ) -> HandledText<'c, 'a, T>
        requires { cursor_reading tables.now ≡ reading_by (collation_borrowed self.now) }
        ensures { handled_to_come T.text result
            ≡ handled_by (collation_borrowed self.now) (nfd (T.text text)) }
    {
        let handling = self.settings.alternate_handling();
        HandledText::new(
            ElementCursor::new(tables, text),
            handling,
            self.last_variable(),
        )
    }

    /// Reads the elements of a text, where none is variable.
    #[inline(always)]
    pub(crate) fn plain_text<'c, T: CountedText>(
        &self,
        tables: &'c CursorTables<'a>,
        text: T,
    ) -> PlainText<'c, 'a, T>
        requires reading { cursor_reading tables.now ≡ reading_by (collation_borrowed self.now) }
        requires plain { last_variable_by (collation_borrowed self.now) ≡ 0 }
        ensures { plain_to_come T.text result
            ≡ handled_by (collation_borrowed self.now) (nfd (T.text text)) }
    {
        PlainText::new(ElementCursor::new(tables, text))
    }

    /// Reads the elements of a text, whatever pieces it has, as the collation handles variable ones.
    pub(crate) fn steady_text<'c, T: CountedText>(
        &self,
        tables: &'c CursorTables<'a>,
        text: T,
    ) -> SteadyText<'c, 'a, T>
        requires { cursor_reading tables.now ≡ reading_by (collation_borrowed self.now) }
        ensures { steady_to_come T.text result
            ≡ handled_by (collation_borrowed self.now) (nfd (T.text text)) }
    {
        let handling = self.settings.alternate_handling();
        SteadyText::new(
            ElementCursor::new(tables, text),
            handling,
            self.last_variable(),
        )
    }

    /// Reads the elements of a text for its key, as the collation handles variable ones.
    #[inline(always)]
    pub(crate) fn handled_key_text<'c, T: CountedText>(
        &self,
        tables: &'c CursorTables<'a>,
        text: T,
    ) -> HandledKeyText<'c, 'a, T>
        requires { cursor_reading tables.now ≡ reading_by (collation_borrowed self.now) }
        ensures { handled_for_key T.text result
            ≡ handled_by (collation_borrowed self.now) (nfd (T.text text)) }
    {
        let handling = self.settings.alternate_handling();
        HandledKeyText::new(
            self.tables.allocator(),
            ElementCursor::lone(tables, text),
            handling,
            self.last_variable(),
        )
    }

    /// Reads the elements of a text for its key, where none is variable.
    #[inline(always)]
    pub(crate) fn plain_key_text<'c, T: CountedText>(
        &self,
        tables: &'c CursorTables<'a>,
        text: T,
    ) -> PlainKeyText<'c, 'a, T>
        requires reading { cursor_reading tables.now ≡ reading_by (collation_borrowed self.now) }
        requires plain { last_variable_by (collation_borrowed self.now) ≡ 0 }
        ensures { plain_for_key T.text result
            ≡ handled_by (collation_borrowed self.now) (nfd (T.text text)) }
    {
        PlainKeyText::new(self.tables.allocator(), ElementCursor::lone(tables, text))
    }
}
