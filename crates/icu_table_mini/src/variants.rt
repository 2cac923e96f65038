//! The variants of Mini, each with one thing that Mini lacks.
ghost use Rattle.std.specs.Prelude.{◌≡◌, true, ◌∷◌, [], IfOk, replicate, slice_set};
ghost use Rattle.icu_table_provider.specs.builder.AddedContexts.{given_context};
ghost use Rattle.icu_table_provider.specs.MetadataFields.{metadata_bits};
ghost use Rattle.icu_table_mini.specs.Characters.{run};
ghost use Rattle.icu_table_mini.specs.Mini.{mini_fields};

use crate::ingredients::{all_leads, in_context, tailoring};
use crate::mini::Mini;
use crate::reordering_data::ReorderingData;
use icu_options::MaxVariable;
use icu_table_entries::element::COMMON_WEIGHT16;
use icu_table_entries::{CollationElement, CollationElement32};
use icu_table_provider::{CollationMetadata, MetadataFields};
use std::alloc::{AllocError, Global};

/// What the metadata of Mini says.
fn fields() -> MetadataFields
    ensures { result ≡ mini_fields }
{
    MetadataFields::new(MaxVariable::Punctuation)
}

/// The metadata of a tailored variant.
fn tailored() -> CollationMetadata
    ensures { result.bits ≡ metadata_bits (record mini_fields { tailored = true }) }
{
    CollationMetadata::new(MetadataFields {
        tailored: true,
        ..fields()
    })
}

impl Mini {
    ghost use Rattle.icu_table_mini.specs.Mini.{Holds};
    ghost use Rattle.icu_table_mini.specs.Variants as variants;

    /// Mini where a tailoring gives one character a context.
    fn in_context(
        alloc: Global,
        c: char,
        entry: CollationElement32,
        default: CollationElement32,
        mappings: &[(&[char], CollationElement32)],
    ) -> Result<Mini, AllocError>
        ensures { IfOk result (Holds
            (variants.in_context c entry (given_context default mappings.now))) }
    {
        let mut mini = Mini::new(alloc)?;
        mini.tailoring = Some(in_context(alloc, c, entry, default, mappings)?);
        mini.metadata = tailored();
        Ok(mini)
    }

    /// Mini where these characters too have entries of their own.
    fn with_more(
        alloc: Global,
        characters: &[(char, CollationElement32)],
    ) -> Result<Mini, AllocError>
        ensures { IfOk result (Holds (variants.with_more characters.now)) }
    {
        Mini::with_root(alloc, characters, &[], &[])
    }

    /// Mini whose second level is compared from the end, as in Canadian French.
    pub fn with_backward_second_level(alloc: Global) -> Result<Mini, AllocError>
        ensures { IfOk result (Holds variants.mini_backward) }
    {
        let mut mini = Mini::new(alloc)?;
        mini.metadata = CollationMetadata::new(MetadataFields {
            backward_second_level: true,
            ..fields()
        });
        Ok(mini)
    }

    /// Mini where U+0307 is left out before U+0300, U+0301 and U+0303, as in Lithuanian.
    pub fn lithuanian(alloc: Global) -> Result<Mini, AllocError>
        ensures { IfOk result (Holds variants.mini_lithuanian) }
    {
        let mut mini = Mini::new(alloc)?;
        mini.metadata = CollationMetadata::new(MetadataFields {
            lithuanian_dot_above: true,
            ..fields()
        });
        Ok(mini)
    }

    /// Mini where "a" with a ring above, U+030A, is a letter after "z": a contraction that a mark ends.
    pub fn with_a_ring(alloc: Global) -> Result<Mini, AllocError>
        ensures { IfOk result (Holds variants.mini_a_ring) }
    {
        Mini::in_context(
            alloc,
            'a',
            CollationElement32::contraction(0),
            CollationElement32::common(0x6110),
            &[(&['\u{30A}'], CollationElement32::common(0x6210))],
        )
    }

    /// Mini where "ll" is a letter after "l", as in traditional Spanish: a contraction that a starter ends.
    pub fn with_double_l(alloc: Global) -> Result<Mini, AllocError>
        ensures { IfOk result (Holds variants.mini_double_l) }
    {
        Mini::in_context(
            alloc,
            'l',
            CollationElement32::contraction(0),
            CollationElement32::common(0x613C),
            &[(&['l'], CollationElement32::common(0x613E))],
        )
    }

    /// Mini where "b" after "a" comes before other "b"s: a prefix of one character.
    pub fn with_b_after_a(alloc: Global) -> Result<Mini, AllocError>
        ensures { IfOk result (Holds variants.mini_b_after_a) }
    {
        Mini::in_context(
            alloc,
            'b',
            CollationElement32::prefix(0),
            CollationElement32::common(0x6114),
            &[(&['a'], CollationElement32::common(0x6112))],
        )
    }

    /// Mini where "a" has two contractions, with the ring above, and with the dot below and the ring above.
    pub fn with_two_mappings(alloc: Global) -> Result<Mini, AllocError>
        ensures { IfOk result (Holds variants.mini_two_mappings) }
    {
        Mini::in_context(
            alloc,
            'a',
            CollationElement32::contraction(0),
            CollationElement32::common(0x6110),
            &[
                (&['\u{30A}'], CollationElement32::common(0x6210)),
                (&['\u{323}', '\u{30A}'], CollationElement32::common(0x6230)),
            ],
        )
    }

    /// Mini where "c" after "ab" has a weight of its own: a prefix of two characters, the nearest first.
    pub fn with_c_after_ab(alloc: Global) -> Result<Mini, AllocError>
        ensures { IfOk result (Holds variants.mini_c_after_ab) }
    {
        Mini::in_context(
            alloc,
            'c',
            CollationElement32::prefix(0),
            CollationElement32::common(0x6118),
            &[(&['b', 'a'], CollationElement32::common(0x611E))],
        )
    }

    /// Mini where Greek alpha and beta, U+03B1 and U+03B2, have weights by offset: beta's is 4 places after alpha's,
    /// past the end of the third byte.
    pub fn with_offsets(alloc: Global) -> Result<Mini, AllocError>
        ensures { IfOk result (Holds variants.mini_offset) }
    {
        let characters = [
            ('\u{3B1}', CollationElement32::offset(0)),
            ('\u{3B2}', CollationElement32::offset(0)),
        ];
        let mut mini = Mini::new(alloc)?;
        let data = CollationElement::offset_data(0x7010_FE00, '\u{3B1}', true, 4);
        mini.tailoring = Some(tailoring(alloc, &characters, &[data])?);
        mini.metadata = tailored();
        Ok(mini)
    }

    /// Mini with the contraction of "a" and the ring above, where the lead bytes 61 and 62 change places.
    pub fn with_swapped_leads(alloc: Global) -> Result<Mini, AllocError>
        ensures { IfOk result (Holds variants.mini_swapped_leads) }
    {
        let mut mini = Mini::with_a_ring(alloc)?;
        mini.reordering = Some(ReorderingData {
            min_high_no_reorder: 0,
            reorder_table: swapped_leads(alloc)?,
            reorder_ranges: Vec::new(alloc),
        });
        mini.metadata = CollationMetadata::new(MetadataFields {
            tailored: true,
            reordering: true,
            ..fields()
        });
        Ok(mini)
    }

    /// Mini where the weights with lead byte 61 go two ways: those below 6140 move to lead byte 90, the others stay.
    pub fn with_split_lead(alloc: Global) -> Result<Mini, AllocError>
        ensures { IfOk result (Holds variants.mini_split_lead) }
    {
        let mut mini = Mini::new(alloc)?;
        mini.reordering = Some(ReorderingData {
            min_high_no_reorder: 0x6200_0000,
            reorder_table: split_leads(alloc)?,
            reorder_ranges: Vec::from_slice(alloc, &[0x6140_002F])?,
        });
        mini.metadata = CollationMetadata::new(MetadataFields {
            reordering: true,
            ..fields()
        });
        Ok(mini)
    }

    /// Mini with U+00DF, the sharp s, whose entry is the list of the entry of "s" and of one that is greater on the
    /// third level.
    pub fn with_sharp_s(alloc: Global) -> Result<Mini, AllocError>
        ensures { IfOk result (Holds variants.mini_sharp_s) }
    {
        let characters = [('ß', CollationElement32::entry_list(10, 2))];
        let entries = [
            CollationElement32::common(0x6158),
            CollationElement32::simple(0x6158, 0x05, 0x06),
        ];
        Mini::with_root(alloc, &characters, &[], &entries)
    }

    /// Mini where the jamo U+1100 is a list of two entries of the root.
    #[tactic(auto, using(crate::proofs::WeightRunLemmas::length_run))]
    pub fn with_jamo_list(alloc: Global) -> Result<Mini, AllocError>
        ensures { IfOk result (Holds variants.mini_jamo_list) }
    {
        let entries = [
            CollationElement32::common(0x6510),
            CollationElement32::common(0x6690),
        ];
        let mut mini = Mini::with_root(alloc, &[], &[], &entries)?;
        mini.jamo[0] = CollationElement32::entry_list(10, 2).bits();
        Ok(mini)
    }

    /// Mini where hiragana and katakana a, U+3042 and U+30A2, differ by the quaternary bits of their elements alone.
    pub fn with_kana(alloc: Global) -> Result<Mini, AllocError>
        ensures { IfOk result (Holds variants.mini_kana) }
    {
        let characters = [
            ('\u{3042}', CollationElement32::element_list(0, 1)),
            ('\u{30A2}', CollationElement32::element_list(1, 1)),
        ];
        let elements = [
            CollationElement::new_from_primary(0x6710_0000),
            CollationElement::from_weights(0x6710_0000, COMMON_WEIGHT16, 0x0540),
        ];
        Mini::with_root(alloc, &characters, &elements, &[])
    }

    /// Mini where "$" is a currency whose primary weight has a lead byte above 1B, and numbers come later.
    pub fn with_high_currency(alloc: Global) -> Result<Mini, AllocError>
        ensures { IfOk result (Holds variants.mini_high_currency) }
    {
        let mut mini = Mini::with_more(alloc, &[('$', CollationElement32::common(0x1E10))])?;
        mini.last_primaries[3] = 0x2000;
        mini.numeric_primary = 0x30;
        Ok(mini)
    }

    /// Mini where the grapheme joiner, U+034F, has a secondary weight and no primary one.
    pub fn with_secondary_alone(alloc: Global) -> Result<Mini, AllocError>
        ensures { IfOk result (Holds variants.mini_secondary_alone) }
    {
        Mini::with_more(
            alloc,
            &[('\u{34F}', CollationElement32::long_secondary(0x9600, 0x05))],
        )
    }

    /// Mini where U+0001 has a tertiary weight and no other.
    pub fn with_tertiary_alone(alloc: Global) -> Result<Mini, AllocError>
        ensures { IfOk result (Holds variants.mini_tertiary_alone) }
    {
        Mini::with_more(alloc, &[('\u{1}', CollationElement32::simple(0, 0, 0xBF))])
    }
}

/// 61 and 62 change places, and every other lead byte has a 0.
fn swapped_leads(alloc: Global) -> Result<Vec<u8>, AllocError>
    ensures { IfOk result (λ v. v.items
        ≡ slice_set (slice_set (replicate 256 0) 0x61 0x62) 0x62 0x61) }
{
    let mut leads = Vec::from_slice(alloc, &[0u8; 256])?;
    leads[0x61] = 0x62;
    leads[0x62] = 0x61;
    Ok(leads)
}

/// Every lead byte stands for itself, but 61 has a 0.
#[tactic(auto, using(crate::proofs::WeightRunLemmas::length_run))]
fn split_leads(alloc: Global) -> Result<Vec<u8>, AllocError>
    ensures { IfOk result (λ v. v.items ≡ slice_set (run 0 1 256) 0x61 0) }
{
    let mut leads = all_leads(alloc)?;
    leads[0x61] = 0;
    Ok(leads)
}
