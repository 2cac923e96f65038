//! Laws of the order of texts and of their sort keys, over the definitions of `icu_order_texts` and of the levels and
//! sinks beneath it. Each is the contract of a function that takes no value and makes no call.
ghost use Rattle.icu_order_texts.specs.text_laws.IdenticalLaws.{IdenticalKeysDetermineTexts, IdenticalLevelsDetermineTexts, IdenticalLevelsKeepOrder, IdenticalOrderDeterminesTexts};
ghost use Rattle.icu_order_texts.specs.text_laws.KeyBytesLaws.{HoldsKeyAfter, HoldsKeyInFront};
ghost use Rattle.icu_order_texts.specs.text_laws.NumberTextLaws.{DifferentNumbersOrderByValue, DigitTextsAreNumbers, NumberTextsOrderByValue};
ghost use Rattle.icu_order_texts.specs.text_laws.OrderLaws.{EquivalentTextsAreEqual, EquivalentTextsHaveOneKey, StrengthKeepsOrder, TextsAreOrdered};
ghost use Rattle.icu_order_texts.specs.text_laws.RunLengthLaws.{CommonQuaternariesAddFew, CommonSecondariesAddFew, CommonTertiariesAddFew};

use icu_key_writers::CollationKeySink;
use smallvec::SmallVec;
use std::collections::VecDeque;

/// The order of texts is a total order with ties, for every collation (tables and settings together) whose tables meet
/// the conditions. Each text is equal to itself, swapped texts turn the order round, and what comes before one text
/// comes before all texts after it.
pub fn texts_are_ordered()
    ensures { TextsAreOrdered }
{}

/// Canonically equivalent texts (UAX #15) are one to the order and to the key, whatever the collation.
pub fn equivalent_texts_are_equal()
    ensures order { EquivalentTextsAreEqual }
    ensures key { EquivalentTextsHaveOneKey }
{}

/// The identical level determines the decomposed text (UTS #10, "Form Sort Keys" on the identical level; UAX #15): at
/// the strength Identical, texts are equal or have one key exactly if they are canonically equivalent.
pub fn identical_level_determines_texts()
    // The bytes of the level order as the decomposed texts do, U+FFFE lowest.
    ensures bytes { IdenticalLevelsKeepOrder }

    // The same bytes mean the same decomposed text.
    ensures same { IdenticalLevelsDetermineTexts }
    ensures order { IdenticalOrderDeterminesTexts }
    ensures key { IdenticalKeysDetermineTexts }
{}

/// Two texts that differ at a strength keep their order at each higher one, without a case level and with all other
/// settings the same (UTS #35 part 5, "Setting Options" on strength).
pub fn strength_keeps_order()
    ensures { StrengthKeepsOrder }
{}

/// Numbers order by value (UTS #35 part 5, "Setting Options" on numeric), by tables that meet the conditions, with at
/// most 254 digits after the first zeros of each.
pub fn number_texts_order_by_value()
    // A text of digits alone is read as one number.
    ensures digits { DigitTextsAreNumbers }

    // Two texts, each read as one number, are ordered by the values, at each strength below Identical.
    ensures value { NumberTextsOrderByValue }

    // Where the values differ, so they are at each strength.
    ensures different { DifferentNumbersOrderByValue }
{}

/// However many common weights stand together, keys stay short (UTS #10, "Run-Length Compression"). Whatever stands
/// before and after n of them, they add at most 1 + n / 33 bytes to the secondary level. They add at most 1 + n / 97 to
/// the tertiary level without case bits, and 1 + n / 113 to the quaternary level.
pub fn common_weights_add_few_bytes()
    ensures secondary { CommonSecondariesAddFew }
    ensures tertiary { CommonTertiariesAddFew }
    ensures quaternary { CommonQuaternariesAddFew }
{}

/// One key has the same bytes in every sink of `icu_key_writers`: where a call that writes a key (`WritesKey`) returned
/// `Ok`, a list holds what it held and then the key, and a slice the key at its front. So two such calls for one text
/// gave the same bytes.
pub fn sinks_hold_one_key<const N: usize>()
    ensures vector { HoldsKeyAfter ⟦<Vec<u8> as CollationKeySink>⟧.effects (λ v. v.items) }
    ensures inline { HoldsKeyAfter ⟦<SmallVec<u8, N> as CollationKeySink>⟧.effects (λ v. v.items) }
    ensures deque { HoldsKeyAfter ⟦<VecDeque<u8> as CollationKeySink>⟧.effects (λ v. v.items) }
    ensures slice { HoldsKeyInFront ⟦<&'static mut [u8] as CollationKeySink>⟧.effects (λ s. s.now) }
{}
