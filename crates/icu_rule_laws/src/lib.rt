//! Texts are read by the tables that rules make as the rules say: laws over the contract of `Tailoring::from_rules`.
#![tactic(auto)]

pub mod apart_elements;
pub mod mapped_texts;
pub mod related_texts;
pub mod tailored_texts;

ghost use Rattle.icu_rule_laws.specs.RuleTexts.{CommonDiacriticsArePlain, TextsAreReadByRules};

use icu_rule_root::CheckedRoot;
use icu_rule_weights::tailoring_numbers::elements_of_the_root_stay;

/// Accepted tables of rules are as `AreRuledTables` asks if neither they nor the root's have diacritics of their own.
pub fn common_diacritics_are_plain(root: &CheckedRoot<'_>)
    ensures { CommonDiacriticsArePlain root.now }
{
    let tables = root.tables();
    tables.are_well_formed();
    tailored_texts::diacritics_of_one_length_are_plain();
}

/// By the tables of `Tailoring::from_rules` over this root, where they are as `AreRuledTables` asks, each text has the
/// elements that it has by the mappings of the rules, with the numbers of their weights, but for elements without
/// weights. Digits are read as letters are.
pub fn texts_are_read_by_rules(root: &CheckedRoot<'_>)
    ensures { TextsAreReadByRules root.now }
{
    let tables = root.tables();
    tables.are_well_formed();
    elements_of_the_root_stay();
}
