//! Texts that a relation of rules relates order as it says, by a collation of the tables of these rules: from weights
//! of elements to the order of texts, by plain settings (UTS #35 part 5, "Collation Tailorings").
ghost use Rattle.icu_rule_laws.specs.related_texts.PlainOrders.{NoTextHasVariable, RelatedTextsOrder, SameTextsTie};
ghost use Rattle.icu_rule_laws.specs.related_texts.RelationOrders.{ApartRelationsOrder, BeforeRelationsOrder, HeldRelationsOrder, IdentitiesOrder, RelationsOrder, RulesKeepScripts};
ghost use Rattle.icu_rule_laws.specs.related_texts.SwedishLetters.{SwedishLettersOrder};

use crate::texts_are_read_by_rules;
use icu_rule_meaning::{relations_hold, untouched_texts_keep_elements};
use icu_rule_root::CheckedRoot;
use icu_rule_weights::tailoring_numbers::numbered_elements_keep_order;

/// If variable elements are handled as all others are, no text has one.
pub fn no_text_has_variable()
    ensures { NoTextHasVariable }
{}

/// Of texts whose elements have the same weights before a level up to the tertiary one, and lesser ones at it in the
/// first. By plain settings the first is Less by each strength that has the level, and else both are Equal.
pub fn related_texts_order()
    ensures { RelatedTextsOrder }
{}

/// By plain settings texts whose elements have the same weights at each level of a strength up to the tertiary one are
/// Equal.
pub fn same_texts_tie()
    ensures { SameTextsTie }
{}

/// By each collation of the tables of `Tailoring::from_rules` over this root, and plain settings, two texts that stand
/// in a chain of relations order by its level, be they starred, or with a prefix or an extension.
pub fn relations_order(root: &CheckedRoot<'_>)
    ensures { RelationsOrder root.now }
{
    texts_are_read_by_rules(root);
    relations_hold();
    numbered_elements_keep_order();
}

/// By each collation of these tables, two texts that stand in a chain of relations are one apart at its level, if the
/// relations of that level differ from elements that count there. It holds at each of the four levels, backward, with
/// scripts reordered, and beside variable elements.
pub fn apart_relations_order(root: &CheckedRoot<'_>)
    ensures { ApartRelationsOrder root.now }
{
    texts_are_read_by_rules(root);
    numbered_elements_keep_order();
}

/// By each collation of these tables, what a relation puts right after `[before n]`, at this level, comes before the
/// place of the reset.
pub fn before_relations_order(root: &CheckedRoot<'_>)
    ensures { BeforeRelationsOrder root.now }
{
    texts_are_read_by_rules(root);
    numbered_elements_keep_order();
}

/// By each collation of these tables, without a case level and case first, two texts that `=` relates are Equal by each
/// strength but the identical one, which compares their characters.
pub fn identities_order(root: &CheckedRoot<'_>)
    ensures { IdentitiesOrder root.now }
{
    texts_are_read_by_rules(root);
}

/// By each collation of these tables the two strings of a relation that no later rule moves order as it says. Whether
/// it is such a relation, `relation_holds` of icu_rule_steps says.
pub fn held_relations_order(root: &CheckedRoot<'_>)
    ensures { HeldRelationsOrder root.now }
{
    relations_order(root);
    identities_order(root);
}

/// By rules without `[reorder ..]` scripts stand in the order of the tables.
pub fn rules_keep_scripts(root: &CheckedRoot<'_>)
    ensures { RulesKeepScripts root.now }
{}

/// By each collation of tables of the rules `&z<å<<<Å<ä<<<Ä<ö<<<Ö` over this root, and plain settings, å comes after z,
/// ä after å and ö after ä, and a capital letter differs from the small one by case alone.
pub fn swedish_letters_order(root: &CheckedRoot<'_>)
    ensures { SwedishLettersOrder root.now }
{
    relations_order(root);
    rules_keep_scripts(root);
    untouched_texts_keep_elements();
}
