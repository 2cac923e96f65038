//! The order that rules make doesn't depend on which numbers tailored weights get (UTS #35 part 5, "Collation
//! Tailorings"): a law over the definitions of `icu_rule_meaning`.
ghost use Rattle.icu_rule_meaning.specs.numbering_laws.NumberingLaws.{NumberingsOrderAlike};

/// Two numberings of one tree of weights put elements in one order, up to the tertiary level: the first of the levels
/// at which two lists of elements differ is the same, and so is which list is less there. So the order of texts is a
/// function of the rules and the root.
pub fn numberings_order_alike()
    ensures { NumberingsOrderAlike }
{}
