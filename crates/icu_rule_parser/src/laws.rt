//! Laws of the grammar. Each is the contract of a function that does nothing.
ghost use Rattle.icu_rule_parser.specs.RuleLaws.{TextsSayOneThing};

/// A text says one thing at most: two lists of statements that it spells say the same, and have the same tokens.
pub fn texts_say_one_thing()
    ensures { TextsSayOneThing }
{}
