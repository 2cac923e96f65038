//! What words in brackets mean.
ghost use Rattle.std.specs.Prelude.{◌≡◌, ◌≢◌, ◌∷◌, [], map, codes, IfOk, IfErr, IfSome};
ghost use Rattle.icu_rule_parser.specs.RuleWords.{position_words, NamesPosition, level_word, case_level_word, case_first_word, numeric_word, max_variable_word, IsAlternateWord, switch_word};
ghost use Rattle.icu_rule_parser.specs.Statements.{AreSetting, setting_tokens};
ghost use Rattle.icu_rule_parser.specs.RulePlaces.{sort_of, of_part};

use crate::brackets::{is_word, only_word, split_words};
use crate::rules_error::RulesErrorKind;
use crate::statement::{LogicalPosition, RuleSetting};
use icu_options::{
    AlternateHandling, CaseLevel, CollationCaseFirst, CollationNumericOrdering, MaxVariable,
    Strength,
};

/// The level of a number.
fn level_of(word: &[char]) -> Option<Strength>
    ensures { IfSome result (λ level. word.now ≡ level_word level) }
{
    if is_word(word, b"1") {
        Some(Strength::Primary)
    } else if is_word(word, b"2") {
        Some(Strength::Secondary)
    } else if is_word(word, b"3") {
        Some(Strength::Tertiary)
    } else if is_word(word, b"4") {
        Some(Strength::Quaternary)
    } else if is_word(word, b"I") {
        Some(Strength::Identical)
    } else {
        None
    }
}

/// The level of `[before n]`.
pub(crate) fn before_level(word: &[char]) -> Option<Strength>
    ensures word { IfSome result (λ level. word.now ≡ level_word level) }
    ensures level { IfSome result (λ level.
        (level ≢ Strength.Quaternary) × (level ≢ Strength.Identical)) }
{
    match level_of(word)? {
        Strength::Quaternary | Strength::Identical => None,
        level => Some(level),
    }
}

/// The position behind `first` that has two words.
fn first_position(what: &[char]) -> Option<LogicalPosition>
    ensures { IfSome result (λ p. position_words p ≡ codes "first" ∷ what.now ∷ []) }
{
    if is_word(what, b"variable") {
        Some(LogicalPosition::FirstVariable)
    } else if is_word(what, b"regular") {
        Some(LogicalPosition::FirstRegular)
    } else if is_word(what, b"implicit") {
        Some(LogicalPosition::FirstImplicit)
    } else if is_word(what, b"trailing") {
        Some(LogicalPosition::FirstTrailing)
    } else {
        None
    }
}

/// The position behind `last` that has two words.
fn last_position(what: &[char]) -> Option<LogicalPosition>
    ensures { IfSome result (λ p. position_words p ≡ codes "last" ∷ what.now ∷ []) }
{
    if is_word(what, b"variable") {
        Some(LogicalPosition::LastVariable)
    } else if is_word(what, b"regular") {
        Some(LogicalPosition::LastRegular)
    } else if is_word(what, b"implicit") {
        Some(LogicalPosition::LastImplicit)
    } else if is_word(what, b"trailing") {
        Some(LogicalPosition::LastTrailing)
    } else {
        None
    }
}

/// The first ignorable of a level.
fn first_ignorable(level: &[char]) -> Option<LogicalPosition>
    ensures { IfSome result (λ p.
        position_words p ≡ codes "first" ∷ level.now ∷ codes "ignorable" ∷ []) }
{
    if is_word(level, b"primary") {
        Some(LogicalPosition::FirstPrimaryIgnorable)
    } else if is_word(level, b"secondary") {
        Some(LogicalPosition::FirstSecondaryIgnorable)
    } else if is_word(level, b"tertiary") {
        Some(LogicalPosition::FirstTertiaryIgnorable)
    } else {
        None
    }
}

/// The last ignorable of a level.
fn last_ignorable(level: &[char]) -> Option<LogicalPosition>
    ensures { IfSome result (λ p.
        position_words p ≡ codes "last" ∷ level.now ∷ codes "ignorable" ∷ []) }
{
    if is_word(level, b"primary") {
        Some(LogicalPosition::LastPrimaryIgnorable)
    } else if is_word(level, b"secondary") {
        Some(LogicalPosition::LastSecondaryIgnorable)
    } else if is_word(level, b"tertiary") {
        Some(LogicalPosition::LastTertiaryIgnorable)
    } else {
        None
    }
}

/// The position that two words name.
fn two_words(end: &[char], what: &[char]) -> Option<LogicalPosition>
    ensures { IfSome result (λ p. NamesPosition p (end.now ∷ what.now ∷ [])) }
{
    if is_word(end, b"first") {
        first_position(what)
    } else if is_word(end, b"last") {
        last_position(what)
    } else if is_word(end, b"variable") && is_word(what, b"top") {
        Some(LogicalPosition::LastVariable)
    } else {
        None
    }
}

/// The position that three words name.
fn three_words(end: &[char], level: &[char], what: &[char]) -> Option<LogicalPosition>
    ensures { IfSome result (λ p. NamesPosition p (end.now ∷ level.now ∷ what.now ∷ [])) }
{
    if !is_word(what, b"ignorable") {
        None
    } else if is_word(end, b"first") {
        first_ignorable(level)
    } else if is_word(end, b"last") {
        last_ignorable(level)
    } else {
        None
    }
}

/// The position that words name.
pub(crate) fn position_of(words: &[&[char]]) -> Option<LogicalPosition>
    ensures { IfSome result (λ p. NamesPosition p (map (λ word. word.now) words.now)) }
{
    let (first, rest) = split_words(words)?;
    let Some((second, rest)) = split_words(rest) else {
        return if is_word(first, b"top") {
            Some(LogicalPosition::LastRegular)
        } else {
            None
        };
    };
    if rest.is_empty() {
        return two_words(first, second);
    }
    three_words(first, second, only_word(rest)?)
}

/// The handling of variable elements by its word.
fn alternate_of(word: &[char]) -> Option<AlternateHandling>
    ensures { IfSome result (λ handling. IsAlternateWord handling word.now) }
{
    if is_word(word, b"non-ignorable") {
        Some(AlternateHandling::NonIgnorable)
    } else if is_word(word, b"shifted") {
        Some(AlternateHandling::Shifted)
    } else {
        None
    }
}

/// The last variable group by its word.
fn max_variable_of(word: &[char]) -> Option<MaxVariable>
    ensures { IfSome result (λ group. word.now ≡ max_variable_word group) }
{
    if is_word(word, b"space") {
        Some(MaxVariable::Space)
    } else if is_word(word, b"punct") {
        Some(MaxVariable::Punctuation)
    } else if is_word(word, b"symbol") {
        Some(MaxVariable::Symbol)
    } else if is_word(word, b"currency") {
        Some(MaxVariable::Currency)
    } else {
        None
    }
}

/// Which case is first, by its word.
fn case_first_of(word: &[char]) -> Option<CollationCaseFirst>
    ensures { IfSome result (λ first. word.now ≡ case_first_word first) }
{
    if is_word(word, b"off") {
        Some(CollationCaseFirst::False)
    } else if is_word(word, b"lower") {
        Some(CollationCaseFirst::Lower)
    } else if is_word(word, b"upper") {
        Some(CollationCaseFirst::Upper)
    } else {
        None
    }
}

/// `on` or `off`.
fn switch_of(word: &[char]) -> Option<bool>
    ensures { IfSome result (λ is_on. word.now ≡ switch_word is_on) }
{
    if is_word(word, b"on") {
        Some(true)
    } else if is_word(word, b"off") {
        Some(false)
    } else {
        None
    }
}

/// The case level by its word.
fn case_level_of(word: &[char]) -> Option<CaseLevel>
    ensures { IfSome result (λ level. word.now ≡ case_level_word level) }
{
    match switch_of(word)? {
        true => Some(CaseLevel::On),
        false => Some(CaseLevel::Off),
    }
}

/// The order of numbers by its word.
fn numeric_of(word: &[char]) -> Option<CollationNumericOrdering>
    ensures { IfSome result (λ ordering. word.now ≡ numeric_word ordering) }
{
    match switch_of(word)? {
        true => Some(CollationNumericOrdering::True),
        false => Some(CollationNumericOrdering::False),
    }
}

/// The setting of this name and value, if it is one of those that say how elements are weighted.
fn weighting_setting(name: &[char], value: &[char]) -> Result<Option<RuleSetting>, RulesErrorKind>
    ensures says { IfOk result (λ o. IfSome o (λ s.
        AreSetting s (setting_tokens name.now value.now))) }
    ensures part { IfErr result (λ kind. sort_of kind ≡ of_part) }
{
    let unknown = RulesErrorKind::UnknownValue;
    if is_word(name, b"strength") {
        let level = level_of(value).ok_or(unknown)?;
        Ok(Some(RuleSetting::Strength(level)))
    } else if is_word(name, b"alternate") {
        let handling = alternate_of(value).ok_or(unknown)?;
        Ok(Some(RuleSetting::Alternate(handling)))
    } else if is_word(name, b"maxVariable") {
        let group = max_variable_of(value).ok_or(unknown)?;
        Ok(Some(RuleSetting::MaxVariable(group)))
    } else if is_word(name, b"caseFirst") {
        let first = case_first_of(value).ok_or(unknown)?;
        Ok(Some(RuleSetting::CaseFirst(first)))
    } else if is_word(name, b"caseLevel") {
        let level = case_level_of(value).ok_or(unknown)?;
        Ok(Some(RuleSetting::CaseLevel(level)))
    } else {
        Ok(None)
    }
}

/// The setting of this name and value, if it is one of the others.
fn other_setting(name: &[char], value: &[char]) -> Result<RuleSetting, RulesErrorKind>
    ensures says { IfOk result (λ s. AreSetting s (setting_tokens name.now value.now)) }
    ensures part { IfErr result (λ kind. sort_of kind ≡ of_part) }
{
    let unknown = RulesErrorKind::UnknownValue;
    if is_word(name, b"numericOrdering") {
        let ordering = numeric_of(value).ok_or(unknown)?;
        Ok(RuleSetting::NumericOrdering(ordering))
    } else if is_word(name, b"normalization") {
        let is_on = switch_of(value).ok_or(unknown)?;
        Ok(RuleSetting::Normalization(is_on))
    } else if is_word(name, b"backwards") {
        if is_word(value, b"2") {
            Ok(RuleSetting::Backwards)
        } else {
            Err(unknown)
        }
    } else if is_word(name, b"hiraganaQ") {
        if is_word(value, b"off") {
            Ok(RuleSetting::HiraganaQuaternaryOff)
        } else {
            Err(unknown)
        }
    } else {
        Err(RulesErrorKind::UnknownSetting)
    }
}

/// The setting of a name and a value.
pub(crate) fn setting_of(name: &[char], value: &[char]) -> Result<RuleSetting, RulesErrorKind>
    ensures says { IfOk result (λ s. AreSetting s (setting_tokens name.now value.now)) }
    ensures part { IfErr result (λ kind. sort_of kind ≡ of_part) }
{
    match weighting_setting(name, value)? {
        Some(setting) => Ok(setting),
        None => other_setting(name, value),
    }
}
