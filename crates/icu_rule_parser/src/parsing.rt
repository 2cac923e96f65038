//! Rules, read.
ghost use Rattle.std.specs.Prelude.{◌≡◌, ◌<◌, ◌≤◌, ◌∷◌, true, false, length, map, chars, IfOk, IfErr};
ghost use Rattle.icu_rule_parser.specs.Statements.{MayFollow, SpellStatements};
ghost use Rattle.icu_rule_parser.specs.RulePlaces.{BeginOne, IsPlaced, IsPlacedFault};
ghost use Rattle.icu_rule_parser.specs.RuleCharacters.{BeginsNoBlank};
ghost use Rattle.icu_rule_parser.specs.TakenStatements.{TakesSign, TakesStatement, IsUnrelated, Relates};
ghost use Rattle.icu_rule_parser.specs.TakenFaults.{IsPart, IsOtherFault, IsFaultHere, IsFaultIn};

use crate::blanks::skip_blanks;
use crate::bracketed::read_bracketed;
use crate::chain::Chain;
use crate::first::split_first;
use crate::relations::{Sign, read_relation, read_sign};
use crate::resets::read_reset;
use crate::rules::{PlacedStatement, Rules};
use crate::rules_error::{RulesError, RulesErrorKind};
use crate::starred::{Allowance, read_starred};
use crate::statement::{RuleSetting, Statement};
use crate::unplaced_error::UnplacedError;
use std::alloc::{AllocError, Global};

/// The starred relation behind its sign, and what follows it.
fn read_starred_statement<'t>(
    alloc: Global,
    allowance: &mut Allowance,
    text: &[char],
    sign: Sign,
    after: &'t [char],
) -> Result<(Statement, &'t [char]), UnplacedError>
    requires sign { TakesSign text.now sign after.now }
    requires starred { sign.is_starred ≡ true }
    requires len { length after.now ≤ length text.now }
    ensures len { IfOk result (λ r. length r.1.now ≤ length after.now) }
    ensures relates { IfOk result (λ r. Relates sign.strength r.0) }
    ensures taken { IfOk result (λ r. TakesStatement text.now r.0 r.1.now) }
    ensures fault { IfErr result (λ e. IsPart BeginOne e text.now) }
{
    let (relation, rest) = read_starred(alloc, allowance, text, sign.strength, after)?;
    Ok((Statement::Starred(relation), rest))
}

/// The relation of strings behind its sign, and what follows it.
fn read_relation_statement<'t>(
    alloc: Global,
    text: &[char],
    sign: Sign,
    after: &'t [char],
) -> Result<(Statement, &'t [char]), UnplacedError>
    requires sign { TakesSign text.now sign after.now }
    requires plain { sign.is_starred ≡ false }
    requires len { length after.now ≤ length text.now }
    ensures len { IfOk result (λ r. length r.1.now ≤ length after.now) }
    ensures relates { IfOk result (λ r. Relates sign.strength r.0) }
    ensures taken { IfOk result (λ r. TakesStatement text.now r.0 r.1.now) }
    ensures fault { IfErr result (λ e. IsPart BeginOne e text.now) }
{
    let (relation, rest) = read_relation(alloc, text, sign.strength, after)?;
    Ok((Statement::Relation(relation), rest))
}

/// The relation behind its sign, and what follows it.
fn read_related<'t>(
    alloc: Global,
    allowance: &mut Allowance,
    text: &[char],
    sign: Sign,
    after: &'t [char],
) -> Result<(Statement, &'t [char]), UnplacedError>
    requires sign { TakesSign text.now sign after.now }
    requires len { length after.now ≤ length text.now }
    ensures len { IfOk result (λ r. length r.1.now ≤ length after.now) }
    ensures relates { IfOk result (λ r. Relates sign.strength r.0) }
    ensures taken { IfOk result (λ r. TakesStatement text.now r.0 r.1.now) }
    ensures fault { IfErr result (λ e. IsPart BeginOne e text.now) }
{
    if sign.is_starred {
        read_starred_statement(alloc, allowance, text, sign, after)
    } else {
        read_relation_statement(alloc, text, sign, after)
    }
}

/// The reset behind its `&`, and what follows it.
fn read_reset_statement<'t>(
    alloc: Global,
    text: &[char],
    after: &'t [char],
) -> Result<(Statement, &'t [char]), UnplacedError>
    requires { text.now ≡ 38 ∷ after.now }
    ensures len { IfOk result (λ r. length r.1.now ≤ length after.now) }
    ensures unrelated { IfOk result (λ r. IsUnrelated r.0) }
    ensures taken { IfOk result (λ r. TakesStatement text.now r.0 r.1.now) }
    ensures fault { IfErr result (λ e. IsPart BeginOne e text.now) }
{
    let (reset, rest) = read_reset(alloc, after)?;
    Ok((Statement::Reset(reset), rest))
}

/// The statement that a text begins with and that is no relation, and what follows it.
fn read_unrelated(alloc: Global, text: &[char]) -> Result<(Statement, &[char]), UnplacedError>
    ensures len { IfOk result (λ r. length r.1.now < length text.now) }
    ensures unrelated { IfOk result (λ r. IsUnrelated r.0) }
    ensures taken { IfOk result (λ r. TakesStatement text.now r.0 r.1.now) }
    ensures fault { IfErr result (λ e. IsOtherFault e text.now) }
{
    let Some((c, after)) = split_first(text) else {
        return Err(UnplacedError::at(text, RulesErrorKind::Statement));
    };
    match c {
        '&' => read_reset_statement(alloc, text, after),
        '[' => read_bracketed(alloc, text, after),
        '@' => Ok((Statement::Setting(RuleSetting::Backwards), after)),
        '!' => Ok((Statement::Setting(RuleSetting::VowelSign), after)),
        _ => Err(UnplacedError::at(text, RulesErrorKind::Statement)),
    }
}

/// The statement that a text begins with, and what follows it.
fn read_statement<'t>(
    alloc: Global,
    allowance: &mut Allowance,
    chain: Chain,
    before: &[char],
    text: &'t [char],
) -> Result<(Statement, &'t [char]), UnplacedError>
    requires visible { BeginsNoBlank text.now }
    requires some { 0 < length text.now }
    ensures len { IfOk result (λ r. length r.1.now < length text.now) }
    ensures taken { IfOk result (λ r. TakesStatement text.now r.0 r.1.now) }
    ensures fault { IfErr result (λ e. IsFaultHere e chain (length before.now) text.now) }
    ensures stands { IfOk result (λ r. MayFollow chain r.0) }
{
    match read_sign(text) {
        Some((sign, after)) => match chain.refusal(sign.strength) {
            Some(kind) => Err(UnplacedError::at(text, kind)),
            None => read_related(alloc, allowance, text, sign, after),
        },
        None if !chain.is_complete() => {
            Err(UnplacedError::at(before, RulesErrorKind::ResetWithoutRelation))
        }
        None => read_unrelated(alloc, text),
    }
}

/// The statements of a text.
fn read_statements(alloc: Global, text: &[char]) -> Result<Vec<PlacedStatement>, UnplacedError>
    ensures says { IfOk result (λ placed.
        SpellStatements (map (λ p. p.statement) placed.items) text.now) }
    ensures fault { IfErr result (λ e. IsFaultIn e text.now) }
{
    let mut statements = Vec::new(alloc);
    let mut allowance = Allowance::new();
    let mut chain = Chain::Outside;
    let mut before = text;
    let mut rest = skip_blanks(text);
    while !rest.is_empty() {
        let (statement, after) = read_statement(alloc, &mut allowance, chain, before, rest)?;
        chain = chain.after(&statement);
        before = rest;
        statements.push(PlacedStatement {
            place: text.len() - rest.len(),
            import: None,
            statement,
        })?;
        rest = skip_blanks(after);
    }
    if !chain.is_complete() {
        return Err(UnplacedError::at(before, RulesErrorKind::ResetWithoutRelation));
    }
    Ok(statements)
}

/// The characters of a text.
fn characters_of(alloc: Global, text: &str) -> Result<Vec<char>, AllocError>
    ensures { IfOk result (λ characters. characters.items ≡ chars text.now) }
{
    text.chars().collect(alloc)
}

impl Rules {
    /// Reads rules (UTS #35 part 5, "Collation Tailorings").
    ///
    /// Each statement has the place of its first character, and the text spells the statements. An error has the place
    /// of the first character of what is at fault, or, for a reset that no relation follows, that of the reset.
    pub fn parse(alloc: Global, text: &str) -> Result<Rules, RulesError>
        ensures says { IfOk result (λ rules.
            SpellStatements (map (λ p. p.statement) rules.statements.items) (chars text.now)) }
        ensures fault { IfErr result (λ error. IsPlacedFault error (chars text.now)) }
        ensures placed { IfErr result (λ error. IsPlaced error (length (chars text.now))) }
    {
        let characters = characters_of(alloc, text)?;
        match read_statements(alloc, characters.as_slice()) {
            Ok(statements) => Ok(Rules { statements }),
            Err(error) => Err(error.in_rules(characters.len())),
        }
    }
}
