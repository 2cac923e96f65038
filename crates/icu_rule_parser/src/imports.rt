//! Imports, replaced by the statements of other rules.
ghost use Rattle.std.specs.Prelude.{◌≡◌, ◌++◌, ⊤, ℕ, List, map, chars, IsTrue, IfOk, IfNone, IfSome, OnOk};
ghost use Rattle.std.specs.List.{list_all};
ghost use Rattle.icu_rule_parser.specs.Statements.{SpellStatements};
ghost use Rattle.icu_rule_parser.specs.Imports.{is_import, has_no_import, led_by, outermost, AddsStated, Resolve, ResolveAs};

use crate::rules::{PlacedStatement, Rules};
use crate::rules_error::{RulesError, RulesErrorKind};
use crate::statement::Statement;
use std::alloc::Global;

/// How deep imports may be nested.
const DEPTH: u32 = 8;

/// How many imports there may be in all, those of imported rules too.
const IMPORTS: u32 = 256;

/// Where imported rules come from.
pub trait RuleSource {
    /// Which tag may have which rules, both as bytes. It may be left out, and says nothing then.
    ghost has: { Self → List ℕ → List ℕ → Type 0 } = { λ _ _ _. ⊤ };

    /// The rules of a tag, such as `de-u-co-phonebk`.
    fn rules(&self, tag: &str) -> Option<&str>
        ensures { IfSome result (λ rules. has self.now tag.now rules.now) };
}

/// Whether a statement is an import.
fn is_import(statement: &Statement) -> bool
    ensures { result ≡ is_import statement.now }
{
    match statement {
        Statement::Import(_) => true,
        Statement::Reset(_)
        | Statement::Relation(_)
        | Statement::Starred(_)
        | Statement::Setting(_) => false,
    }
}

/// The error, as of an import at this place.
fn error_led_by(error: RulesError, led: usize) -> RulesError {
    match error {
        RulesError::NoMemory => RulesError::NoMemory,
        RulesError::Refused { place, kind, .. } => RulesError::Refused {
            place,
            import: Some(led),
            kind,
        },
    }
}

/// An import: its place, and the place of the import that led to it.
#[derive(Clone, Copy)]
struct ImportPlace {
    place: usize,
    import: Option<usize>,
}

impl ImportPlace {
    /// The error at the import.
    fn error(self, kind: RulesErrorKind) -> RulesError {
        RulesError::Refused {
            place: self.place,
            import: self.import,
            kind,
        }
    }

    /// The place of the import in the rules that were asked for.
    fn outermost(self) -> usize
        ensures { result ≡ outermost self.place self.import }
    {
        match self.import {
            Some(place) => place,
            None => self.place,
        }
    }
}

/// Adds statements, as of an import at this place.
fn add_led(
    led: usize,
    added: Vec<PlacedStatement>,
    statements: &mut Vec<PlacedStatement>,
) -> Result<(), RulesError>
    ensures { OnOk result (statements.new.items
        ≡ statements.old.items ++ map (led_by led) added.items) }
{
    for placed in added {
        statements.push(PlacedStatement {
            place: placed.place,
            import: Some(led),
            statement: placed.statement,
        })?;
    }
    Ok(())
}

/// The rules of a tag, with the place of the import in errors.
fn imported<S: RuleSource>(
    alloc: Global,
    source: &S,
    at: ImportPlace,
    tag: &str,
) -> Result<Rules, RulesError>
    ensures { IfOk result (λ rules. (text : List ℕ) × S.has source.now tag.now text
        × SpellStatements (map (λ p. p.statement) rules.statements.items) (chars text)) }
{
    let Some(text) = source.rules(tag) else {
        return Err(at.error(RulesErrorKind::UnknownRules));
    };
    match Rules::parse(alloc, text) {
        Ok(rules) => Ok(rules),
        Err(error) => Err(error_led_by(error, at.outermost())),
    }
}

/// Adds a statement, or, if it is an import, those of its tag. Imports may be as many as are allowed.
fn add_stated<S: RuleSource>(
    alloc: Global,
    source: &S,
    placed: PlacedStatement,
    allowed: &mut u32,
    statements: &mut Vec<PlacedStatement>,
) -> Result<(), RulesError>
    ensures { OnOk result (AddsStated (S.has source.now) placed
        statements.old.items statements.new.items) }
{
    let PlacedStatement {
        place,
        import,
        statement,
    } = placed;
    let at = ImportPlace { place, import };
    match statement {
        Statement::Import(tag) => {
            if *allowed == 0 {
                return Err(at.error(RulesErrorKind::ManyImports));
            }
            *allowed -= 1;
            let rules = imported(alloc, source, at, tag.as_str())?;
            add_led(at.outermost(), rules.statements, statements)
        }
        statement => {
            statements.push(PlacedStatement {
                place,
                import,
                statement,
            })?;
            Ok(())
        }
    }
}

/// The statements with each import replaced by those of its tag, which may be imports again.
fn replaced<S: RuleSource>(
    alloc: Global,
    source: &S,
    statements: Vec<PlacedStatement>,
    allowed: &mut u32,
) -> Result<Vec<PlacedStatement>, RulesError>
    ensures { IfOk result (λ all. ResolveAs (S.has source.now) statements.items all.items) }
{
    let mut all = Vec::new(alloc);
    for placed in statements {
        add_stated(alloc, source, placed, allowed, &mut all)?;
    }
    Ok(all)
}

/// The first import, if there is one.
fn first_import(statements: &[PlacedStatement]) -> Option<ImportPlace>
    ensures { IfNone result (IsTrue (list_all has_no_import statements.now)) }
{
    for placed in statements {
        if is_import(&placed.statement) {
            return Some(ImportPlace {
                place: placed.place,
                import: placed.import,
            });
        }
    }
    None
}

impl Rules {
    /// Replaces each import by the statements of its tag (UTS #35 part 5, "Collation Tailorings").
    ///
    /// What is returned are the statements, in turn, with those of its rules in place of each import, and so on. Each
    /// keeps its place in its own rules, and has that of the import, in the rules that were asked for, which led to it.
    /// An import that leads back to its own rules is refused, as is one that is nested deeper than 8 imports, or more
    /// than 256 imports in all.
    pub fn resolve<S: RuleSource>(self, alloc: Global, source: &S) -> Result<Rules, RulesError>
        ensures none_left { IfOk result (λ rules.
            IsTrue (list_all has_no_import rules.statements.items)) }
        ensures resolved { IfOk result (λ rules.
            Resolve (S.has source.now) self.statements.items rules.statements.items) }
    {
        let Rules { mut statements } = self;
        let mut allowed = IMPORTS;
        for _ in 0..DEPTH {
            statements = replaced(alloc, source, statements, &mut allowed)?;
        }
        match first_import(statements.as_slice()) {
            Some(at) => Err(at.error(RulesErrorKind::DeepImport)),
            None => Ok(Rules { statements }),
        }
    }
}
