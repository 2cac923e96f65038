//! What rules say, while tailored weights have no numbers.
use crate::decomposing::decomposed;
use crate::faults::{
    MOST_MAPPINGS, are_too_many, before_fault, difference_fault, is_reserved_position, scalar_of,
    string_fault,
};
use crate::relation_counts::refuse_too_many;
use crate::rule_step_error::RuleStepError;
use crate::symbolic_mappings::{Mappings, RootMappings, cased_elements};
use crate::tailoring_error::{TailoringError, TailoringErrorKind};
use icu_options::Strength;
use icu_rule_meaning::SymbolicElement;
use icu_rule_meaning::weight_tree::{
    RootWeights, RuleElements, WeightTreeBuilder, position_element,
};
use icu_rule_parser::{
    Anchor, CharacterRange, LogicalPosition, PlacedStatement, Relation, Reset, RuleSetting, Rules,
    StarredRelation, Statement,
};
use std::alloc::{AllocError, Global};

/// What rules say: the order of weights, which have no numbers yet, the mappings of characters, and settings (UTS #35
/// part 5, "Collation Tailorings").
#[derive(Drop)]
pub struct SymbolicTailoring<'r, R> {
    rule: RuleElements,
    mappings: Mappings<'r, R>,
    settings: Vec<&'r RuleSetting>,
}

impl<'r, R: RootWeights + RootMappings> SymbolicTailoring<'r, R> {
    ghost use Rattle.std.specs.Prelude.{◌≡◌, ◌++◌, ◌⊎◌, [], ◌∷◌, false, nat_lt, None, Some, map, reverse, IfOk, IfErr, OnOk};
    ghost use Rattle.icu_rule_meaning.specs.Rules.{at_position, at_string, characters_of, lone_relation, place_of_anchor, relation, reset, rules_of, setting_rules, starred_rules, statement_rules};
    ghost use Rattle.icu_rule_meaning.specs.Steps.{before_level, before_step, case_step, first_state, mapping_step, place_elements, strength_step, suppression_step, tailoring_of};
    ghost use Rattle.icu_rule_meaning.specs.weight_tree.RuleStates.{with_elements};
    ghost use Rattle.icu_rule_meaning.specs.weight_tree.TreeBuilders.{tree_of};
    ghost use Rattle.icu_rule_steps.specs.symbolic_mappings.KeptMappings.{count_with, mappings_in};
    ghost use Rattle.icu_rule_steps.specs.symbolic_mappings.TouchedCharacters.{HasTouched, TouchesByRule, TouchesByRules, TouchesMore};
    ghost use Rattle.icu_rule_meaning.specs.RootLaws.{string_begins};
    ghost use Rattle.icu_rule_meaning.specs.TailoredRoots.{Root};
    ghost use Rattle.icu_rule_meaning.specs.TailoredMappings.{symbolic_elements};
    ghost use Rattle.unicode_normalization.specs.Forms.{nfd};
    ghost use Rattle.icu_rule_steps.specs.ReadRules.{IsError, IsReason, ReadsRule, ReadsRules, decomposed_step, maybe_before, rule_of_relation};
    ghost use Rattle.icu_rule_steps.specs.RuleFaults.{decomposed_fault, first_error, first_fault, maybe_before_fault, place_fault, rule_fault};
    ghost use Rattle.icu_rule_steps.specs.SymbolicTailorings.{kept_mappings, root_in, state_in};

    /// What no rules say: nothing but the root.
    pub(crate) fn new(alloc: Global, root: &'r R) -> Self
        ensures state { state_in R.mappings_of result
            ≡ first_state (root_in R.root R.mappings_of root.now) }
        ensures touched { HasTouched root.now [] (kept_mappings result) }
    {
        SymbolicTailoring {
            rule: RuleElements::new(alloc),
            mappings: Mappings::new(alloc, root),
            settings: Vec::new(alloc),
        }
    }

    /// The elements of a string, or why they are refused.
    fn string_elements(
        &self,
        alloc: Global,
        string: &[char],
    ) -> Result<Vec<SymbolicElement>, RuleStepError>
        ensures ok { IfOk result (λ es. es.items
            ≡ symbolic_elements (state_in R.mappings_of self.now).mappings (nfd string.now)) }
        ensures sound { IfOk result (λ _.
            place_fault (state_in R.mappings_of self.now) (at_string string.now) ≡ None) }
        ensures err { IfErr result (IsReason
            (place_fault (state_in R.mappings_of self.now) (at_string string.now))) }
    {
        let string = decomposed(alloc, string)?;
        let elements = self.mappings.symbolic_elements(alloc, string)?;
        if are_too_many(elements.as_slice(), &[]) {
            return Err(RuleStepError::Refused(TailoringErrorKind::TooManyElements));
        }
        Ok(elements)
    }

    /// The elements of a position, or why it is refused.
    fn position_elements(
        &self,
        alloc: Global,
        root: &R,
        position: LogicalPosition,
    ) -> Result<Vec<SymbolicElement>, RuleStepError>
        ensures ok { IfOk result (λ es. es.items
            ≡ place_elements (root_in R.root R.mappings_of root.now)
            (state_in R.mappings_of self.now) (at_position position)) }
        ensures sound { IfOk result (λ _.
            place_fault (state_in R.mappings_of self.now) (at_position position) ≡ None) }
        ensures err { IfErr result (IsReason
            (place_fault (state_in R.mappings_of self.now) (at_position position))) }
    {
        if is_reserved_position(position) {
            return Err(RuleStepError::Refused(TailoringErrorKind::Position));
        }
        let mut elements = Vec::new(alloc);
        elements.push(position_element(root, self.rule.tree(), position))?;
        Ok(elements)
    }

    /// The elements of the place of a reset, or why it is refused.
    fn anchor_elements(
        &self,
        alloc: Global,
        root: &R,
        anchor: &Anchor,
    ) -> Result<Vec<SymbolicElement>, RuleStepError>
        ensures ok { IfOk result (λ es. es.items
            ≡ place_elements (root_in R.root R.mappings_of root.now)
            (state_in R.mappings_of self.now) (place_of_anchor anchor.now)) }
        ensures sound { IfOk result (λ _.
            place_fault (state_in R.mappings_of self.now) (place_of_anchor anchor.now) ≡ None) }
        ensures err { IfErr result (IsReason
            (place_fault (state_in R.mappings_of self.now) (place_of_anchor anchor.now))) }
    {
        match anchor {
            Anchor::String(string) => self.string_elements(alloc, string.as_slice()),
            Anchor::Position(position) => self.position_elements(alloc, root, *position),
        }
    }

    /// Takes elements, as those of the place of a reset.
    fn set_elements(&mut self, elements: Vec<SymbolicElement>)
        ensures state { state_in R.mappings_of self.new
            ≡ with_elements (state_in R.mappings_of self.old) elements.items }
        ensures kept { kept_mappings self.new ≡ kept_mappings self.old }
    {
        self.rule.set_elements(elements);
    }

    /// Goes before the elements of a reset, where it says so, or says why it is refused.
    fn go_before(&mut self, root: &R, before: Option<Strength>) -> Result<(), RuleStepError>
        ensures ok { OnOk result (state_in R.mappings_of self.new
            ≡ maybe_before (root_in R.root R.mappings_of root.now) before
            (state_in R.mappings_of self.old)) }
        ensures sound { OnOk result (maybe_before_fault
            (root_in R.root R.mappings_of root.now) before
            (state_in R.mappings_of self.old).elements ≡ None) }
        ensures err { IfErr result (IsReason (maybe_before_fault
            (root_in R.root R.mappings_of root.now) before
            (state_in R.mappings_of self.old).elements)) }
        ensures kept { kept_mappings self.new ≡ kept_mappings self.old }
    {
        let Some(strength) = before else {
            return Ok(());
        };
        if let Some(kind) = before_fault(root, strength, self.rule.elements()) {
            return Err(RuleStepError::Refused(kind));
        }
        self.rule.go_before_by(root, strength)?;
        Ok(())
    }

    /// Reads a reset.
    fn read_reset(&mut self, alloc: Global, root: &R, said: &Reset) -> Result<(), RuleStepError>
        ensures ok { OnOk result (ReadsRule (root_in R.root R.mappings_of root.now)
            (reset said.now.before (place_of_anchor said.now.anchor))
            (state_in R.mappings_of self.old) (state_in R.mappings_of self.new)) }
        ensures err { IfErr result (IsReason (rule_fault (root_in R.root R.mappings_of root.now)
            (state_in R.mappings_of self.old)
            (reset said.now.before (place_of_anchor said.now.anchor)))) }
        ensures touched { OnOk result
            (TouchesByRule (reset said.now.before (place_of_anchor said.now.anchor))
            (kept_mappings self.old) (kept_mappings self.new)) }
    {
        let elements = self.anchor_elements(alloc, root, &said.anchor)?;
        self.set_elements(elements);
        self.go_before(root, said.before)?;
        Ok(())
    }

    /// Makes a difference.
    fn differ(&mut self, strength: Strength) -> Result<(), AllocError>
        ensures state { OnOk result (state_in R.mappings_of self.new
            ≡ strength_step strength (state_in R.mappings_of self.old)) }
        ensures kept { kept_mappings self.new ≡ kept_mappings self.old }
    {
        self.rule.differ_by(strength)
    }

    /// Gives the elements the case of a decomposed string.
    fn take_case(&mut self, alloc: Global, root: &'r R, string: &[char]) -> Result<(), AllocError>
        ensures state { OnOk result (state_in R.mappings_of self.new
            ≡ case_step (root_in R.root R.mappings_of root.now) string.now
            (state_in R.mappings_of self.old)) }
        ensures kept { kept_mappings self.new ≡ kept_mappings self.old }
    {
        let in_root = Mappings::new(alloc, root);
        let string = Vec::from_slice(alloc, string)?;
        let of_string = in_root.symbolic_elements(alloc, string)?;
        let cased = cased_elements(alloc, of_string.as_slice(), self.rule.elements())?;
        self.set_elements(cased);
        Ok(())
    }

    /// A decomposed string behind a decomposed prefix has the elements from here on, with those of an extension behind
    /// them. Returns how many mappings the first character of the string has then.
    fn put_mapping(
        &mut self,
        alloc: Global,
        prefix: &[char],
        string: &[char],
        extension: &[SymbolicElement],
    ) -> Result<usize, AllocError>
        ensures state { OnOk result (state_in R.mappings_of self.new
            ≡ mapping_step prefix.now string.now
            ((state_in R.mappings_of self.old).elements ++ extension.now)
            (state_in R.mappings_of self.old)) }
        ensures touched { OnOk result (TouchesMore (λ c. string_begins c string.now) []
            (kept_mappings self.old) (kept_mappings self.new)) }
        ensures count { IfOk result (λ n. n ≡ count_with prefix.now string.now
            (state_in R.mappings_of self.old).mappings) }
    {
        let mut whole = Vec::from_slice(alloc, self.rule.elements())?;
        whole.extend_from_slice(extension)?;
        self.mappings.mapping_step(alloc, prefix, string, whole)
    }

    /// Relates a string, decomposed, to the rule before.
    fn relate_decomposed(
        &mut self,
        alloc: Global,
        root: &'r R,
        strength: Strength,
        prefix: &[char],
        string: &[char],
        extension: Vec<char>,
    ) -> Result<(), RuleStepError>
        ensures ok { OnOk result (state_in R.mappings_of self.new
            ≡ decomposed_step (root_in R.root R.mappings_of root.now) strength prefix.now string.now
            extension.items (state_in R.mappings_of self.old)) }
        ensures sound { OnOk result (decomposed_fault strength prefix.now string.now extension.items
            (state_in R.mappings_of self.old) ≡ None) }
        ensures err { IfErr result (IsReason (decomposed_fault strength prefix.now string.now
            extension.items (state_in R.mappings_of self.old))) }
        ensures touched { OnOk result (TouchesMore (λ c. string_begins c string.now) []
            (kept_mappings self.old) (kept_mappings self.new)) }
    {
        if let Some(kind) = string_fault(prefix, string) {
            return Err(RuleStepError::Refused(kind));
        }
        if let Some(kind) = difference_fault(strength, self.rule.elements()) {
            return Err(RuleStepError::Refused(kind));
        }
        let extension = self.mappings.symbolic_elements(alloc, extension)?;
        self.differ(strength)?;
        if are_too_many(self.rule.elements(), extension.as_slice()) {
            return Err(RuleStepError::Refused(TailoringErrorKind::TooManyElements));
        }
        self.take_case(alloc, root, string)?;
        let count = self.put_mapping(alloc, prefix, string, extension.as_slice())?;
        if MOST_MAPPINGS < count {
            return Err(RuleStepError::Refused(TailoringErrorKind::TooManyMappings));
        }
        Ok(())
    }

    /// Relates a string to the rule before.
    fn relate(
        &mut self,
        alloc: Global,
        root: &'r R,
        strength: Strength,
        prefix: &[char],
        string: &[char],
        extension: &[char],
    ) -> Result<(), RuleStepError>
        ensures ok { OnOk result (ReadsRule (root_in R.root R.mappings_of root.now)
            (relation strength prefix.now string.now extension.now)
            (state_in R.mappings_of self.old) (state_in R.mappings_of self.new)) }
        ensures err { IfErr result (IsReason (rule_fault (root_in R.root R.mappings_of root.now)
            (state_in R.mappings_of self.old)
            (relation strength prefix.now string.now extension.now))) }
        ensures touched { OnOk result
            (TouchesByRule (relation strength prefix.now string.now extension.now)
            (kept_mappings self.old) (kept_mappings self.new)) }
    {
        let prefix = decomposed(alloc, prefix)?;
        let string = decomposed(alloc, string)?;
        let extension = decomposed(alloc, extension)?;
        self.relate_decomposed(
            alloc,
            root,
            strength,
            prefix.as_slice(),
            string.as_slice(),
            extension,
        )?;
        Ok(())
    }

    /// Reads a relation of strings.
    fn read_relation(
        &mut self,
        alloc: Global,
        root: &'r R,
        said: &Relation,
    ) -> Result<(), RuleStepError>
        ensures ok { OnOk result (ReadsRule (root_in R.root R.mappings_of root.now)
            (rule_of_relation said.now)
            (state_in R.mappings_of self.old) (state_in R.mappings_of self.new)) }
        ensures err { IfErr result (IsReason (rule_fault (root_in R.root R.mappings_of root.now)
            (state_in R.mappings_of self.old) (rule_of_relation said.now))) }
        ensures touched { OnOk result (TouchesByRule (rule_of_relation said.now)
            (kept_mappings self.old) (kept_mappings self.new)) }
    {
        self.relate(
            alloc,
            root,
            said.strength,
            said.prefix.as_slice(),
            said.string.as_slice(),
            said.extension.as_slice(),
        )
    }

    /// Relates each character of a range in turn.
    fn relate_range(
        &mut self,
        alloc: Global,
        root: &'r R,
        strength: Strength,
        range: CharacterRange,
    ) -> Result<(), RuleStepError>
        ensures ok { OnOk result (ReadsRules (root_in R.root R.mappings_of root.now)
            (map (lone_relation strength) (characters_of range))
            (state_in R.mappings_of self.old) (state_in R.mappings_of self.new)) }
        ensures err { IfErr result (IsReason (first_fault (root_in R.root R.mappings_of root.now)
            (state_in R.mappings_of self.old)
            (map (lone_relation strength) (characters_of range)))) }
        ensures touched { OnOk result
            (TouchesByRules (map (lone_relation strength) (characters_of range))
            (kept_mappings self.old) (kept_mappings self.new)) }
    {
        for code in u32::from(range.first)..u32::from(range.last) + 1 {
            if let Some(c) = scalar_of(code) {
                self.relate(alloc, root, strength, &[], &[c], &[])?;
            }
        }
        Ok(())
    }

    /// Reads a starred relation.
    fn read_starred(
        &mut self,
        alloc: Global,
        root: &'r R,
        said: &StarredRelation,
    ) -> Result<(), RuleStepError>
        ensures ok { OnOk result (ReadsRules (root_in R.root R.mappings_of root.now)
            (starred_rules said.now)
            (state_in R.mappings_of self.old) (state_in R.mappings_of self.new)) }
        ensures err { IfErr result (IsReason (first_fault (root_in R.root R.mappings_of root.now)
            (state_in R.mappings_of self.old) (starred_rules said.now))) }
        ensures touched { OnOk result (TouchesByRules (starred_rules said.now)
            (kept_mappings self.old) (kept_mappings self.new)) }
    {
        for range in &said.ranges {
            self.relate_range(alloc, root, said.strength, *range)?;
        }
        Ok(())
    }

    /// Characters of the ranges keep their mappings without a context alone.
    fn suppress(&mut self, ranges: &[CharacterRange]) -> Result<(), AllocError>
        ensures state { OnOk result (state_in R.mappings_of self.new
            ≡ suppression_step ranges.now (state_in R.mappings_of self.old)) }
        ensures touched { OnOk result (TouchesMore (λ _. false) ranges.now
            (kept_mappings self.old) (kept_mappings self.new)) }
    {
        self.mappings.suppression_step(ranges)?;
        Ok(())
    }

    /// Reads a setting.
    fn read_setting(&mut self, said: &'r RuleSetting) -> Result<(), AllocError>
        ensures ok { (root : Root) → OnOk result (ReadsRules root (setting_rules said.now)
            (state_in R.mappings_of self.old) (state_in R.mappings_of self.new)) }
        ensures touched { OnOk result (TouchesByRules (setting_rules said.now)
            (kept_mappings self.old) (kept_mappings self.new)) }
    {
        match said {
            RuleSetting::SuppressContractions(ranges) => self.suppress(ranges.as_slice()),
            RuleSetting::Optimize(_)
            | RuleSetting::Normalization(_)
            | RuleSetting::HiraganaQuaternaryOff
            | RuleSetting::VowelSign => Ok(()),
            _ => {
                self.settings.push(said)?;
                Ok(())
            }
        }
    }

    /// Reads a statement.
    pub(crate) fn read_statement(
        &mut self,
        alloc: Global,
        root: &'r R,
        said: &'r Statement,
    ) -> Result<(), RuleStepError>
        ensures ok { OnOk result (ReadsRules (root_in R.root R.mappings_of root.now)
            (statement_rules said.now)
            (state_in R.mappings_of self.old) (state_in R.mappings_of self.new)) }
        ensures err { IfErr result (IsReason (first_fault (root_in R.root R.mappings_of root.now)
            (state_in R.mappings_of self.old) (statement_rules said.now))) }
        ensures touched { OnOk result (TouchesByRules (statement_rules said.now)
            (kept_mappings self.old) (kept_mappings self.new)) }
    {
        match said {
            Statement::Reset(reset) => self.read_reset(alloc, root, reset),
            Statement::Relation(relation) => self.read_relation(alloc, root, relation),
            Statement::Starred(starred) => self.read_starred(alloc, root, starred),
            Statement::Setting(setting) => {
                self.read_setting(setting)?;
                Ok(())
            }
            Statement::Import(_) => Ok(()),
        }
    }

    /// What statements of rules say, one after another.
    ///
    /// An error has the place of the statement by which there are more than 250,000 relations, with those of imports,
    /// or else of the first one that is refused, and why it is. Relations are counted before any is read.
    pub fn of_statements(
        alloc: Global,
        root: &'r R,
        statements: &'r [PlacedStatement],
    ) -> Result<SymbolicTailoring<'r, R>, TailoringError>
        ensures says { IfOk result (λ t. state_in R.mappings_of t
            ≡ tailoring_of (root_in R.root R.mappings_of root.now)
            (rules_of statements.now)) }
        ensures sound { IfOk result (λ _.
            let root = root_in R.root R.mappings_of root.now in
            first_error root (first_state root) statements.now ≡ None) }
        ensures err { IfErr result (
            let root = root_in R.root R.mappings_of root.now in
            IsError (first_error root (first_state root) statements.now)) }
        ensures touched { IfOk result (λ t.
            HasTouched root.now (rules_of statements.now) (kept_mappings t)) }
    {
        refuse_too_many(statements)?;
        let mut tailoring = SymbolicTailoring::new(alloc, root);
        for placed in statements {
            if let Err(error) = tailoring.read_statement(alloc, root, &placed.statement) {
                return Err(error.at(placed.place, placed.import));
            }
        }
        Ok(tailoring)
    }

    /// What rules say.
    ///
    /// An error is that of [`SymbolicTailoring::of_statements`].
    pub fn of_rules(
        alloc: Global,
        root: &'r R,
        rules: &'r Rules,
    ) -> Result<SymbolicTailoring<'r, R>, TailoringError>
        ensures says { IfOk result (λ t. state_in R.mappings_of t
            ≡ tailoring_of (root_in R.root R.mappings_of root.now)
            (rules_of rules.now.statements.items)) }
        ensures sound { IfOk result (λ _.
            let root = root_in R.root R.mappings_of root.now in
            first_error root (first_state root) rules.now.statements.items ≡ None) }
        ensures err { IfErr result (
            let root = root_in R.root R.mappings_of root.now in
            IsError (first_error root (first_state root) rules.now.statements.items)) }
        ensures touched { IfOk result (λ t.
            HasTouched root.now (rules_of rules.now.statements.items) (kept_mappings t)) }
    {
        SymbolicTailoring::of_statements(alloc, root, rules.statements.as_slice())
    }

    /// Whether more tailored weights were made than there were before this one.
    pub(crate) fn has_made(&self, weight: usize) -> bool
        ensures { result ≡ nat_lt weight (state_in R.mappings_of self.now).made }
    {
        weight < self.rule.tree().made()
    }

    /// The elements of the last reset or relation.
    pub fn elements(&self) -> &[SymbolicElement]
        ensures { result.now ≡ (state_in R.mappings_of self.now).elements }
    {
        self.rule.elements()
    }

    /// The order of weights.
    pub fn tree(&self) -> &WeightTreeBuilder
        ensures { tree_of result.now ≡ (state_in R.mappings_of self.now).tree }
    {
        self.rule.tree()
    }

    /// The mappings of characters.
    pub fn mappings(&self) -> &Mappings<'r, R>
        ensures says { mappings_in R.mappings_of result.now
            ≡ (state_in R.mappings_of self.now).mappings }
        ensures kept { result.now ≡ kept_mappings self.now }
    {
        &self.mappings
    }

    /// The settings, in turn.
    pub fn settings(&self) -> &[&'r RuleSetting]
        ensures { reverse (map (λ s. s.now) result.now)
            ≡ (state_in R.mappings_of self.now).settings }
    {
        self.settings.as_slice()
    }
}
