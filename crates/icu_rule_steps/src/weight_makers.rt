//! The statements by which tailored weights are made.
use crate::relation_counts::refuse_too_many;
use crate::statement_place::StatementPlace;
use crate::symbolic_mappings::RootMappings;
use crate::symbolic_tailoring::SymbolicTailoring;
use crate::tailoring_error::TailoringError;
use icu_rule_meaning::weight_tree::RootWeights;
use icu_rule_parser::Rules;
use std::alloc::Global;

impl<'r, R: RootWeights + RootMappings> SymbolicTailoring<'r, R> {
    ghost use Rattle.std.specs.Prelude.{◌≡◌, IfErr, IfOk};
    ghost use Rattle.icu_rule_meaning.specs.Steps.{first_state};
    ghost use Rattle.icu_rule_steps.specs.ReadRules.{IsError};
    ghost use Rattle.icu_rule_steps.specs.RuleFaults.{first_error};
    ghost use Rattle.icu_rule_steps.specs.SymbolicTailorings.{root_in};
    ghost use Rattle.icu_rule_steps.specs.WeightMakers.{maker_of};

    /// The statement by which a tailored weight is made, by how many are made before it. `None` where the rules make
    /// fewer. It reads the rules again.
    pub fn maker_of(
        alloc: Global,
        root: &'r R,
        rules: &'r Rules,
        weight: usize,
    ) -> Result<Option<StatementPlace>, TailoringError>
        ensures made { IfOk result (λ found.
            let root = root_in R.root R.mappings_of root.now in
            found ≡ maker_of root weight (first_state root) rules.now.statements.items) }
        ensures err { IfErr result (
            let root = root_in R.root R.mappings_of root.now in
            IsError (first_error root (first_state root) rules.now.statements.items)) }
    {
        refuse_too_many(rules.statements.as_slice())?;
        let mut tailoring = SymbolicTailoring::new(alloc, root);
        for placed in &rules.statements {
            if let Err(error) = tailoring.read_statement(alloc, root, &placed.statement) {
                return Err(error.at(placed.place, placed.import));
            }
            if tailoring.has_made(weight) {
                return Ok(Some(StatementPlace {
                    place: placed.place,
                    import: placed.import,
                }));
            }
        }
        Ok(None)
    }
}
