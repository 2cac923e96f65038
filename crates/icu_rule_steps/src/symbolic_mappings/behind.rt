//! Which mappings of a character count behind a context.

ghost use Rattle.std.specs.Prelude.{◌≡◌, ◌∷◌, ◌++◌, [], bytes_eq, filter, if◌then◌else◌, IfOk, OnOk, map, not};
ghost use Rattle.std.specs.List.{list_any};
ghost use Rattle.icu_rule_meaning.specs.TailoredMappings.{beginnings, begin_suffix, mappings_behind, stands_after_prefix};
ghost use Rattle.icu_rule_steps.specs.symbolic_mappings.StoredMappings.{symbolic_mapping, symbolic_mappings};
ghost use Rattle.icu_rule_steps.specs.symbolic_mappings.inner.Tiers.{lent_mappings, with_tier};

use crate::symbolic_mappings::character_mapping::SymbolicMapping;
use std::alloc::{AllocError, Global};

/// Whether the mapping is of this prefix.
fn stands_after_prefix(mapping: &SymbolicMapping, prefix: &[char]) -> bool
    ensures { result ≡ stands_after_prefix prefix.now (symbolic_mapping mapping.now) }
{
    mapping.prefix.as_slice() == prefix
}

/// One more mapping, where it is wanted.
fn push_if<'m>(
    found: &mut Vec<&'m SymbolicMapping>,
    mapping: &'m SymbolicMapping,
    wanted: bool,
) -> Result<(), AllocError>
    ensures { OnOk result (lent_mappings found.new.items ≡ lent_mappings found.old.items
        ++ (if wanted then symbolic_mapping mapping.now ∷ [] else [])) }
{
    if wanted {
        found.push(mapping)?;
    }
    Ok(())
}

/// The mappings of this prefix.
fn of_prefix<'m>(
    alloc: Global,
    mappings: &'m [SymbolicMapping],
    prefix: &[char],
) -> Result<Vec<&'m SymbolicMapping>, AllocError>
    ensures { IfOk result (λ own. lent_mappings own.items
        ≡ filter (stands_after_prefix prefix.now) (symbolic_mappings mappings.now)) }
{
    let mut own = Vec::new(alloc);
    for mapping in mappings {
        push_if(&mut own, mapping, stands_after_prefix(mapping, prefix))?;
    }
    Ok(own)
}

/// Whether one of the mappings is without a suffix.
fn have_plain(mappings: &[&SymbolicMapping]) -> bool
    ensures { result ≡ list_any (λ m. bytes_eq m.suffix []) (lent_mappings mappings.now) }
{
    for mapping in mappings {
        if mapping.suffix.is_empty() {
            return true;
        }
    }
    false
}

/// Whether one of the mappings has a suffix that begins this one's.
fn begin_suffix(mappings: &[&SymbolicMapping], mapping: &SymbolicMapping) -> bool
    ensures { result ≡ begin_suffix (lent_mappings mappings.now) (symbolic_mapping mapping.now) }
{
    for own in mappings {
        if mapping.suffix.starts_with(own.suffix.as_slice()) {
            return true;
        }
    }
    false
}

/// Those of the mappings of shorter prefixes that have no suffix which begins with one of these mappings' suffixes.
fn further_mappings<'m>(
    alloc: Global,
    own: &[&SymbolicMapping],
    shorter: &[&'m SymbolicMapping],
) -> Result<Vec<&'m SymbolicMapping>, AllocError>
    ensures { IfOk result (λ further. lent_mappings further.items
        ≡ filter (λ m. not (begin_suffix (lent_mappings own.now) m)) (lent_mappings shorter.now)) }
{
    let mut further = Vec::new(alloc);
    for mapping in shorter {
        push_if(&mut further, mapping, !begin_suffix(own, mapping))?;
    }
    Ok(further)
}

/// The mappings that count behind a prefix, where those behind shorter ones are known.
fn with_tier<'m>(
    alloc: Global,
    mappings: &'m [SymbolicMapping],
    prefix: &[char],
    shorter: &[&'m SymbolicMapping],
) -> Result<Vec<&'m SymbolicMapping>, AllocError>
    ensures { IfOk result (λ found. lent_mappings found.items
        ≡ with_tier (symbolic_mappings mappings.now) prefix.now (lent_mappings shorter.now)) }
{
    let mut own = of_prefix(alloc, mappings, prefix)?;
    if have_plain(own.as_slice()) {
        return Ok(own);
    }
    let further = further_mappings(alloc, own.as_slice(), shorter)?;
    own.extend_from_slice(further.as_slice())?;
    Ok(own)
}

/// The mappings of a character that count behind a context, nearest character first: those of the longest prefix that
/// begins it and has any. Where none of them is without a suffix, those of shorter prefixes count too, but for suffixes
/// that begin with one of theirs (UTS #35 part 5, "Context-Sensitive Mappings").
pub fn mappings_behind<'m>(
    alloc: Global,
    mappings: &'m [SymbolicMapping],
    before: &[char],
) -> Result<Vec<&'m SymbolicMapping>, AllocError>
    ensures { IfOk result (λ found. map (λ m. symbolic_mapping m.now) found.items
        ≡ mappings_behind (symbolic_mappings mappings.now) (beginnings before.now)) }
{
    let mut found = with_tier(alloc, mappings, &[], &[])?;
    for count in 0..before.len() {
        found = with_tier(alloc, mappings, &before[..count + 1], found.as_slice())?;
    }
    Ok(found)
}
