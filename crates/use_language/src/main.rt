//! Prints names in the order of Swedish, by the data of CLDR in the folder `cldr`.
#![tactic(auto)]

use anyhow::Result;
use cldr_collators::{LanguageOptions, Languages};
use icu_collator::sort::sort_texts;

fn print_sorted(rt: &HostRuntime, language: &str, names: &mut [&str]) -> Result<()> {
    let mut languages = Languages::open(rt, "cldr")?;
    let found = languages.collator(rt, language, LanguageOptions::default())?;
    sort_texts(&found.collator.as_borrowed(), names);
    for name in names {
        println!(rt; "{name}")?;
    }
    Ok(())
}

fn main(rt: HostRuntime) -> Result<()> {
    print_sorted(&rt, "sv", &mut ["Örjan", "Zoë", "Anna", "Åsa", "Ägir"])
}
