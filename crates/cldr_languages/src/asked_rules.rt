//! The rules that are asked for: of a locale, and of one's own after them.

use crate::asked_locale::AskedLocale;
use crate::language_error::LanguageError;
use crate::needed_files::{add_files_of_imports, add_files_of_request, collation_file};
use crate::own_rules::OwnRules;
use crate::resolved_language::ResolvedLanguage;
use crate::rule_places::{line_at, numbered_place, shown_line};
use icu_cldr_files::{FoundCollation, LocaleFile};
use icu_cldr_locales::locale_rules::{rules_of_collation, with_backward, with_reordering};
use icu_rule_parser::{Rules, RulesError};
use std::alloc::{AllocError, Global};
use std::fmt::Display;
use std::rt::Files;

/// What rules are asked for.
#[derive(Clone, Copy)]
pub struct RuleRequest<'a> {
    /// The locale; none is the root.
    pub locale: Option<&'a AskedLocale>,
    /// Rules of one's own, which stand after those of the locale.
    pub own: Option<&'a OwnRules>,
}

/// Texts of rules, one after another.
#[derive(Drop)]
pub struct RuleTexts {
    /// What an error names the rules of the locale by: their file and their type.
    pub source: String,
    /// The rules of the locale, and after a line feed those of one's own.
    pub text: String,
    /// Rules of one's own.
    pub own: Option<OwnRules>,
    /// Before which character of the text these stand.
    pub own_from: usize,
}

/// Rules, and where they are.
#[derive(Drop)]
pub struct LocaleRules {
    /// Their texts.
    pub texts: RuleTexts,
    /// What they say, with what they import and what the keywords of a tag set.
    pub rules: Rules,
    /// What the tag resolves to.
    pub resolved: ResolvedLanguage,
    /// The tag, if it reorders scripts.
    pub reordering_tag: Option<String>,
    /// Whether ideographs that no rule names stand by radicals and strokes.
    pub by_radicals: bool,
}

/// Whether a type of collation is one of Chinese, in which ideographs that no rule names stand by radicals and strokes.
fn is_by_radicals(collation_type: &str) -> bool {
    matches!(
        collation_type,
        "unihan" | "pinyin" | "stroke" | "zhuyin" | "gb2312han" | "big5han"
    )
}

/// What an error names a collation by.
fn source_of(alloc: Global, folder: &str, found: FoundCollation<'_>) -> Result<String, AllocError> {
    let file = collation_file(alloc, folder, found.file.locale.as_str())?;
    let collation_type = found.collation.collation_type.as_str();
    format!(in alloc; "{file}, collation {collation_type}")
}

impl RuleTexts {
    /// No rules.
    fn empty(alloc: Global) -> RuleTexts {
        RuleTexts {
            source: String::new(alloc),
            text: String::new(alloc),
            own: None,
            own_from: 0,
        }
    }

    /// The rules of a locale, by files.
    fn of_locale(
        alloc: Global,
        folder: &str,
        files: &[LocaleFile],
        asked: &AskedLocale,
    ) -> Result<RuleTexts, AllocError> {
        let mut texts = RuleTexts::empty(alloc);
        match asked.request.resolution(files).found {
            Some(found) => {
                texts.source = source_of(alloc, folder, found)?;
                texts.text = found.collation.rules.clone()?;
            }
            None => texts.source = asked.word.clone()?,
        }
        Ok(texts)
    }

    /// These rules with others after them.
    fn with_own(mut self, own: &OwnRules) -> Result<RuleTexts, AllocError> {
        if !self.text.is_empty() {
            self.text.push('\n')?;
        }
        self.own_from = self.text.chars().count();
        self.text.push_str(own.text.as_str())?;
        self.own = Some(own.copied()?);
        Ok(self)
    }

    /// What an error names the rules by, if it has no place in them.
    pub fn name(&self) -> &str {
        match &self.own {
            Some(own) => own.name.as_str(),
            None => self.source.as_str(),
        }
    }

    /// An error that says of a place of the text what is wrong there.
    fn rule_error(
        &self,
        alloc: Global,
        place: usize,
        fault: String,
    ) -> Result<LanguageError, AllocError> {
        match &self.own {
            Some(own) if place >= self.own_from => Ok(LanguageError::Rule {
                rules: own.name.clone()?,
                place: numbered_place(alloc, own.text.as_str(), place - self.own_from)?,
                fault,
            }),
            _ => Ok(LanguageError::Rule {
                rules: self.source.clone()?,
                place: shown_line(alloc, line_at(self.text.as_str(), place))?,
                fault,
            }),
        }
    }

    /// An error that says of a place of the text what is wrong there, by an error's own text.
    pub fn refused_rule<E: Display>(
        &self,
        alloc: Global,
        place: usize,
        error: &E,
    ) -> LanguageError {
        let Ok(fault) = error.to_string(alloc) else {
            return LanguageError::NoMemory;
        };
        match self.rule_error(alloc, place, fault) {
            Ok(error) => error,
            Err(_) => LanguageError::NoMemory,
        }
    }

    /// What an error of rules that were read comes to, whose places are behind so many characters of the text. It is
    /// said of the rule that was asked for: of an import, if what is imported is wrong.
    fn unread(&self, alloc: Global, before: usize, error: RulesError) -> LanguageError {
        match error {
            RulesError::NoMemory => LanguageError::NoMemory,
            RulesError::Refused {
                place,
                import,
                kind,
            } => {
                let place = import.unwrap_or(place).saturating_add(before);
                self.refused_rule(alloc, place, &kind)
            }
        }
    }

    /// Whether rules of one's own are rules by themselves: those of the locale end before them.
    fn check_own(&self, alloc: Global) -> Result<(), LanguageError> {
        let Some(own) = &self.own else {
            return Ok(());
        };
        match Rules::parse(alloc, own.text.as_str()) {
            Ok(_) => Ok(()),
            Err(error) => Err(self.unread(alloc, self.own_from, error)),
        }
    }
}

/// Rules with what the keywords of a tag set.
fn with_keywords(alloc: Global, rules: Rules, asked: &AskedLocale) -> Result<Rules, RulesError> {
    let rules = with_backward(rules, asked.settings.backward_second_level)?;
    match asked.tag.reordering_codes() {
        Some(codes) => with_reordering(alloc, rules, codes),
        None => Ok(rules),
    }
}

/// The rules of a text, with what the keywords of a tag set.
fn rules_of_text(
    alloc: Global,
    files: &[LocaleFile],
    text: &str,
    locale: Option<&AskedLocale>,
) -> Result<Rules, RulesError> {
    let rules = rules_of_collation(alloc, files, text)?;
    match locale {
        Some(asked) => with_keywords(alloc, rules, asked),
        None => Ok(rules),
    }
}

/// The tag that is asked for, if it reorders scripts.
fn reordering_tag(locale: Option<&AskedLocale>) -> Result<Option<String>, AllocError> {
    match locale {
        Some(asked) if asked.tag.reordering_codes().is_some() => Ok(Some(asked.word.clone()?)),
        _ => Ok(None),
    }
}

/// The texts of the rules that are asked for. The files that they need are read into `files`.
fn asked_texts<R: Files + AllocGlobal>(
    rt: &R,
    folder: &str,
    request: RuleRequest<'_>,
    files: &mut Vec<LocaleFile>,
) -> Result<RuleTexts, LanguageError> {
    let mut texts = RuleTexts::empty(rt.alloc());
    if let Some(asked) = request.locale {
        add_files_of_request(rt, folder, &asked.request, files)?;
        texts = RuleTexts::of_locale(rt.alloc(), folder, files.as_slice(), asked)?;
    }
    if let Some(own) = request.own {
        texts = texts.with_own(own)?;
        texts.check_own(rt.alloc())?;
    }
    add_files_of_imports(rt, folder, texts.text.as_str(), files)?;
    Ok(texts)
}

/// What a locale resolves to by files, and whether ideographs that no rule names stand by radicals and strokes there.
fn resolved_by(
    alloc: Global,
    files: &[LocaleFile],
    locale: Option<&AskedLocale>,
) -> Result<(ResolvedLanguage, bool), AllocError> {
    let Some(asked) = locale else {
        return Ok((ResolvedLanguage::of_root(alloc)?, false));
    };
    let resolution = asked.request.resolution(files);
    let resolved = ResolvedLanguage::of_tag(alloc, asked.word.as_str(), resolution)?;
    let by_radicals = is_by_radicals(resolved.collation_type.as_str());
    Ok((resolved, by_radicals))
}

/// The rules that are asked for, by the files of a folder of CLDR's data. `files` are those that were read before; what
/// is needed beside them is added.
///
/// # Errors
///
/// Fails where an allocation does, or with what is wrong with a file or a rule.
pub fn rules_of<R: Files + AllocGlobal>(
    rt: &R,
    folder: &str,
    request: RuleRequest<'_>,
    files: &mut Vec<LocaleFile>,
) -> Result<LocaleRules, LanguageError> {
    let alloc = rt.alloc();
    let texts = asked_texts(rt, folder, request, files)?;
    let (resolved, by_radicals) = resolved_by(alloc, files.as_slice(), request.locale)?;
    let reordering_tag = reordering_tag(request.locale)?;
    match rules_of_text(alloc, files.as_slice(), texts.text.as_str(), request.locale) {
        Ok(rules) => Ok(LocaleRules {
            texts,
            rules,
            resolved,
            reordering_tag,
            by_radicals,
        }),
        Err(error) => Err(texts.unread(alloc, 0, error)),
    }
}
