//! The parents of locales, as collations go by them.
ghost use Rattle.std.specs.Prelude.{◌≡◌};
ghost use Rattle.std.specs.Option.{option_copied};
ghost use Rattle.icu_cldr_files.specs.LocaleParents.{parent_of, parent_of_language};

/// The parent of a language.
fn parent_of_language(language: &str) -> Option<&'static str>
    ensures { option_copied result ≡ parent_of_language language.now }
{
    match language {
        "root" => None,
        "nb" | "nn" => Some("no"),
        _ => Some("root"),
    }
}

/// The parent of a locale, which is named as the files of CLDR are: `zh_Hant`. `None` for `root`.
///
/// It is what stands before the last part. The parent of `nb` and `nn` is `no`, and that of any other language `root`.
pub fn parent_of(locale: &str) -> Option<&str>
    ensures { option_copied result ≡ parent_of locale.now }
{
    match locale.rfind('_') {
        Some(at) => Some(locale.split_at(at).0),
        None => parent_of_language(locale),
    }
}
