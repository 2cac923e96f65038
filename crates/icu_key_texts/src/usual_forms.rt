//! The forms that keys mostly have.

ghost use Rattle.std.specs.Prelude.{◌≡◌, IfSome};
ghost use Rattle.icu_key_texts.specs.UsualForms.{form_of, form_of_three};

use icu_order_levels::forms::{CaseForm, KeyForm, QuaternaryForm, SecondaryForm, TertiaryForm};

/// A form that keys mostly have, but for the identical level (UTS #35 part 5, "Setting Options"). Where there are
/// secondaries, they stand from the front.
#[derive(Clone, Copy, PartialEq, Eq)]
pub(crate) enum UsualForm {
    /// Primaries alone.
    Primary,
    /// Primaries and secondaries.
    Secondary,
    /// Three levels, tertiaries without case bits.
    Tertiary,
    /// Three levels, lower case first.
    LowerFirst,
    /// Three levels, upper case first.
    UpperFirst,
    /// Four levels, where variable elements may be shifted.
    Quaternary,
    /// Four levels, where no element is shifted.
    Unshifted,
    /// Three levels and a case level, lower case first.
    CaseLevel,
}

impl UsualForm {
    /// The form of the key.
    #[inline(always)]
    pub(crate) fn form(self, identical: bool) -> KeyForm
        ensures { result ≡ form_of self identical }
    {
        let secondary = Some(SecondaryForm::Forward);
        let (secondary, cases, tertiary, quaternary) = match self {
            UsualForm::Primary => (None, None, None, None),
            UsualForm::Secondary => (secondary, None, None, None),
            UsualForm::Tertiary => (secondary, None, Some(TertiaryForm::WithoutCase), None),
            UsualForm::LowerFirst => (secondary, None, Some(TertiaryForm::LowerFirst), None),
            UsualForm::UpperFirst => (secondary, None, Some(TertiaryForm::UpperFirst), None),
            UsualForm::Quaternary => (
                secondary,
                None,
                Some(TertiaryForm::WithoutCase),
                Some(QuaternaryForm::MayShift),
            ),
            UsualForm::Unshifted => (
                secondary,
                None,
                Some(TertiaryForm::WithoutCase),
                Some(QuaternaryForm::Unshifted),
            ),
            UsualForm::CaseLevel => (
                secondary,
                Some(CaseForm::LowerFirst),
                Some(TertiaryForm::WithoutCase),
                None,
            ),
        };
        KeyForm {
            secondary,
            cases,
            tertiary,
            quaternary,
            identical,
        }
    }
}

/// Which of the usual forms a form is, where it is one.
#[inline(always)]
pub(crate) fn usual_form(form: KeyForm) -> Option<UsualForm>
    ensures { IfSome result (λ usual. form ≡ form_of usual form.identical) }
{
    match (form.secondary, form.cases, form.tertiary, form.quaternary) {
        (None, None, None, None) => Some(UsualForm::Primary),
        (Some(SecondaryForm::Forward), None, None, None) => Some(UsualForm::Secondary),
        (Some(SecondaryForm::Forward), None, Some(tertiary), None) => Some(match tertiary {
            TertiaryForm::WithoutCase => UsualForm::Tertiary,
            TertiaryForm::LowerFirst => UsualForm::LowerFirst,
            TertiaryForm::UpperFirst => UsualForm::UpperFirst,
        }),
        (Some(SecondaryForm::Forward), None, Some(TertiaryForm::WithoutCase), Some(quaternary)) =>
            Some(match quaternary {
                QuaternaryForm::MayShift => UsualForm::Quaternary,
                QuaternaryForm::Unshifted => UsualForm::Unshifted,
            }),
        (
            Some(SecondaryForm::Forward),
            Some(CaseForm::LowerFirst),
            Some(TertiaryForm::WithoutCase),
            None,
        ) => Some(UsualForm::CaseLevel),
        _ => None,
    }
}

/// The form of the tertiary level, where a form has three levels, the second from the front, and perhaps the identical
/// level.
#[inline(always)]
pub(crate) fn tertiary_of_three(form: KeyForm) -> Option<TertiaryForm>
    ensures { IfSome result (λ t. form ≡ form_of_three t form.identical) }
{
    match (form.secondary, form.cases, form.tertiary, form.quaternary) {
        (Some(SecondaryForm::Forward), None, Some(tertiary), None) => Some(tertiary),
        _ => None,
    }
}
