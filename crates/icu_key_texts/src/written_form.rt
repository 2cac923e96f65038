//! The form of a key, known by a type.

ghost use Rattle.std.specs.Prelude.{◌≡◌};
ghost use Rattle.icu_order_levels.specs.declared.forms.KeyForm.{KeyForm};
ghost use Rattle.icu_key_texts.specs.UsualForms.{form_of};
ghost use Rattle.icu_key_texts.specs.declared.usual_forms.UsualForm.TheVariants.{Primary, Secondary, Tertiary, LowerFirst, UpperFirst, Quaternary, Unshifted, CaseLevel};

use crate::usual_forms::UsualForm;
use icu_order_levels::forms::KeyForm;

/// A form of keys. Code that is generic over it is built for each type by itself: where the type says which levels
/// there are, as those of the forms that keys mostly have do, that code asks for no level at an element.
pub trait WrittenForm {
    /// The form.
    ghost form_written: { Self → KeyForm };

    /// The form of the key.
    fn form(&self) -> KeyForm
        ensures { result ≡ form_written self.now };
}

impl WrittenForm for KeyForm {
    ghost form_written = { λ form. form };

    #[inline(always)]
    fn form(&self) -> KeyForm {
        *self
    }
}

/// Primaries alone, and the identical level where it is asked for.
#[derive(Clone, Copy)]
pub(crate) struct PrimaryKey {
    pub(crate) identical: bool,
}

impl WrittenForm for PrimaryKey {
    ghost form_written = { λ form. form_of Primary form.identical };

    #[inline(always)]
    fn form(&self) -> KeyForm {
        UsualForm::Primary.form(self.identical)
    }
}

/// Primaries and secondaries, and the identical level where it is asked for.
#[derive(Clone, Copy)]
pub(crate) struct SecondaryKey {
    pub(crate) identical: bool,
}

impl WrittenForm for SecondaryKey {
    ghost form_written = { λ form. form_of Secondary form.identical };

    #[inline(always)]
    fn form(&self) -> KeyForm {
        UsualForm::Secondary.form(self.identical)
    }
}

/// Three levels, tertiaries without case bits, and the identical level where it is asked for.
#[derive(Clone, Copy)]
pub(crate) struct TertiaryKey {
    pub(crate) identical: bool,
}

impl WrittenForm for TertiaryKey {
    ghost form_written = { λ form. form_of Tertiary form.identical };

    #[inline(always)]
    fn form(&self) -> KeyForm {
        UsualForm::Tertiary.form(self.identical)
    }
}

/// Three levels, lower case first, and the identical level where it is asked for.
#[derive(Clone, Copy)]
pub(crate) struct LowerFirstKey {
    pub(crate) identical: bool,
}

impl WrittenForm for LowerFirstKey {
    ghost form_written = { λ form. form_of LowerFirst form.identical };

    #[inline(always)]
    fn form(&self) -> KeyForm {
        UsualForm::LowerFirst.form(self.identical)
    }
}

/// Three levels, upper case first, and the identical level where it is asked for.
#[derive(Clone, Copy)]
pub(crate) struct UpperFirstKey {
    pub(crate) identical: bool,
}

impl WrittenForm for UpperFirstKey {
    ghost form_written = { λ form. form_of UpperFirst form.identical };

    #[inline(always)]
    fn form(&self) -> KeyForm {
        UsualForm::UpperFirst.form(self.identical)
    }
}

/// Four levels, where variable elements may be shifted, and the identical level where it is asked for.
#[derive(Clone, Copy)]
pub(crate) struct QuaternaryKey {
    pub(crate) identical: bool,
}

impl WrittenForm for QuaternaryKey {
    ghost form_written = { λ form. form_of Quaternary form.identical };

    #[inline(always)]
    fn form(&self) -> KeyForm {
        UsualForm::Quaternary.form(self.identical)
    }
}

/// Four levels, where no element is shifted, and the identical level where it is asked for.
#[derive(Clone, Copy)]
pub(crate) struct UnshiftedKey {
    pub(crate) identical: bool,
}

impl WrittenForm for UnshiftedKey {
    ghost form_written = { λ form. form_of Unshifted form.identical };

    #[inline(always)]
    fn form(&self) -> KeyForm {
        UsualForm::Unshifted.form(self.identical)
    }
}

/// Three levels and a case level, lower case first, and the identical level where it is asked for.
#[derive(Clone, Copy)]
pub(crate) struct CaseLevelKey {
    pub(crate) identical: bool,
}

impl WrittenForm for CaseLevelKey {
    ghost form_written = { λ form. form_of CaseLevel form.identical };

    #[inline(always)]
    fn form(&self) -> KeyForm {
        UsualForm::CaseLevel.form(self.identical)
    }
}
