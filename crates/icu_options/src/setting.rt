//! One setting: a value, and whether a source has set it.
ghost use Rattle.std.specs.Prelude.{◌≡◌};
ghost use Rattle.icu_options.specs.FlaggedSettings.{explicit_or, or_default};

/// A value, and whether a source has set it.
#[derive(Debug, Clone, Copy)]
pub(crate) struct Setting<T> {
    pub(crate) value: T,
    pub(crate) is_explicit: bool,
}

impl<T: Copy> Setting<T> {
    /// What a source sets, or `standing` where it sets nothing.
    pub(crate) fn explicit_or(value: Option<T>, standing: T) -> Setting<T>
        ensures { result ≡ explicit_or value standing }
    {
        match value {
            Some(value) => Setting {
                value,
                is_explicit: true,
            },
            None => Setting {
                value: standing,
                is_explicit: false,
            },
        }
    }

    /// This setting where a source has set it, and else the other.
    pub(crate) fn or_default(self, other: Setting<T>) -> Setting<T>
        ensures { result ≡ or_default self other }
    {
        if self.is_explicit { self } else { other }
    }
}
