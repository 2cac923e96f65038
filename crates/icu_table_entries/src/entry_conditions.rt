//! The conditions on one entry by itself.
ghost use Rattle.std.specs.Prelude.{◌≡◌, IsTrue};
ghost use Rattle.icu_table_entries.specs.Entries.{is_self_contained, kind_of, names_list};
ghost use Rattle.icu_table_entries.specs.Entries.{is_final};
ghost use Rattle.icu_table_entries.specs.EntryConditions.{is_listed, may_follow_prefix, may_follow_contraction, has_digit, has_known_byte};

use crate::entry::{CollationElement32, EntryKind};

impl EntryKind {
    /// Whether entries of this kind are final.
    pub fn is_final(self) -> bool
        ensures { result ≡ is_final self }
    {
        !matches!(
            self,
            EntryKind::Fallback
                | EntryKind::Prefix
                | EntryKind::Contraction
                | EntryKind::Digit
                | EntryKind::Reserved
        )
    }

    /// Whether a prefix may lead to entries of this kind.
    pub fn may_follow_prefix(self) -> bool
        ensures { result ≡ may_follow_prefix self }
    {
        self != EntryKind::Prefix
    }

    /// Whether a contraction may.
    pub fn may_follow_contraction(self) -> bool
        ensures { result ≡ may_follow_contraction self }
    {
        self != EntryKind::Prefix && self != EntryKind::Contraction
    }
}

impl CollationElement32 {
    /// Whether the entry spells its one element itself.
    #[tactic(auto, unfolding(crate::specs::Entries::is_self_contained))]
    pub fn is_self_contained(self) -> bool
        ensures { result ≡ is_self_contained self }
    {
        matches!(
            self.kind(),
            EntryKind::Simple | EntryKind::LongPrimary | EntryKind::LongSecondary
        )
    }

    /// Whether the list that the entry refers to has a member, and lies inside one of this length.
    pub fn is_listed(self, len: usize) -> bool
        requires { IsTrue (names_list (kind_of self)) }
        ensures { result ≡ is_listed self len }
    {
        self.len() > 0 && self.index() + self.len() <= len
    }

    /// Whether the entry is no digit entry, or its digit is at most 9.
    #[tactic(auto, unfolding(crate::specs::EntryConditions::has_digit))]
    pub fn has_digit(self) -> bool
        ensures { result ≡ has_digit self }
    {
        match self.kind() {
            EntryKind::Digit => self.digit() <= 9,
            _ => true,
        }
    }

    /// Whether the low byte has a meaning where fallback has none.
    #[tactic(auto, unfolding(crate::specs::EntryConditions::has_known_byte))]
    pub fn has_known_byte(self) -> bool
        ensures { result ≡ has_known_byte self }
    {
        !matches!(self.kind(), EntryKind::Fallback | EntryKind::Reserved)
    }
}
