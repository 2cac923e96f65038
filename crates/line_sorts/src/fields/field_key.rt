//! Which part of a line is a key (POSIX, "sort", option -k).

/// What ends a field.
#[derive(Clone, Copy, PartialEq, Eq)]
pub enum FieldEnds {
    /// This byte, which belongs to no field: a character of ASCII.
    AtByte(u8),
    /// A blank behind a byte that is none: blanks belong to the field behind them.
    AtBlanks,
}

/// A place of a line.
#[derive(Clone, Copy, PartialEq, Eq)]
pub struct KeyPlace {
    /// So many fields stand before it.
    pub fields: usize,
    /// Whether the blanks with which the next field begins stand before it too.
    pub skips_blanks: bool,
    /// So many characters of what follows stand before it too.
    pub chars: usize,
}

/// Where a key ends.
#[derive(Clone, Copy, PartialEq, Eq)]
pub enum KeyStop {
    /// Where the line does.
    LineEnd,
    /// Where a field does, before which so many stand.
    FieldEnd(usize),
    /// At a place.
    Place(KeyPlace),
}

/// Which part of a line is a key.
#[derive(Clone, Copy, PartialEq, Eq)]
pub struct FieldKey {
    /// Where it begins.
    pub start: KeyPlace,
    /// Where it ends.
    pub stop: KeyStop,
}
