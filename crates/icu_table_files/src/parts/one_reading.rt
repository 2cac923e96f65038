//! What bytes say is one thing, as a function that makes no call.

ghost use Rattle.icu_table_files.specs.parts.OneReading.{PartsAreOne, NumbersAreOne};

/// Bytes that fit in memory are made of one list of parts, and spell one list of numbers of each width.
pub fn bytes_say_one_thing()
    ensures parts { PartsAreOne }
    ensures numbers { NumbersAreOne }
{}
