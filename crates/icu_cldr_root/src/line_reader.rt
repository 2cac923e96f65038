//! The lines of a reader.
ghost use Rattle.std.specs.Prelude.{◌≡◌, ◌<◌, true, IfOk, IfErr, IfSome};
ghost use Rattle.std.specs.List.{list_any};
ghost use Rattle.icu_cldr_root.specs.Errors.{IsOtherError, IsNumbered, IsRightlyRefused};
ghost use Rattle.icu_cldr_root.specs.FixedBytes.{fixes_last};
ghost use Rattle.icu_cldr_root.specs.inner.Taken.{TakesFile, HasNothing};
ghost use Rattle.icu_cldr_root.specs.inner.TakenCharacters.{HasUnmapped};

use crate::CharRange;
use crate::collected::Collected;
use crate::error::{LineErrorKind, Missing, ReadError, UnnumberedError};
use std::alloc::Global;
use std::io::{BufRead, ErrorKind};

/// What a read that fails is, at this line.
pub(crate) fn failed(kind: ErrorKind, line: u64) -> ReadError
    requires { 0 < line }
    ensures { IsOtherError result }
{
    match kind {
        ErrorKind::OutOfMemory => ReadError::NoMemory,
        ErrorKind::InvalidData => UnnumberedError::Refused(LineErrorKind::Encoding).at(line),
        kind => ReadError::ReadFailed(kind),
    }
}

/// What the lines of a reader say, if one of them is the last of a file. These ideographs stand before those of a line.
pub(crate) fn collect_lines<R: BufRead + Drop>(
    alloc: Global,
    first: &[CharRange],
    reader: R,
) -> Result<Collected, ReadError>
    ensures taken { IfOk result (λ c. IfSome (R.remaining reader) (TakesFile first.now c)) }
    ensures nothing { IfOk result HasNothing }
    ensures unmapped { IfOk result HasUnmapped }
    ensures ended { IfOk result (λ c. list_any fixes_last c.facts.fixed.items ≡ true) }
    ensures numbered { IfErr result IsNumbered }
    ensures refused { IfErr result (λ e.
        IfSome (R.remaining reader) (λ bytes. IsRightlyRefused bytes e)) }
{
    let mut collected = Collected::new(alloc)?;
    let mut number = 0u64;
    for line in reader.lines(alloc) {
        number = number.saturating_add(1);
        let line = match line {
            Ok(line) => line,
            Err(error) => return Err(failed(error.kind(), number)),
        };
        if let Err(error) = collected.read_line(first, line.as_str()) {
            return Err(error.at(number));
        }
    }
    if number == 0 {
        return Err(ReadError::Empty);
    }
    if !collected.facts.has_end() {
        return Err(ReadError::Missing(Missing::End));
    }
    Ok(collected)
}
