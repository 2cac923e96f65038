//! The order of ideographs.
ghost use Rattle.std.specs.Prelude.{◌≡◌, ◌++◌, [], IfErr, IfOk, IfSome};
ghost use Rattle.icu_cldr_root.specs.Errors.{IsNumbered};
ghost use Rattle.icu_cldr_root.specs.IdeographOrder.{first_ideographs};
ghost use Rattle.icu_cldr_root.specs.LineParts.{text_of};
ghost use Rattle.icu_cldr_root.specs.RadicalLines.{SaysOfRadicals};
ghost use Rattle.icu_cldr_root.specs.RadicalOrder.{IsRadicalOrder, is_radical_end, radical_ranges};

use crate::error::{Missing, ReadError, UnnumberedError};
use crate::ideographs::CharRange;
use crate::line_reader::failed;
use crate::radical_line::RadicalLine;
use std::alloc::Global;
use std::io::BufRead;

/// Ideographs that stand before all others, in this order. The others stand in the order of the file's line.
#[derive(Drop)]
pub struct IdeographOrder {
    first: Vec<CharRange>,
}

/// Takes in what a line says of radicals. Returns whether none follows.
fn take_line(
    alloc: Global,
    ranges: &mut Vec<CharRange>,
    line: &str,
) -> Result<bool, UnnumberedError>
    ensures { IfOk result (λ is_end. (said : RadicalLine) × SaysOfRadicals (text_of line.now) said
        × (is_radical_end said ≡ is_end)
        × (ranges.new.items ≡ ranges.old.items ++ radical_ranges said)) }
{
    match RadicalLine::parse(alloc, line)? {
        RadicalLine::Other => Ok(false),
        RadicalLine::End => Ok(true),
        RadicalLine::Ideographs(read) => {
            ranges.extend_from_slice(read.as_slice())?;
            Ok(false)
        }
    }
}

impl IdeographOrder {
    /// The order of the file's line, `[Unified_Ideograph ..]`: by blocks, and in each by code points, as the standard
    /// gives implicit weights.
    #[tactic(auto, unfolding(crate::specs::IdeographOrder::first_ideographs))]
    pub fn code_point(alloc: Global) -> IdeographOrder
        ensures { first_ideographs result ≡ [] }
    {
        IdeographOrder {
            first: Vec::new(alloc),
        }
    }

    /// The ideographs that stand before all others.
    #[tactic(auto, unfolding(crate::specs::IdeographOrder::first_ideographs))]
    pub(crate) fn first_ranges(&self) -> &[CharRange]
        ensures { result.now ≡ first_ideographs self.now }
    {
        self.first.as_slice()
    }

    /// The order by radicals and strokes, as ICU's root has it: that of the lines `[radical ..]` of FractionalUCA.txt,
    /// up to `[radical end]`. No line behind that is read. A file without it is refused (`Missing::Radicals`).
    pub fn radical_stroke<R: BufRead + Drop>(
        alloc: Global,
        reader: R,
    ) -> Result<IdeographOrder, ReadError>
        ensures says { IfOk result (λ order. IfSome (R.remaining reader)
            (λ bytes. IsRadicalOrder bytes (first_ideographs order))) }
        ensures numbered { IfErr result IsNumbered }
    {
        let mut first = Vec::new(alloc);
        let mut number = 0u64;
        for line in reader.lines(alloc) {
            number = number.saturating_add(1);
            let line = match line {
                Ok(line) => line,
                Err(error) => return Err(failed(error.kind(), number)),
            };
            match take_line(alloc, &mut first, line.as_str()) {
                Ok(true) => return Ok(IdeographOrder { first }),
                Ok(false) => {}
                Err(error) => return Err(error.at(number)),
            }
        }
        if number == 0 {
            return Err(ReadError::Empty);
        }
        Err(ReadError::Missing(Missing::Radicals))
    }
}
