//! A caller's sink that takes only so many bytes, and only so many at once, and that may refuse to finish.
ghost use Rattle.std.specs.Prelude.{◌≡◌, ◌++◌};
ghost use Rattle.icu_key_writers.specs.Sinks.{TakesBeginning};
ghost use Rattle.icu_key_writers.specs.ListSinkLaws.{appended_nothing, appended_both};

use crate::driver_error::DriverError;
use crate::keys::{no_call, write};
use crate::numbers::{size, written};
use crate::texts::WrittenText;
use icu_collator::{CollationKeySink, Collator, SortKeyError};
use std::alloc::Global;

/// Why the sink took no more.
#[derive(Clone, Copy)]
pub(crate) enum SinkFault {
    Full,
    NoMemory,
    Unfinished,
}

/// Takes what fits into so many bytes, and of each write so many, and then refuses.
#[derive(Drop)]
pub(crate) struct Limited {
    taken: Vec<u8>,
    limit: usize,
    at_once: usize,
    finishes: bool,
}

impl CollationKeySink for Limited {
    type Error = SinkFault;

    type State = ();

    type Output = ();

    ghost is_sound = { λ _ _. Unit {0} };

    ghost effects = { record {
      took = λ x _ b y _. y.taken.items ≡ x.taken.items ++ b;
      refused = λ x _ b _ y _. TakesBeginning (λ c. y.taken.items ≡ x.taken.items ++ c) b;
      finished = λ x _ r y. y ≡ x;
      begins = λ _. Unit {0};
    } };

    ghost begins_default = { λ _ _. tt };

    ghost starts_sound = { λ _ _ _. tt };

    ghost took_nothing = { λ x _ _. appended_nothing x.taken.items };

    ghost took_both = { λ x y z _ _ _ b c _ p q. appended_both x.taken.items y.taken.items z.taken.items b c p q };

    ghost refused_took = { λ x y _ _ b _ _ p. p };

    fn write(&mut self, _state: &mut (), buf: &[u8]) -> Result<(), SinkFault> {
        let room = self.limit.saturating_sub(self.taken.len());
        let (fits, rest) = buf.split_at(room.min(self.at_once).min(buf.len()));
        match self.taken.extend_from_slice(fits) {
            Err(_) => Err(SinkFault::NoMemory),
            Ok(()) => {
                if rest.is_empty() {
                    Ok(())
                } else {
                    Err(SinkFault::Full)
                }
            }
        }
    }

    fn finish(&mut self, _state: ()) -> Result<(), SinkFault> {
        if self.finishes {
            Ok(())
        } else {
            Err(SinkFault::Unfinished)
        }
    }
}

/// The sink that a question names by three numbers, and what follows them.
fn sink<'q>(alloc: Global, question: &'q str) -> Result<(Limited, &'q str), DriverError> {
    let (limit, rest) = question.split_once(' ').ok_or(DriverError::Unread)?;
    let (at_once, rest) = rest.split_once(' ').ok_or(DriverError::Unread)?;
    let (finishes, rest) = rest.split_once(' ').ok_or(DriverError::Unread)?;
    let sink = Limited {
        taken: Vec::new(alloc),
        limit: size(limit)?,
        at_once: size(at_once)?,
        finishes: size(finishes)? != 0,
    };
    Ok((sink, rest))
}

/// What such a sink returns that is handed the key of a text, and what it took.
pub(crate) fn into_limited(
    alloc: Global,
    collator: &Collator,
    question: &str,
) -> Result<String, DriverError> {
    let (mut sink, text) = sink(alloc, question)?;
    let text = WrittenText::read(alloc, text)?;
    let returned = match write(collator, &text, &mut sink) {
        Some(Ok(())) => "ok",
        Some(Err(SortKeyError::Sink(SinkFault::Full))) => "Full",
        Some(Err(SortKeyError::Sink(SinkFault::Unfinished))) => "Unfinished",
        Some(Err(SortKeyError::Sink(SinkFault::NoMemory) | SortKeyError::NoMemory)) => {
            return Err(DriverError::NoMemory);
        }
        None => return no_call(alloc),
    };
    let taken = written(alloc, sink.taken.as_slice())?;
    Ok(format!(in alloc; "{returned} : {taken}")?)
}
