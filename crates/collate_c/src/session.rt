//! What an open handle has.

ghost use Rattle.std.specs.Prelude.{◌≡◌, IfOk};
ghost use Rattle.icu_collator.specs.Collators.{collation_borrowed};
ghost use Rattle.collate_c.specs.Openings.{collation_held, collator_held};

use icu_collator::{Collator, CollatorBorrowed};
use std::alloc::{AllocError, Global};
use std::sync::Arc;

/// One owner of a collator, which handles share.
#[derive(Drop)]
pub struct Session {
    /// The collator.
    pub collator: Arc<Collator, Global>,
}

impl Session {
    /// The collator, borrowed.
    pub(crate) fn borrowed(&self) -> CollatorBorrowed<'_>
        ensures { collation_borrowed result ≡ collation_held self.now }
    {
        self.collator.as_borrowed()
    }
}

/// A session of a collator. Fails only where an allocation does.
pub(crate) fn new_session(alloc: Global, collator: Collator) -> Result<Box<Session>, AllocError>
    ensures { IfOk result (λ b. collator_held b.value ≡ collator) }
{
    let collator = Arc::new(alloc, collator)?;
    Ok(Box::new(alloc, Session { collator })?)
}

/// A second session of the same collator. Fails only where an allocation does.
pub(crate) fn shared_session(alloc: Global, session: &Session) -> Result<Box<Session>, AllocError>
    ensures { IfOk result (λ b. collator_held b.value ≡ collator_held session.now) }
{
    let collator = Arc::try_clone(&session.collator)?;
    Ok(Box::new(alloc, Session { collator })?)
}
