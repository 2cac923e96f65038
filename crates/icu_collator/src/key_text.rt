//! The elements of a text for its key, as variable weighting leaves them (UTS #10, "Variable Weighting").

ghost use Rattle.std.specs.Prelude.{◌≡◌, ◌++◌, [], None, false, IfOk, IsTrue, map, option_to_list};
ghost use Rattle.icu_collator.specs.inner.KeyElements.{steady_elements_left};
ghost use Rattle.icu_order_texts.specs.weighting.Handled.{handled, stayed};

use icu_element_cursor::{CharElements, ElementCursor, FirstChars, LongPiece, SteadyCursor};
use icu_options::AlternateHandling;
use icu_order_texts::weighting::{Handled, HandledSource, VariableWeighting};
use icu_table_entries::CollationElement;
use icu_text_decomposition::CountedText;
use std::alloc::{AllocError, Global};

/// The elements of an encoded text by a cursor, and from the first long piece on by one that never stops. That one is
/// large, so it stands apart.
#[derive(Drop)]
struct PieceElements<'c, 'd, T: Copy>
where
    FirstChars<T>: CountedText,
{
    alloc: Global,
    cursor: Option<ElementCursor<'c, 'd, T>>,
    steady: Option<Box<SteadyCursor<'c, 'd, T>>>,
}

/// The next element of a cursor that never stops, where there is one.
fn next_of_steady<T: CountedText>(
    steady: &mut Option<Box<SteadyCursor<'_, '_, T>>>,
) -> Option<CollationElement>
    ensures next { steady_elements_left T.text steady.old
        ≡ option_to_list result ++ steady_elements_left T.text steady.new }
    ensures end { result ≡ None → steady_elements_left T.text steady.old ≡ [] }
{
    match steady {
        Some(begun) => begun.next(),
        None => None,
    }
}

impl<'c, 'd, T: CountedText> PieceElements<'c, 'd, T> {
    ghost use Rattle.icu_element_cursor.specs.Cursors.{cursor_gives};
    ghost use Rattle.icu_collator.specs.inner.KeyElements.{piece_elements_left};

    /// All elements that a cursor still gives.
    #[inline(always)]
    fn new(alloc: Global, cursor: ElementCursor<'c, 'd, T>) -> PieceElements<'c, 'd, T>
        ensures { piece_elements_left T.text result ≡ cursor_gives T.text cursor.entry }
    {
        PieceElements {
            alloc,
            cursor: Some(cursor),
            steady: None,
        }
    }

    /// The next element, where the cursor gives it at once. `None` says nothing.
    #[inline(always)]
    fn next_at_once(&mut self) -> Option<CollationElement>
        ensures { piece_elements_left T.text self.old
            ≡ option_to_list result ++ piece_elements_left T.text self.new }
    {
        match &mut self.cursor {
            Some(cursor) => cursor.next_at_once(),
            None => None,
        }
    }

    /// The next element, or `None` after the last one, where the cursor doesn't give it at once. Fails only where an
    /// allocation does.
    #[inline(never)]
    fn next_read(&mut self) -> Result<Option<CollationElement>, AllocError>
        ensures next { IfOk result (λ next. piece_elements_left T.text self.old
            ≡ option_to_list next ++ piece_elements_left T.text self.new) }
        ensures end { IfOk result (λ next. next ≡ None → piece_elements_left T.text self.old ≡ []) }
    {
        match &mut self.cursor {
            Some(cursor) => match cursor.next_read() {
                Ok(next) => Ok(next),
                Err(LongPiece) => self.go_on(),
            },
            None => Ok(next_of_steady(&mut self.steady)),
        }
    }

    /// The next element at a long piece. Out of line: its locals are large.
    #[inline(never)]
    fn go_on(&mut self) -> Result<Option<CollationElement>, AllocError>
        ensures next { IfOk result (λ next. piece_elements_left T.text self.old
            ≡ option_to_list next ++ piece_elements_left T.text self.new) }
        ensures end { IfOk result (λ next. next ≡ None → piece_elements_left T.text self.old ≡ []) }
    {
        let Some(cursor) = self.cursor.take() else {
            return Ok(next_of_steady(&mut self.steady));
        };
        let mut steady = SteadyCursor::new(cursor);
        let next = steady.next();
        self.steady = Some(Box::new(self.alloc, steady)?);
        Ok(next)
    }
}

/// The elements of an encoded text for its key: by a lone cursor, which is small, and from the first piece on by a
/// reader of pieces, which stands apart.
#[derive(Drop)]
pub(crate) struct KeyElements<'c, 'd, T: Copy>
where
    FirstChars<T>: CountedText,
{
    alloc: Global,
    lone: ElementCursor<'c, 'd, T, CharElements>,
    pieces: Option<Box<PieceElements<'c, 'd, T>>>,
}

impl<'c, 'd, T: CountedText> KeyElements<'c, 'd, T> {
    ghost use Rattle.icu_element_cursor.specs.Cursors.{lone_gives};
    ghost use Rattle.icu_collator.specs.inner.KeyElements.{key_elements_left};

    /// All elements that a lone cursor still gives.
    #[inline(always)]
    pub(crate) fn new(
        alloc: Global,
        lone: ElementCursor<'c, 'd, T, CharElements>,
    ) -> KeyElements<'c, 'd, T>
        ensures { key_elements_left T.text result ≡ lone_gives T.text lone.entry }
    {
        KeyElements {
            alloc,
            lone,
            pieces: None,
        }
    }

    /// The next element, where a cursor gives it at once. `None` says nothing.
    #[inline(always)]
    fn next_at_once(&mut self) -> Option<CollationElement>
        ensures { key_elements_left T.text self.old
            ≡ option_to_list result ++ key_elements_left T.text self.new }
    {
        match &mut self.pieces {
            None => self.lone.next_at_once(),
            Some(pieces) => pieces.next_at_once(),
        }
    }

    /// The next element, or `None` after the last one, where no cursor gives it at once. Fails only where an allocation
    /// does.
    #[inline(never)]
    fn next_read(&mut self) -> Result<Option<CollationElement>, AllocError>
        ensures next { IfOk result (λ next. key_elements_left T.text self.old
            ≡ option_to_list next ++ key_elements_left T.text self.new) }
        ensures end { IfOk result (λ next. next ≡ None → key_elements_left T.text self.old ≡ []) }
    {
        match &mut self.pieces {
            Some(pieces) => pieces.next_read(),
            None => self.next_ascii(),
        }
    }

    /// The next element, or `None` after the last one, before the first piece: of an ASCII character that is read by
    /// itself, or else of that piece.
    #[inline(always)]
    fn next_ascii(&mut self) -> Result<Option<CollationElement>, AllocError>
        requires { self.old.pieces ≡ None }
        ensures next { IfOk result (λ next. key_elements_left T.text self.old
            ≡ option_to_list next ++ key_elements_left T.text self.new) }
        ensures end { IfOk result (λ next. next ≡ None → key_elements_left T.text self.old ≡ []) }
    {
        match self.lone.next_ascii() {
            Some(element) => Ok(Some(element)),
            None => self.begin_pieces(),
        }
    }

    /// The next element, or `None` after the last one, at the first piece. Out of line: its locals are large.
    #[inline(never)]
    fn begin_pieces(&mut self) -> Result<Option<CollationElement>, AllocError>
        requires { self.old.pieces ≡ None }
        ensures next { IfOk result (λ next. key_elements_left T.text self.old
            ≡ option_to_list next ++ key_elements_left T.text self.new) }
        ensures end { IfOk result (λ next. next ≡ None → key_elements_left T.text self.old ≡ []) }
    {
        let mut pieces = PieceElements::new(self.alloc, self.lone.with_pieces());
        let next = pieces.next_read()?;
        self.pieces = Some(Box::new(self.alloc, pieces)?);
        Ok(next)
    }

    /// Whether no element is left. `false` says nothing.
    #[inline(always)]
    fn is_at_end(&self) -> bool
        ensures { IsTrue result → key_elements_left T.text self.now ≡ [] }
    {
        match &self.pieces {
            None => self.lone.is_at_end(),
            Some(_) => false,
        }
    }

    /// The next element, or `None` after the last one. Fails only where an allocation does.
    #[inline(always)]
    fn next(&mut self) -> Result<Option<CollationElement>, AllocError>
        ensures next { IfOk result (λ next. key_elements_left T.text self.old
            ≡ option_to_list next ++ key_elements_left T.text self.new) }
        ensures end { IfOk result (λ next. next ≡ None → key_elements_left T.text self.old ≡ []) }
    {
        match self.next_at_once() {
            Some(element) => Ok(Some(element)),
            None if self.is_at_end() => Ok(None),
            None => self.next_read(),
        }
    }
}

/// The elements of an encoded text for its key, handled as they are read.
#[derive(Drop)]
pub(crate) struct HandledKeyText<'c, 'd, T: Copy>
where
    FirstChars<T>: CountedText,
{
    elements: KeyElements<'c, 'd, T>,
    weighting: VariableWeighting,
}

impl<'c, 'd, T: CountedText> HandledKeyText<'c, 'd, T> {
    ghost use Rattle.icu_element_cursor.specs.Cursors.{lone_gives};
    ghost use Rattle.icu_collator.specs.inner.KeyElements.{handled_for_key};

    /// All elements that a lone cursor still gives. Variable are those with a primary weight above the merge
    /// separator's and up to `last_variable`: none, where that is 0.
    #[inline(always)]
    pub(crate) fn new(
        alloc: Global,
        cursor: ElementCursor<'c, 'd, T, CharElements>,
        handling: AlternateHandling,
        last_variable: u32,
    ) -> HandledKeyText<'c, 'd, T>
        ensures { handled_for_key T.text result
            ≡ handled handling last_variable false (lone_gives T.text cursor.entry) }
    {
        HandledKeyText {
            elements: KeyElements::new(alloc, cursor),
            weighting: VariableWeighting::new(handling, last_variable),
        }
    }
}

impl<'c, 'd, T: CountedText> HandledSource for HandledKeyText<'c, 'd, T> {
    ghost use Rattle.icu_collator.specs.inner.KeyElements.{handled_for_key};

    type Error = AllocError;

    ghost handled_left = { handled_for_key T.EncodedText.text };

    #[inline(always)]
    fn next_handled(&mut self) -> Result<Option<Handled>, AllocError> {
        'passing: while let Some(element) = self.elements.next()? {
            let next = self.weighting.handle(element);
            if next.is_some() {
                return Ok(next);
            }
        }
        Ok(None)
    }
}

/// The elements of an encoded text of which none is variable, for its key: each stays.
#[derive(Drop)]
pub(crate) struct PlainKeyText<'c, 'd, T: Copy>
where
    FirstChars<T>: CountedText,
{
    elements: KeyElements<'c, 'd, T>,
}

impl<'c, 'd, T: CountedText> PlainKeyText<'c, 'd, T> {
    ghost use Rattle.icu_element_cursor.specs.Cursors.{lone_gives};
    ghost use Rattle.icu_collator.specs.inner.KeyElements.{plain_for_key};

    /// All elements that a lone cursor still gives.
    #[inline(always)]
    pub(crate) fn new(
        alloc: Global,
        cursor: ElementCursor<'c, 'd, T, CharElements>,
    ) -> PlainKeyText<'c, 'd, T>
        ensures { plain_for_key T.text result ≡ map stayed (lone_gives T.text cursor.entry) }
    {
        PlainKeyText {
            elements: KeyElements::new(alloc, cursor),
        }
    }
}

impl<'c, 'd, T: CountedText> HandledSource for PlainKeyText<'c, 'd, T> {
    ghost use Rattle.icu_collator.specs.inner.KeyElements.{plain_for_key};

    type Error = AllocError;

    ghost handled_left = { plain_for_key T.EncodedText.text };

    #[inline(always)]
    fn next_handled(&mut self) -> Result<Option<Handled>, AllocError> {
        match self.elements.next()? {
            Some(element) => Ok(Some(Handled::Stayed(element))),
            None => Ok(None),
        }
    }
}
