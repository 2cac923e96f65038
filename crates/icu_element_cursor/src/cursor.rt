//! The elements of an encoded text, one by one.

ghost use Rattle.std.specs.Prelude.{◌≡◌, ◌≤◌, [], ◌∷◌, ◌++◌, None, IsTrue, length, option_to_list, IfOk, IfErr, OnOk, OnErr};
ghost use Rattle.unicode_normalization.specs.Forms.{nfd};
ghost use Rattle.icu_element_reading.specs.TextElements.{elements_of};
ghost use Rattle.icu_element_facts.specs.FewElements.{few_elements};
ghost use Rattle.icu_element_facts.specs.KeptFacts.{IsNumberDigit, char_elements};
ghost use Rattle.icu_element_cursor.specs.Cursors.{cursor_gives, cursor_reading, gives_with, lone_gives};
ghost use Rattle.icu_element_cursor.specs.inner.AllReady.{all_ready};
ghost use Rattle.icu_element_cursor.specs.inner.Unread.{HasNothingReady, HasReadNothing};
ghost use Rattle.icu_element_cursor.specs.inner.Standing.{BothStandBefore, KeptServes, Serves, StandsAnywhere, StandsBefore};

use crate::char_elements::CharElements;
use crate::cursor_tables::CursorTables;
use crate::digit_run::read_number;
use crate::last_characters::LastCharacters;
use crate::pairs::{ReadPair, read_pair};
use crate::ready_elements::ReadyElements;
use crate::ready_place::ReadyPlace;
use crate::stands::{read_behind, stands_before};
use crate::unjoined::{goes_on_none, is_unjoined};
use crate::{CharFacts, FactsKind, Kept};
use icu_element_facts::FewElements;
use icu_table_entries::CollationElement;
use icu_text_encodings::EncodedText;

/// The characters that come next have to be read together, and are more than 64. Nothing is read of them: a
/// `SteadyCursor` goes on from there.
#[derive(Debug, Clone, Copy)]
pub struct LongPiece;

/// Whether a character begins contractions, and has one element where none goes on.
#[inline(always)]
fn is_base_of_one(facts: &CharFacts) -> bool
    ensures base { IsTrue result → facts.now.kind ≡ FactsKind.Base }
    ensures one { IsTrue result → facts.now.count ≡ 1 }
{
    facts.kind == FactsKind::Base && facts.count == 1
}

/// Reads an encoded text and gives its collation elements, one by one (UTS #10, "Produce Collation Element Arrays"). A
/// character that gives the same elements wherever it stands is read from what is kept of it; any other with what
/// follows it up to the next character before which the text may be cut. It never allocates: where such a piece has
/// more than 64 characters once it is decomposed, it stops.
///
/// A lone cursor, with `CharElements` for what stands ready, stops at each piece; it is small.
#[derive(Debug, Clone, Copy)]
pub struct ElementCursor<'c, 'd, T, R = ReadyElements<'d>> {
    pub(crate) tables: &'c CursorTables<'d>,
    pub(crate) text: T,
    pub(crate) recent: LastCharacters,
    pub(crate) ready: R,
}

impl<'c, 'd, T: EncodedText, R: ReadyPlace> ElementCursor<'c, 'd, T, R> {
    /// The next element, where it stands ready or the next character is read by itself. `None` says nothing: the
    /// elements to come stay the same then.
    #[inline(always)]
    pub fn next_at_once(&mut self) -> Option<CollationElement>
        ensures { gives_with R.ready T.text self.old
            ≡ option_to_list result ++ gives_with R.ready T.text self.new }
    {
        if self.ready.is_empty() {
            self.take_lone()
        } else {
            self.take_ready()
        }
    }

    /// The next of the elements of a character.
    #[inline(always)]
    fn take_ready(&mut self) -> Option<CollationElement>
        ensures next { gives_with R.ready T.text self.old
            ≡ option_to_list result ++ gives_with R.ready T.text self.new }
        ensures text { self.new.text ≡ self.old.text }
        ensures end { result ≡ None → HasNothingReady R.ready self.new }
    {
        self.ready.take_first()
    }

    /// The first element of the next character, where it is read by itself, and all that was read was given. `None`
    /// says nothing.
    #[inline(always)]
    fn take_lone(&mut self) -> Option<CollationElement>
        requires { HasNothingReady R.ready self.old }
        ensures next { gives_with R.ready T.text self.old
            ≡ option_to_list result ++ gives_with R.ready T.text self.new }
    {
        if let Some((byte, rest)) = self.text.split_first_ascii() {
            return self.take_single(char::from(byte), rest);
        }
        self.take_other()
    }

    /// The element of a character that begins the text, where facts are kept of it and it has one, whatever follows.
    #[inline(always)]
    fn take_single(&mut self, c: char, rest: T) -> Option<CollationElement>
        requires nothing { HasNothingReady R.ready self.old }
        requires text { T.text self.old.text ≡ c ∷ T.text rest }
        ensures next { gives_with R.ready T.text self.old
            ≡ option_to_list result ++ gives_with R.ready T.text self.new }
    {
        let tables = self.tables;
        let facts = tables.facts(c)?;
        match facts.kind {
            FactsKind::Starters if facts.count == 1 => self.take_one(c, facts, rest),
            _ => None,
        }
    }

    /// The next element, where nothing stands ready, and the next character is an ASCII one that is read by itself, but
    /// not at once, as a letter that begins contractions. `None` says nothing: the elements to come stay the same then.
    #[inline(never)]
    pub fn next_ascii(&mut self) -> Option<CollationElement>
        ensures { gives_with R.ready T.text self.old
            ≡ option_to_list result ++ gives_with R.ready T.text self.new }
    {
        if !self.ready.is_empty() {
            return None;
        }
        let (byte, rest) = self.text.split_first_ascii()?;
        let c = char::from(byte);
        let tables = self.tables;
        match tables.kept(c) {
            Kept::Facts(facts) if is_base_of_one(facts) && goes_on_none(tables, facts, rest) => {
                self.take_one(c, facts, rest)
            }
            kept => self.take_kept(c, kept, rest),
        }
    }

    /// The element of a character that has one. Nothing stands ready then, and nothing is stored of what does.
    #[inline(always)]
    fn take_one(&mut self, c: char, facts: &CharFacts, rest: T) -> Option<CollationElement>
        requires nothing { HasNothingReady R.ready self.old }
        requires text { T.text self.old.text ≡ c ∷ T.text rest }
        requires stands { StandsBefore (cursor_reading self.old.tables.now) c
            (char_elements facts.now) (T.text rest) }
        requires one { facts.now.count ≡ 1 }
        ensures next { gives_with R.ready T.text self.old
            ≡ option_to_list result ++ gives_with R.ready T.text self.new }
    {
        self.text = rest;
        self.recent.push(c);
        let elements = &facts.elements[..];
        Some(elements[0])
    }

    /// The first element of the next character, which isn't ASCII, where it is read by itself. What most letters take
    /// stands where it is asked for.
    #[inline(always)]
    fn take_other(&mut self) -> Option<CollationElement>
        requires { HasNothingReady R.ready self.old }
        ensures next { gives_with R.ready T.text self.old
            ≡ option_to_list result ++ gives_with R.ready T.text self.new }
    {
        let (c, rest) = self.text.split_first_char()?;
        let tables = self.tables;
        match tables.kept(c) {
            Kept::Own => self.take_own(c, rest),
            Kept::Facts(facts) if facts.kind == FactsKind::Starters && facts.count == 1 => {
                self.take_one(c, facts, rest)
            }
            kept => self.take_kept(c, kept, rest),
        }
    }

    /// The first element of a character of which this is kept, where it is read by itself. Out of line: most letters
    /// are read without it.
    #[inline(never)]
    fn take_kept(&mut self, c: char, kept: Kept<'_>, rest: T) -> Option<CollationElement>
        requires nothing { HasNothingReady R.ready self.old }
        requires text { T.text self.old.text ≡ c ∷ T.text rest }
        requires kept { KeptServes (cursor_reading self.old.tables.now) c kept }
        ensures next { gives_with R.ready T.text self.old
            ≡ option_to_list result ++ gives_with R.ready T.text self.new }
    {
        match kept {
            Kept::Own => self.take_own(c, rest),
            Kept::Facts(facts) if facts.kind == FactsKind::Mark => self.take_mark(c, facts, rest),
            Kept::Facts(facts) if facts.kind == FactsKind::Base => self.take_base(c, facts, rest),
            Kept::Facts(facts) => self.take_char(c, facts, rest),
            Kept::Nothing => self.take_syllable(c, rest),
        }
    }

    /// The element of a character that gives the elements of its entry wherever it stands, where that is one.
    #[inline(always)]
    fn take_own(&mut self, c: char, rest: T) -> Option<CollationElement>
        requires nothing { HasNothingReady R.ready self.old }
        requires text { T.text self.old.text ≡ c ∷ T.text rest }
        requires own { StandsAnywhere (cursor_reading self.old.tables.now) c }
        ensures next { gives_with R.ready T.text self.old
            ≡ option_to_list result ++ gives_with R.ready T.text self.new }
    {
        let element = self.tables.own_element(c)?;
        self.text = rest;
        self.recent.push(c);
        Some(element)
    }

    /// The first element of a character of which this is known, where it is read by itself. The others are kept. Out of
    /// line, so that it is one test whether a character is a mark, as each fifth is in many scripts of India.
    #[inline(never)]
    fn take_char(&mut self, c: char, facts: &CharFacts, rest: T) -> Option<CollationElement>
        requires nothing { HasNothingReady R.ready self.old }
        requires text { T.text self.old.text ≡ c ∷ T.text rest }
        requires facts { Serves (cursor_reading self.old.tables.now) c facts.now }
        ensures next { gives_with R.ready T.text self.old
            ≡ option_to_list result ++ gives_with R.ready T.text self.new }
    {
        if !stands_before(self.tables, facts, rest) {
            return None;
        }
        self.take_alone(c, facts, rest)
    }

    /// The first element of a character that stands before the rest. The others are kept.
    #[inline(always)]
    fn take_alone(&mut self, c: char, facts: &CharFacts, rest: T) -> Option<CollationElement>
        requires nothing { HasNothingReady R.ready self.old }
        requires text { T.text self.old.text ≡ c ∷ T.text rest }
        requires stands { StandsBefore (cursor_reading self.old.tables.now) c
            (char_elements facts.now) (T.text rest) }
        ensures next { gives_with R.ready T.text self.old
            ≡ option_to_list result ++ gives_with R.ready T.text self.new }
    {
        if facts.count == 1 {
            return self.take_one(c, facts, rest);
        }
        self.read_facts(c, facts, rest)
    }

    /// The first element of a mark, which is read with the next character where that one may be read by itself too. The
    /// others are kept.
    #[inline(always)]
    fn take_mark(&mut self, c: char, facts: &CharFacts, rest: T) -> Option<CollationElement>
        requires nothing { HasNothingReady R.ready self.old }
        requires text { T.text self.old.text ≡ c ∷ T.text rest }
        requires facts { Serves (cursor_reading self.old.tables.now) c facts.now }
        requires mark { facts.now.kind ≡ FactsKind.Mark }
        ensures next { gives_with R.ready T.text self.old
            ≡ option_to_list result ++ gives_with R.ready T.text self.new }
    {
        let tables = self.tables;
        let found = read_behind(tables, facts.class, rest)?;
        match found {
            Some(next) if facts.count == 1 => self.take_both(c, facts, rest, next),
            _ => self.read_facts(c, facts, rest),
        }
    }

    /// The element of a character that has one, and is read with the next character. The elements of that one are kept.
    #[inline(always)]
    fn take_both(
        &mut self,
        c: char,
        facts: &CharFacts,
        rest: T,
        next: (char, &CharFacts, T),
    ) -> Option<CollationElement>
        requires nothing { HasNothingReady R.ready self.old }
        requires text { T.text self.old.text ≡ c ∷ T.text rest }
        requires stands { StandsBefore (cursor_reading self.old.tables.now) c
            (char_elements facts.now) (T.text rest) }
        requires one { facts.now.count ≡ 1 }
        requires next { T.text rest ≡ next.0 ∷ T.text next.2 }
        requires next_stands { StandsBefore (cursor_reading self.old.tables.now) next.0
            (char_elements next.1.now) (T.text next.2) }
        ensures next { gives_with R.ready T.text self.old
            ≡ option_to_list result ++ gives_with R.ready T.text self.new }
    {
        self.text = next.2;
        self.recent.push(c);
        self.recent.push(next.0);
        self.ready.keep(next.1);
        let elements = &facts.elements[..];
        Some(elements[0])
    }

    /// The first element of a character that begins contractions, by itself where none goes on, or with the next one
    /// where a contraction joins them. The others are kept.
    #[inline(never)]
    fn take_base(&mut self, c: char, facts: &CharFacts, rest: T) -> Option<CollationElement>
        requires nothing { HasNothingReady R.ready self.old }
        requires text { T.text self.old.text ≡ c ∷ T.text rest }
        requires facts { Serves (cursor_reading self.old.tables.now) c facts.now }
        requires base { facts.now.kind ≡ FactsKind.Base }
        ensures next { gives_with R.ready T.text self.old
            ≡ option_to_list result ++ gives_with R.ready T.text self.new }
    {
        if goes_on_none(self.tables, facts, rest) {
            return self.take_alone(c, facts, rest);
        }
        let tables = self.tables;
        match read_pair(tables, c, rest) {
            Some(read) => self.take_pair(c, rest, read),
            None => self.take_unjoined(c, facts, rest),
        }
    }

    /// The first element of two characters that a contraction joins. The others are kept.
    #[inline(always)]
    fn take_pair(&mut self, c: char, rest: T, read: ReadPair<'c, T>) -> Option<CollationElement>
        requires nothing { HasNothingReady R.ready self.old }
        requires text { T.text self.old.text ≡ c ∷ T.text rest }
        requires next { T.text rest ≡ read.second ∷ T.text read.rest }
        requires stand { BothStandBefore (cursor_reading self.old.tables.now) c read.second
            (few_elements read.pair.now.few) (T.text read.rest) }
        ensures next { gives_with R.ready T.text self.old
            ≡ option_to_list result ++ gives_with R.ready T.text self.new }
        ensures shorter { length (T.text self.new.text) ≤ length (T.text rest) }
    {
        self.text = read.rest;
        self.recent.push(c);
        self.recent.push(read.second);
        self.ready.begin_few(&read.pair.few)
    }

    /// The first element of a character that begins contractions, where none goes on. The others are kept.
    #[inline(always)]
    fn take_unjoined(&mut self, c: char, facts: &CharFacts, rest: T) -> Option<CollationElement>
        requires nothing { HasNothingReady R.ready self.old }
        requires text { T.text self.old.text ≡ c ∷ T.text rest }
        requires facts { Serves (cursor_reading self.old.tables.now) c facts.now }
        requires base { facts.now.kind ≡ FactsKind.Base }
        ensures next { gives_with R.ready T.text self.old
            ≡ option_to_list result ++ gives_with R.ready T.text self.new }
    {
        if !is_unjoined(self.tables, c, rest) {
            return None;
        }
        self.take_alone(c, facts, rest)
    }

    /// The first element of a Hangul syllable, by its jamo. The others are kept.
    #[inline(always)]
    fn take_syllable(&mut self, c: char, rest: T) -> Option<CollationElement>
        requires nothing { HasNothingReady R.ready self.old }
        requires text { T.text self.old.text ≡ c ∷ T.text rest }
        ensures next { gives_with R.ready T.text self.old
            ≡ option_to_list result ++ gives_with R.ready T.text self.new }
    {
        let few = self.tables.syllable_elements(c)?;
        self.read_few(c, &few, rest)
    }

    /// Reads a character that gives these elements. The first is given, and the others are kept.
    #[inline(always)]
    fn read_few(&mut self, c: char, few: &FewElements, rest: T) -> Option<CollationElement>
        requires nothing { HasNothingReady R.ready self.old }
        requires text { T.text self.old.text ≡ c ∷ T.text rest }
        requires stands { StandsBefore (cursor_reading self.old.tables.now) c (few_elements few.now)
            (T.text rest) }
        ensures next { gives_with R.ready T.text self.old
            ≡ option_to_list result ++ gives_with R.ready T.text self.new }
        ensures shorter { length (T.text self.new.text) ≤ length (T.text rest) }
    {
        self.text = rest;
        self.recent.push(c);
        self.ready.begin_few(few)
    }

    /// Reads a character that gives the elements of these facts. The first is given, and the others are kept.
    #[inline(always)]
    fn read_facts(&mut self, c: char, facts: &CharFacts, rest: T) -> Option<CollationElement>
        requires nothing { HasNothingReady R.ready self.old }
        requires text { T.text self.old.text ≡ c ∷ T.text rest }
        requires stands { StandsBefore (cursor_reading self.old.tables.now) c
            (char_elements facts.now) (T.text rest) }
        ensures next { gives_with R.ready T.text self.old
            ≡ option_to_list result ++ gives_with R.ready T.text self.new }
        ensures shorter { length (T.text self.new.text) ≤ length (T.text rest) }
    {
        self.text = rest;
        self.recent.push(c);
        self.ready.begin(facts)
    }
}

impl<'c, 'd, T: EncodedText> ElementCursor<'c, 'd, T> {
    /// Reads a text, by these tables.
    #[inline(always)]
    pub fn new(tables: &'c CursorTables<'d>, text: T) -> ElementCursor<'c, 'd, T>
        ensures { cursor_gives T.text result
            ≡ elements_of (cursor_reading tables.entry.now) (nfd (T.text text)) }
    {
        ElementCursor {
            tables,
            text,
            recent: LastCharacters::new(),
            ready: ReadyElements::none(tables.reading()),
        }
    }

    /// The next element, or `None` after the last one. `LongPiece` where the characters that come next have to be read
    /// together and are more than 64: the elements to come stay the same then. Most characters are read where it is
    /// called, without a call.
    #[inline(always)]
    pub fn next(&mut self) -> Result<Option<CollationElement>, LongPiece>
        ensures next { IfOk result (λ next. cursor_gives T.text self.old
            ≡ option_to_list next ++ cursor_gives T.text self.new) }
        ensures end { IfOk result (λ next. next ≡ None → cursor_gives T.text self.old ≡ []) }
        ensures stays { OnErr result (cursor_gives T.text self.new
            ≡ cursor_gives T.text self.old) }
    {
        match self.next_at_once() {
            Some(element) => Ok(Some(element)),
            None => self.next_read(),
        }
    }

    /// The next element, or `None` after the last one, where `next_at_once` had none: `next` is the two in turn.
    #[inline(always)]
    pub fn next_read(&mut self) -> Result<Option<CollationElement>, LongPiece>
        ensures next { IfOk result (λ next. cursor_gives T.text self.old
            ≡ option_to_list next ++ cursor_gives T.text self.new) }
        ensures end { IfOk result (λ next. next ≡ None → cursor_gives T.text self.old ≡ []) }
        ensures stays { OnErr result (cursor_gives T.text self.new
            ≡ cursor_gives T.text self.old) }
    {
        self.read_next()
    }

    /// The next element, or `None` after the last one, of a text whose next character isn't read at once.
    #[inline(never)]
    pub(crate) fn read_next(&mut self) -> Result<Option<CollationElement>, LongPiece>
        ensures next { IfOk result (λ next. cursor_gives T.text self.old
            ≡ option_to_list next ++ cursor_gives T.text self.new) }
        ensures end { IfOk result (λ next. next ≡ None → cursor_gives T.text self.old ≡ []) }
        ensures stays { OnErr result (cursor_gives T.text self.new
            ≡ cursor_gives T.text self.old) }
        ensures nothing { OnErr result (HasNothingReady all_ready self.new) }
        ensures shorter { OnErr result
            (length (T.text self.new.text) ≤ length (T.text self.old.text)) }
    {
        'turns: loop {
            if let Some(element) = self.take_ready() {
                return Ok(Some(element));
            }
            let Some((c, rest)) = self.text.split_first_char() else {
                return Ok(None);
            };
            if let Some(element) = self.read_from(c, rest)? {
                return Ok(Some(element));
            }
        }
    }

    /// Reads a character by itself, or else the piece that it begins, and gives the first element. The others are kept.
    /// `rest` is what follows the character.
    #[inline(always)]
    fn read_from(&mut self, c: char, rest: T) -> Result<Option<CollationElement>, LongPiece>
        requires nothing { HasNothingReady all_ready self.old }
        requires text { T.text self.old.text ≡ c ∷ T.text rest }
        ensures next { IfOk result (λ first. cursor_gives T.text self.old
            ≡ option_to_list first ++ cursor_gives T.text self.new) }
        ensures shorter { OnOk result (length (T.text self.new.text) ≤ length (T.text rest)) }
        ensures stays { OnErr result (HasReadNothing T.text self.old self.new) }
    {
        let tables = self.tables;
        match tables.kept(c) {
            Kept::Own => self.read_own(c, rest),
            Kept::Facts(facts) => self.read_char(c, facts, rest),
            Kept::Nothing => self.read_other(c, rest),
        }
    }

    /// Reads a character that gives the elements of its entry wherever it stands.
    #[inline(always)]
    fn read_own(&mut self, c: char, rest: T) -> Result<Option<CollationElement>, LongPiece>
        requires nothing { HasNothingReady all_ready self.old }
        requires text { T.text self.old.text ≡ c ∷ T.text rest }
        requires own { StandsAnywhere (cursor_reading self.old.tables.now) c }
        ensures next { IfOk result (λ first. cursor_gives T.text self.old
            ≡ option_to_list first ++ cursor_gives T.text self.new) }
        ensures shorter { OnOk result (length (T.text self.new.text) ≤ length (T.text rest)) }
        ensures stays { OnErr result (HasReadNothing T.text self.old self.new) }
    {
        match self.tables.own_element(c) {
            Some(element) => {
                self.text = rest;
                self.recent.push(c);
                Ok(Some(element))
            }
            None => self.read_own_elements(c, rest),
        }
    }

    /// Reads such a character where its entry gives more elements than one, or none.
    #[inline(never)]
    fn read_own_elements(&mut self, c: char, rest: T) -> Result<Option<CollationElement>, LongPiece>
        requires nothing { HasNothingReady all_ready self.old }
        requires text { T.text self.old.text ≡ c ∷ T.text rest }
        requires own { StandsAnywhere (cursor_reading self.old.tables.now) c }
        ensures next { IfOk result (λ first. cursor_gives T.text self.old
            ≡ option_to_list first ++ cursor_gives T.text self.new) }
        ensures shorter { OnOk result (length (T.text self.new.text) ≤ length (T.text rest)) }
        ensures stays { OnErr result (HasReadNothing T.text self.old self.new) }
    {
        match self.tables.own_elements(c) {
            Some(few) => Ok(self.read_few(c, &few, rest)),
            None => self.read_piece(c, rest),
        }
    }

    /// Reads a character of which nothing is kept: a Hangul syllable by its jamo, and any other by what is worked out
    /// of it.
    #[inline(never)]
    fn read_other(&mut self, c: char, rest: T) -> Result<Option<CollationElement>, LongPiece>
        requires nothing { HasNothingReady all_ready self.old }
        requires text { T.text self.old.text ≡ c ∷ T.text rest }
        ensures next { IfOk result (λ first. cursor_gives T.text self.old
            ≡ option_to_list first ++ cursor_gives T.text self.new) }
        ensures shorter { OnOk result (length (T.text self.new.text) ≤ length (T.text rest)) }
        ensures stays { OnErr result (HasReadNothing T.text self.old self.new) }
    {
        match self.tables.syllable_elements(c) {
            Some(few) => Ok(self.read_few(c, &few, rest)),
            None => self.read_rare(c, rest),
        }
    }

    /// Reads a character of which all has to be worked out. Out of line: a function clears its locals each time that it
    /// is called, and what is known of such a character is one.
    #[inline(never)]
    fn read_rare(&mut self, c: char, rest: T) -> Result<Option<CollationElement>, LongPiece>
        requires nothing { HasNothingReady all_ready self.old }
        requires text { T.text self.old.text ≡ c ∷ T.text rest }
        ensures next { IfOk result (λ first. cursor_gives T.text self.old
            ≡ option_to_list first ++ cursor_gives T.text self.new) }
        ensures shorter { OnOk result (length (T.text self.new.text) ≤ length (T.text rest)) }
        ensures stays { OnErr result (HasReadNothing T.text self.old self.new) }
    {
        let facts = self.tables.other_facts(c);
        self.read_char(c, &facts, rest)
    }

    /// Reads a character of which this is known, by itself or with what stands around it.
    #[inline(always)]
    fn read_char(
        &mut self,
        c: char,
        facts: &CharFacts,
        rest: T,
    ) -> Result<Option<CollationElement>, LongPiece>
        requires nothing { HasNothingReady all_ready self.old }
        requires text { T.text self.old.text ≡ c ∷ T.text rest }
        requires facts { Serves (cursor_reading self.old.tables.now) c facts.now }
        ensures next { IfOk result (λ first. cursor_gives T.text self.old
            ≡ option_to_list first ++ cursor_gives T.text self.new) }
        ensures shorter { OnOk result (length (T.text self.new.text) ≤ length (T.text rest)) }
        ensures stays { OnErr result (HasReadNothing T.text self.old self.new) }
    {
        if stands_before(self.tables, facts, rest) {
            return Ok(self.read_facts(c, facts, rest));
        }
        if facts.kind == FactsKind::Base {
            return self.read_base(c, facts, rest);
        }
        self.read_group(c, facts, rest)
    }

    /// Reads a character that begins contractions with the next one, where a contraction joins them, or else with what
    /// stands around it.
    #[inline(never)]
    fn read_base(
        &mut self,
        c: char,
        facts: &CharFacts,
        rest: T,
    ) -> Result<Option<CollationElement>, LongPiece>
        requires nothing { HasNothingReady all_ready self.old }
        requires text { T.text self.old.text ≡ c ∷ T.text rest }
        requires facts { Serves (cursor_reading self.old.tables.now) c facts.now }
        ensures next { IfOk result (λ first. cursor_gives T.text self.old
            ≡ option_to_list first ++ cursor_gives T.text self.new) }
        ensures shorter { OnOk result (length (T.text self.new.text) ≤ length (T.text rest)) }
        ensures stays { OnErr result (HasReadNothing T.text self.old self.new) }
    {
        let tables = self.tables;
        match read_pair(tables, c, rest) {
            Some(read) => Ok(self.take_pair(c, rest, read)),
            None => self.read_group(c, facts, rest),
        }
    }

    /// Reads the number that a character begins, or the piece.
    #[inline(always)]
    fn read_group(
        &mut self,
        c: char,
        facts: &CharFacts,
        rest: T,
    ) -> Result<Option<CollationElement>, LongPiece>
        requires nothing { HasNothingReady all_ready self.old }
        requires text { T.text self.old.text ≡ c ∷ T.text rest }
        requires facts { Serves (cursor_reading self.old.tables.now) c facts.now }
        ensures next { IfOk result (λ first. cursor_gives T.text self.old
            ≡ option_to_list first ++ cursor_gives T.text self.new) }
        ensures shorter { OnOk result (length (T.text self.new.text) ≤ length (T.text rest)) }
        ensures stays { OnErr result (HasReadNothing T.text self.old self.new) }
    {
        match facts.digit {
            Some(digit) => self.read_digits(c, digit, rest),
            None => self.read_piece(c, rest),
        }
    }

    /// Reads the number that a digit begins, where digits are read as numbers and the text may be cut after it, or else
    /// the piece.
    #[inline(never)]
    fn read_digits(
        &mut self,
        c: char,
        digit: u8,
        rest: T,
    ) -> Result<Option<CollationElement>, LongPiece>
        requires nothing { HasNothingReady all_ready self.old }
        requires text { T.text self.old.text ≡ c ∷ T.text rest }
        requires digit { IsNumberDigit (cursor_reading self.old.tables.now) c digit }
        ensures next { IfOk result (λ first. cursor_gives T.text self.old
            ≡ option_to_list first ++ cursor_gives T.text self.new) }
        ensures shorter { OnOk result (length (T.text self.new.text) ≤ length (T.text rest)) }
        ensures stays { OnErr result (HasReadNothing T.text self.old self.new) }
    {
        let Some(lead) = self.tables.reading().numeric_primary else {
            return self.read_piece(c, rest);
        };
        let Some(read) = read_number(self.tables, lead, c, digit, rest) else {
            return self.read_piece(c, rest);
        };
        self.text = read.1;
        Ok(self.ready.begin_number(&read.0))
    }

    /// Reads the piece that a character begins, where it is short, and gives its first element. Out of line: pieces are
    /// rare.
    #[inline(never)]
    fn read_piece(&mut self, c: char, rest: T) -> Result<Option<CollationElement>, LongPiece>
        requires nothing { HasNothingReady all_ready self.old }
        requires text { T.text self.old.text ≡ c ∷ T.text rest }
        ensures next { IfOk result (λ first. cursor_gives T.text self.old
            ≡ option_to_list first ++ cursor_gives T.text self.new) }
        ensures shorter { OnOk result (length (T.text self.new.text) ≤ length (T.text rest)) }
        ensures stays { OnErr result (HasReadNothing T.text self.old self.new) }
    {
        let Some(left) = self.ready.begin_piece(self.tables, self.recent, c, rest) else {
            return Err(LongPiece);
        };
        self.text = left;
        Ok(self.take_ready())
    }
}

impl<'c, 'd, T: EncodedText> ElementCursor<'c, 'd, T, CharElements> {
    /// Reads a text, by these tables, and stops at each piece: no call but `next_at_once` reads.
    #[inline(always)]
    pub fn lone(tables: &'c CursorTables<'d>, text: T) -> ElementCursor<'c, 'd, T, CharElements>
        ensures { lone_gives T.text result
            ≡ elements_of (cursor_reading tables.entry.now) (nfd (T.text text)) }
    {
        ElementCursor {
            tables,
            text,
            recent: LastCharacters::new(),
            ready: CharElements::none(),
        }
    }

    /// Whether no element is left. `false` says nothing.
    #[inline(always)]
    pub fn is_at_end(&self) -> bool
        ensures { IsTrue result → lone_gives T.text self.now ≡ [] }
    {
        match self.text.split_first_char() {
            Some(_) => false,
            None => self.ready.is_empty(),
        }
    }

    /// Goes on where this one stands, and reads pieces.
    pub fn with_pieces(&self) -> ElementCursor<'c, 'd, T>
        ensures { cursor_gives T.text result ≡ lone_gives T.text self.now }
    {
        ElementCursor {
            tables: self.tables,
            text: self.text,
            recent: self.recent,
            ready: ReadyElements::of_char(self.ready, self.tables.reading()),
        }
    }
}
