//! The key of a text, from its elements as they are handled.

ghost use Rattle.std.specs.Prelude.{◌≡◌, ◌∷◌, List};
ghost use Rattle.std.specs.List.{AllByRecursion};
ghost use Rattle.icu_order_levels.specs.Keys.{key_bytes};
ghost use Rattle.icu_key_writers.specs.KeyWrites.{KeyWrites, WritesKey};
ghost use Rattle.icu_order_texts.specs.weighting.Levels.{level_lists};
ghost use Rattle.icu_order_texts.specs.weighting.HandledSources.{HasCase, handled_as};
ghost use Rattle.icu_key_texts.specs.CommonRests.{common_rest};
ghost use Rattle.icu_key_texts.specs.KeyRests.{key_rest, HasForm};
ghost use Rattle.icu_key_texts.specs.ThreeRests.{three_rest, HasTertiaryForm};
ghost use Rattle.icu_key_texts.specs.UsualForms.{form_of, form_of_three};

use crate::common_elements::CommonElements;
use crate::level_pair::TwoLevels;
use crate::next_element::next_element;
use crate::usual_forms::{UsualForm, tertiary_of_three, usual_form};
use crate::writer::KeyWriter;
use crate::written_form::{
    CaseLevelKey, LowerFirstKey, PrimaryKey, QuaternaryKey, SecondaryKey, TertiaryKey,
    UnshiftedKey, UpperFirstKey, WrittenForm,
};
use icu_key_writers::parts::end_key;
use icu_key_writers::primaries::PrimaryCompression;
use icu_key_writers::{CollationKeySink, SortKeyError};
use icu_order_levels::forms::{KeyForm, TertiaryForm};
use icu_order_texts::weighting::{Handled, HandledSource};
use std::alloc::{AllocError, Global};

/// Writes the rest of a key, of the elements that are still to come.
#[inline(always)]
fn write_elements<
    F: WrittenForm,
    S: CollationKeySink,
    C: PrimaryCompression,
    H: HandledSource<Error = AllocError>,
>(
    form: &F,
    sink: &mut S,
    state: &mut S::State,
    compression: &mut C,
    writer: &mut KeyWriter,
    elements: &mut H,
    characters: &[char],
) -> Result<(), SortKeyError<S::Error>>
    requires sound { S.is_sound sink.old state.old }
    requires form { HasForm (F.form_written form.now) writer.old.levels }
    requires cases { AllByRecursion HasCase (H.handled_left elements.old) }
    ensures sound { S.is_sound sink.new state.new }
    ensures bytes { KeyWrites S.effects sink.old state.old
        (key_rest (C.compression compression.old) (F.form_written form.now) writer.old
        characters.now (H.handled_left elements.old))
        result sink.new state.new }
{
    'writing: while let Some(element) = next_element(elements)? {
        writer.push(form, sink, state, compression, element)?;
    }
    writer.close(form, sink, state, characters)
}

/// Writes the rest of a key of three levels, of the elements that are still to come.
#[inline(always)]
fn write_held<S: CollationKeySink, C: PrimaryCompression, H: HandledSource<Error = AllocError>>(
    form: TertiaryForm,
    identical: bool,
    sink: &mut S,
    state: &mut S::State,
    compression: &mut C,
    commons: &mut CommonElements,
    levels: &mut TwoLevels,
    elements: &mut H,
    characters: &[char],
) -> Result<(), SortKeyError<S::Error>>
    requires sound { S.is_sound sink.old state.old }
    requires form { HasTertiaryForm form levels.old }
    requires cases { AllByRecursion HasCase (H.handled_left elements.old) }
    ensures sound { S.is_sound sink.new state.new }
    ensures bytes { KeyWrites S.effects sink.old state.old
        (three_rest (C.compression compression.old) form identical commons.old levels.old
        characters.now (H.handled_left elements.old))
        result sink.new state.new }
{
    'writing: while let Some(element) = next_element(elements)? {
        commons.push_next(form, sink, state, compression, levels, element)?;
    }
    commons.close_held(form, identical, sink, state, levels, characters)
}

/// Writes the rest of a key of three levels, from an element on whose weights aren't common beside its primary, or
/// which is shifted.
#[inline(always)]
fn write_from<S: CollationKeySink, C: PrimaryCompression, H: HandledSource<Error = AllocError>>(
    alloc: Global,
    form: TertiaryForm,
    identical: bool,
    sink: &mut S,
    state: &mut S::State,
    compression: &mut C,
    begun: CommonElements,
    element: Handled,
    elements: &mut H,
    characters: &[char],
) -> Result<(), SortKeyError<S::Error>>
    requires sound { S.is_sound sink.old state.old }
    requires case { HasCase (handled_as element) }
    requires cases { AllByRecursion HasCase (H.handled_left elements.old) }
    ensures sound { S.is_sound sink.new state.new }
    ensures bytes { KeyWrites S.effects sink.old state.old
        (common_rest (C.compression compression.old) form identical begun characters.now
        (handled_as element ∷ H.handled_left elements.old))
        result sink.new state.new }
{
    let mut commons = begun;
    let mut levels = TwoLevels::new(alloc, form);
    commons.push_handled(form, sink, state, compression, &mut levels, element)?;
    write_held(
        form,
        identical,
        sink,
        state,
        compression,
        &mut commons,
        &mut levels,
        elements,
        characters,
    )
}

/// Writes all levels of a key of three levels. Elements are counted as long as their weights beside the primary are
/// common, and no level is held until one comes whose weights aren't.
#[inline(always)]
fn write_three_levels<
    F: WrittenForm,
    S: CollationKeySink,
    C: PrimaryCompression,
    H: HandledSource<Error = AllocError>,
>(
    alloc: Global,
    form: &F,
    tertiary: TertiaryForm,
    sink: &mut S,
    state: &mut S::State,
    compression: &mut C,
    elements: &mut H,
    characters: &[char],
) -> Result<(), SortKeyError<S::Error>>
    requires sound { S.is_sound sink.old state.old }
    requires form { F.form_written form.now
        ≡ form_of_three tertiary (F.form_written form.now).identical }
    requires cases { AllByRecursion HasCase (H.handled_left elements.old) }
    ensures sound { S.is_sound sink.new state.new }
    ensures bytes { let c = C.compression compression.old in let f = F.form_written form.now in
        KeyWrites S.effects sink.old state.old
        (key_bytes c f (level_lists c.reorder f (H.handled_left elements.old) characters.now))
        result sink.new state.new }
{
    let identical = form.form().identical;
    let mut commons = CommonElements::new();
    'counting: while let Some(next) = next_element(elements)? {
        let Some(element) = commons.takes(&next) else {
            return write_from(
                alloc,
                tertiary,
                identical,
                sink,
                state,
                compression,
                commons,
                next,
                elements,
                characters,
            );
        };
        commons.push(sink, state, compression, element)?;
    }
    commons.close(tertiary, identical, sink, state, characters)
}

/// Writes all levels of a key of this form. Not inlined: code for a form has a frame of its own, and clears no locals
/// of another.
#[inline(never)]
fn write_in_form<
    F: WrittenForm,
    S: CollationKeySink,
    C: PrimaryCompression,
    H: HandledSource<Error = AllocError>,
>(
    alloc: Global,
    form: &F,
    sink: &mut S,
    state: &mut S::State,
    compression: &C,
    elements: &mut H,
    characters: &[char],
) -> Result<(), SortKeyError<S::Error>>
    requires sound { S.is_sound sink.old state.old }
    requires cases { AllByRecursion HasCase (H.handled_left elements.old) }
    ensures sound { S.is_sound sink.new state.new }
    ensures bytes { let c = C.compression compression.now in let f = F.form_written form.now in
        KeyWrites S.effects sink.old state.old
        (key_bytes c f (level_lists c.reorder f (H.handled_left elements.old) characters.now))
        result sink.new state.new }
{
    let mut known = *compression;
    if let Some(tertiary) = tertiary_of_three(form.form()) {
        return write_three_levels(
            alloc, form, tertiary, sink, state, &mut known, elements, characters,
        );
    }
    let mut writer = KeyWriter::begin(alloc, form);
    write_elements(
        form,
        sink,
        state,
        &mut known,
        &mut writer,
        elements,
        characters,
    )
}

/// Writes all levels of a key of a usual form, each by code of its own.
#[inline(always)]
fn write_usual<S: CollationKeySink, C: PrimaryCompression, H: HandledSource<Error = AllocError>>(
    alloc: Global,
    usual: UsualForm,
    identical: bool,
    sink: &mut S,
    state: &mut S::State,
    compression: &C,
    elements: &mut H,
    characters: &[char],
) -> Result<(), SortKeyError<S::Error>>
    requires sound { S.is_sound sink.old state.old }
    requires cases { AllByRecursion HasCase (H.handled_left elements.old) }
    ensures sound { S.is_sound sink.new state.new }
    ensures bytes { KeyWrites S.effects sink.old state.old
        (key_bytes (C.compression compression.now) (form_of usual identical)
        (level_lists (C.compression compression.now).reorder (form_of usual identical)
        (H.handled_left elements.old) characters.now))
        result sink.new state.new }
{
    match usual {
        UsualForm::Primary => {
            let form = PrimaryKey { identical };
            write_in_form(alloc, &form, sink, state, compression, elements, characters)
        }
        UsualForm::Secondary => {
            let form = SecondaryKey { identical };
            write_in_form(alloc, &form, sink, state, compression, elements, characters)
        }
        UsualForm::Tertiary => {
            let form = TertiaryKey { identical };
            write_in_form(alloc, &form, sink, state, compression, elements, characters)
        }
        UsualForm::LowerFirst => {
            let form = LowerFirstKey { identical };
            write_in_form(alloc, &form, sink, state, compression, elements, characters)
        }
        UsualForm::UpperFirst => {
            let form = UpperFirstKey { identical };
            write_in_form(alloc, &form, sink, state, compression, elements, characters)
        }
        UsualForm::Quaternary => {
            let form = QuaternaryKey { identical };
            write_in_form(alloc, &form, sink, state, compression, elements, characters)
        }
        UsualForm::Unshifted => {
            let form = UnshiftedKey { identical };
            write_in_form(alloc, &form, sink, state, compression, elements, characters)
        }
        UsualForm::CaseLevel => {
            let form = CaseLevelKey { identical };
            write_in_form(alloc, &form, sink, state, compression, elements, characters)
        }
    }
}

/// Writes all levels of a key. The forms that keys mostly have are told apart here, once. Each is a type, so that code
/// is built for it which asks for no level at an element.
#[inline(always)]
fn write_levels<S: CollationKeySink, C: PrimaryCompression, H: HandledSource<Error = AllocError>>(
    alloc: Global,
    form: KeyForm,
    sink: &mut S,
    state: &mut S::State,
    compression: &C,
    elements: &mut H,
    characters: &[char],
) -> Result<(), SortKeyError<S::Error>>
    requires sound { S.is_sound sink.old state.old }
    requires cases { AllByRecursion HasCase (H.handled_left elements.old) }
    ensures sound { S.is_sound sink.new state.new }
    ensures bytes { KeyWrites S.effects sink.old state.old
        (key_bytes (C.compression compression.now) form
        (level_lists (C.compression compression.now).reorder form
        (H.handled_left elements.old) characters.now))
        result sink.new state.new }
{
    match usual_form(form) {
        Some(usual) => {
            write_usual(
                alloc,
                usual,
                form.identical,
                sink,
                state,
                compression,
                elements,
                characters,
            )
        }
        None => write_in_form(alloc, &form, sink, state, compression, elements, characters),
    }
}

/// Writes the key of a text to a sink, and ends it, from the state that keys begin with (UTS #10, "Form Sort Keys"). It
/// is of its elements, as variable weighting leaves them, and of all characters of its decomposition, which count at
/// the identical level alone.
///
/// `Ok` means that the sink took the whole key, and is what `finish` returned. `Sink` is the sink's own error: what a
/// write returned after a beginning of the key was taken, or what `finish` returned after the whole key. `NoMemory`
/// says that an allocation failed, of a level that is held or of what gives the elements; a beginning of the key was
/// taken.
pub fn write_key<S: CollationKeySink, C: PrimaryCompression, H: HandledSource<Error = AllocError>>(
    alloc: Global,
    sink: &mut S,
    compression: &C,
    form: KeyForm,
    elements: &mut H,
    characters: &[char],
) -> Result<S::Output, SortKeyError<S::Error>>
    requires { AllByRecursion HasCase (H.handled_left elements.old) }
    ensures { WritesKey S.effects sink.old
        (key_bytes (C.compression compression.now) form
        (level_lists (C.compression compression.now).reorder form
        (H.handled_left elements.old) characters.now))
        result sink.new }
{
    let mut state = S::State::default();
    let written = write_levels(
        alloc,
        form,
        sink,
        &mut state,
        compression,
        elements,
        characters,
    );
    end_key(sink, state, written)
}
