//! The order of two texts.

ghost use Rattle.std.specs.Prelude.{◌≡◌, IfNone, IfSome};
ghost use Rattle.icu_text_encodings.specs.DecodedTexts.{latin1_text, utf16_text, utf8_text};
ghost use Rattle.icu_order_levels.specs.ListOrder.{list_order};
ghost use Rattle.icu_order_texts.specs.TextOrder.{text_key, text_order};
ghost use Rattle.collate_c.specs.Openings.{collation_held};
ghost use Rattle.collate_c.specs.Statuses.{no_order, order_sign};

use crate::collate_handle::CollateHandle;
use crate::statuses::{NO_ORDER, sign_of_order};
use std::alloc::Global;

/// The order of two texts in UTF-8, damaged or not: -1, 0 or 1; 2 if the handle is closed. Allocates nothing.
#[unsafe(no_mangle)]
pub extern "C" fn collate_compare_utf8(
    alloc: Global,
    handle: &mut CollateHandle,
    left: &[u8],
    right: &[u8],
) -> i32
    ensures order { IfSome handle.old.held.value (λ s. result ≡ order_sign
        (text_order (collation_held s) (utf8_text left.now) (utf8_text right.now))) }
    ensures keys { IfSome handle.old.held.value (λ s. result ≡ order_sign
        (list_order (text_key (collation_held s) (utf8_text left.now))
        (text_key (collation_held s) (utf8_text right.now)))) }
    ensures closed { IfNone handle.old.held.value (result ≡ no_order) }
    ensures kept { handle.new.held.value ≡ handle.old.held.value }
{
    let Some(held) = handle.take(alloc) else {
        return NO_ORDER;
    };
    let order = held.as_ref().borrowed().order_utf8(left, right);
    handle.put(held);
    sign_of_order(order)
}

/// The order of two texts in UTF-16, damaged or not: -1, 0 or 1; 2 if the handle is closed. Allocates nothing.
#[unsafe(no_mangle)]
pub extern "C" fn collate_compare_utf16(
    alloc: Global,
    handle: &mut CollateHandle,
    left: &[u16],
    right: &[u16],
) -> i32
    ensures order { IfSome handle.old.held.value (λ s. result ≡ order_sign
        (text_order (collation_held s) (utf16_text left.now) (utf16_text right.now))) }
    ensures keys { IfSome handle.old.held.value (λ s. result ≡ order_sign
        (list_order (text_key (collation_held s) (utf16_text left.now))
        (text_key (collation_held s) (utf16_text right.now)))) }
    ensures closed { IfNone handle.old.held.value (result ≡ no_order) }
    ensures kept { handle.new.held.value ≡ handle.old.held.value }
{
    let Some(held) = handle.take(alloc) else {
        return NO_ORDER;
    };
    let order = held.as_ref().borrowed().order_utf16(left, right);
    handle.put(held);
    sign_of_order(order)
}

/// The order of two texts in Latin-1: -1, 0 or 1; 2 if the handle is closed. Allocates nothing.
#[unsafe(no_mangle)]
pub extern "C" fn collate_compare_latin1(
    alloc: Global,
    handle: &mut CollateHandle,
    left: &[u8],
    right: &[u8],
) -> i32
    ensures order { IfSome handle.old.held.value (λ s. result ≡ order_sign
        (text_order (collation_held s) (latin1_text left.now) (latin1_text right.now))) }
    ensures keys { IfSome handle.old.held.value (λ s. result ≡ order_sign
        (list_order (text_key (collation_held s) (latin1_text left.now))
        (text_key (collation_held s) (latin1_text right.now)))) }
    ensures closed { IfNone handle.old.held.value (result ≡ no_order) }
    ensures kept { handle.new.held.value ≡ handle.old.held.value }
{
    let Some(held) = handle.take(alloc) else {
        return NO_ORDER;
    };
    let order = held.as_ref().borrowed().order_latin1(left, right);
    handle.put(held);
    sign_of_order(order)
}
