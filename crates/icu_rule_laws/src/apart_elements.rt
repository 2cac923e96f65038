//! How texts order whose elements differ at one place: laws of lists of elements over the order of texts, without rules
//! (UTS #10, "Compare Sort Keys"; UTS #35 part 5, "Setting Options").
ghost use Rattle.icu_rule_laws.specs.apart_elements.ApartElementLaws.{AlikeTextsOrder, ApartTextsAreLess, ApartTextsOrder, ApartTextsOrderAfterCase, LesserPrimariesOrder};

/// Texts whose elements are one apart at the primary level are Less by each strength, and those at the secondary level
/// by each strength that has it: whatever case is.
pub fn apart_texts_are_less()
    ensures { ApartTextsAreLess }
{}

/// Without case, texts whose elements are one apart at a level are Less by each strength that has the level, and else
/// Equal.
pub fn apart_texts_order()
    ensures { ApartTextsOrder }
{}

/// Texts whose elements are one apart below the primary level order by their case level first, if there is one, and
/// then as without case: unless there is case first and no case level.
pub fn apart_texts_order_after_case()
    ensures { ApartTextsOrderAfterCase }
{}

/// Without case, texts of whose elements the four levels compare the same weights differ by their characters alone,
/// which the identical strength compares.
pub fn alike_texts_order()
    ensures { AlikeTextsOrder }
{}

/// A text is Less than one that begins with a primary greater than its own first one, in the order of scripts, or than
/// one that begins with a primary at all if it has none itself.
pub fn lesser_primaries_order()
    ensures { LesserPrimariesOrder }
{}
