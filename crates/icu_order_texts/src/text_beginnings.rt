//! Texts that begin with others at the primary level, and the bounds between which their sort keys stand (UTS #10,
//! "Form Sort Keys" and "Compare Sort Keys"). A crate of definitions (`specs/`) and of laws: it has no code with
//! meaning.
ghost use Rattle.icu_order_texts.specs.text_beginnings.TextBeginningLaws.{BeginningsStandBetweenKeys, EqualTextsBeginTheSame, KeysBeginAsTexts, KeysStandBelowAsTexts, OrderKeepsPrimaryOrder, PrimaryOrderIsOfWeights, TextsBeginWithTheirBeginnings};

/// The order of two texts at the primary level is the dictionary order of their primary weights. The order at any
/// strength, with a case level or without, never turns it round: what is not Greater by it is not Greater there.
pub fn primary_order_is_of_weights()
    ensures weights { PrimaryOrderIsOfWeights }
    ensures kept { OrderKeepsPrimaryOrder }
{}

/// A text begins with another exactly if its sort key, at any strength, begins with the other's key at the primary
/// level alone. It does so exactly if its key stands between that key and the least bytes above all that begin with it.
/// Its key stands below that key exactly if the text is Less at the primary level.
pub fn keys_begin_as_texts()
    ensures begin { KeysBeginAsTexts }
    ensures between { BeginningsStandBetweenKeys }
    ensures below { KeysStandBelowAsTexts }
{}

/// A text begins with each text that is Equal at the primary level to one that stands at its front, where what
/// follows may follow any text without a change of what it gives (`IsRest`). Texts that are Equal at the primary
/// level begin the same texts.
pub fn texts_begin_with_their_beginnings()
    ensures fronts { TextsBeginWithTheirBeginnings }
    ensures equal { EqualTextsBeginTheSame }
{}
