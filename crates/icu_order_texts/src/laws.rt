//! The order theorem of texts, and what it rests on, each as a function that makes no call.

ghost use Rattle.icu_order_texts.specs.ReachableWeights.{WellFormedTablesServeLevels};
ghost use Rattle.icu_order_texts.specs.TextCuts.{CommonBeginningsDoNotCount};
ghost use Rattle.icu_order_texts.specs.TextOrderLaws.{EqualTextsHaveOneKey, KeysDetermineTextLists, KeysKeepTextOrder, LevelsKeepTextOrder};

/// Well-formed tables give weights as the order theorem of keys asks, for keys of each form (UTS #10, "Form Sort Keys";
/// UTS #35 part 5, "Collation Reordering" and "Case Parameters").
///
/// Weights of one level are prefix free (UTS #10, "Large Weight Values"): primaries after reordering, tertiaries with
/// case bits and without. Leads stand clear of the bytes that keys keep for themselves. Reordering changes leads alone,
/// and keeps numbers apart from all else. Of primaries that share a lead after it, all leads are compressible or none.
pub fn well_formed_tables_serve_levels()
    ensures { WellFormedTablesServeLevels }
{}

/// Each level of the keys of two texts by itself, for every collation whose tables meet the conditions. If all earlier
/// levels tie, its bytes determine the order of its lists, whatever follows them, and the same bytes mean the same list
/// (UTS #10, "Form Sort Keys").
pub fn levels_keep_text_order()
    ensures { LevelsKeepTextOrder }
{}

/// The order theorem, for every collation whose tables meet the conditions and any two texts (UTS #10, "Compare Sort
/// Keys").
pub fn keys_keep_text_order()
    // The dictionary order of the two keys is the order of the texts.
    ensures order { KeysKeepTextOrder }

    // The keys are the same bytes exactly where the texts are equal.
    ensures same { EqualTextsHaveOneKey }

    // And so they are exactly where the two texts have the same list at each level of the key.
    ensures lists { KeysDetermineTextLists }
{}

/// Texts with a common beginning are in the order of what follows it, for every collation that doesn't read secondary
/// weights backward. What follows has to be a text that may follow others without a change of what it gives (`IsRest`):
/// empty, or begun by a character before which texts may be cut.
pub fn common_beginnings_do_not_count()
    ensures { CommonBeginningsDoNotCount }
{}
