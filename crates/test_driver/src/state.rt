//! What the program holds from one question to the next.
use crate::readers::Reader;
use crate::requests::Refusing;
use icu_collator::Collator;
use icu_table_mini::mini::Mini;
use std::alloc::Global;

/// What the program holds from one question to the next.
#[derive(Drop)]
pub(crate) struct State {
    /// The tables.
    pub(crate) mini: Mini,
    /// The tables for requests with a type, where there are others.
    pub(crate) typed: Option<Mini>,
    /// What a provider refuses.
    pub(crate) refused: Vec<Refusing>,
    /// The collator that was made last.
    pub(crate) collator: Option<Collator>,
    /// What texts are read by, where that was asked for since the tables changed.
    pub(crate) reader: Option<Reader>,
    /// What the root that was read last refuses.
    pub(crate) absent: Option<String>,
    /// How often a call is made that may be timed.
    pub(crate) times: u64,
}

impl State {
    /// A state with these tables alone.
    pub(crate) fn new(alloc: Global, mini: Mini) -> State {
        State {
            mini,
            typed: None,
            refused: Vec::new(alloc),
            collator: None,
            reader: None,
            absent: None,
            times: 1,
        }
    }
}
