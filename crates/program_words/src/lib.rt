//! The words of the program `collate-cldr`: its commands and options; and what both programs over CLDR's data make of
//! words and of the environment, and say of what is wrong.
#![tactic(auto)]

pub mod answers;
pub mod data_place;
pub mod foreign_options;
pub mod locale_environment;
pub mod option_rows;
pub mod option_settings;
pub mod option_table;
pub mod rule_words;
pub mod said_errors;
pub mod search_options;
pub mod search_type;
pub mod sort_options;
pub mod words;

pub use answers::answer_words;
pub use data_place::{cldr_folder, root_file};
pub use foreign_options::{GREP_OPTIONS, SORT_OPTIONS, foreign_said};
pub use locale_environment::asked_word;
pub use option_rows::{HANDLINGS, NOTICES, STRENGTHS};
pub use option_settings::{SettingWords, options_by_words};
pub use option_table::{OptionRow, Takes, option_of, with_answers, with_help, with_options};
pub use rule_words::rules_of_word;
pub use said_errors::said_of_language;
pub use search_options::{
    LineNumbers, has_several_strengths, line_numbers, pattern_files, patterns_of, searched_files,
    wrong_line_number,
};
pub use search_type::word_for_search;
pub use sort_options::{
    CheckWanted, character_asked, check_of, listed_files, separator_of, sort_request_of,
};
pub use words::{files_of, program, text_of};
