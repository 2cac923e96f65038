//! The options of the program's commands, in the order in which help shows them.

use crate::option_table::{OptionRow, Takes};

/// The words for strengths, by their numbers and by their names.
pub const STRENGTHS: &[&str] = &[
    "1",
    "2",
    "3",
    "4",
    "i",
    "primary",
    "secondary",
    "tertiary",
    "quaternary",
    "identical",
];

/// The words for how variable elements count.
pub const HANDLINGS: &[&str] = &["non-ignorable", "shifted", "blanked"];

const CASES: &[&str] = &["off", "lower", "upper"];

const GROUPS: &[&str] = &["space", "punctuation", "symbol", "currency"];

/// Those that say where the data are.
pub(crate) static DATA: [OptionRow; 2] = [
    OptionRow {
        id: "root",
        letter: None,
        takes: Takes::Value("FILE"),
        help: "The root's data, FractionalUCA.txt",
    },
    OptionRow {
        id: "cldr",
        letter: None,
        takes: Takes::Value("DIR"),
        help: "The folder of CLDR's data, which has common/uca and common/collation",
    },
];

/// Those for a language.
pub(crate) static LOCALES: [OptionRow; 2] = [
    OptionRow {
        id: "locale",
        letter: Some('l'),
        takes: Takes::Value("TAG"),
        help: "The language, a type and settings, as in sv, de-u-co-phonebk or\nen-u-kn-ks-level1",
    },
    OptionRow {
        id: "rules",
        letter: None,
        takes: Takes::Value("RULES"),
        help: "Rules of one's own, after those of the language: a file, or rules,\nwhich begin with & or [",
    },
];

/// That for what is said of a language.
pub const NOTICES: OptionRow = OptionRow {
    id: "quiet",
    letter: Some('q'),
    takes: Takes::Nothing,
    help: "Says nothing where a language's order isn't just what its tag asks\nfor",
};

/// Those for settings of the order.
pub(crate) static SETTINGS: [OptionRow; 6] = [
    OptionRow {
        id: "strength",
        letter: None,
        takes: Takes::OneOf("LEVEL", STRENGTHS),
        help: "How many levels count: 1 to 4 or i, or their names, primary,\nsecondary, tertiary, quaternary or identical; 3 if none is said",
    },
    OptionRow {
        id: "alternate",
        letter: None,
        takes: Takes::OneOf("HOW", HANDLINGS),
        help: "How spaces and punctuation count: non-ignorable, shifted or blanked",
    },
    OptionRow {
        id: "max-variable",
        letter: None,
        takes: Takes::OneOf("GROUP", GROUPS),
        help: "The last group that the option --alternate is for: space,\npunctuation, symbol or currency",
    },
    OptionRow {
        id: "case-first",
        letter: None,
        takes: Takes::OneOf("CASE", CASES),
        help: "Which case comes first: off, lower or upper",
    },
    OptionRow {
        id: "case-level",
        letter: None,
        takes: Takes::Switch,
        help: "Case counts on a level of its own, or with =off it doesn't",
    },
    OptionRow {
        id: "numeric",
        letter: Some('V'),
        takes: Takes::Switch,
        help: "Digits count by the value of their number, or with =off one by one",
    },
];

/// That for what ends a line.
pub(crate) static SEPARATORS: [OptionRow; 1] = [OptionRow {
    id: "zero-terminated",
    letter: Some('z'),
    takes: Takes::Nothing,
    help: "Lines end with a zero byte in place of a line feed",
}];

/// Those for records of CSV, for keys of lines, and for how equal lines and all lines stand.
pub(crate) static ORDERS: [OptionRow; 12] = [
    OptionRow {
        id: "csv",
        letter: None,
        takes: Takes::Nothing,
        help: "The input has records of CSV (RFC 4180), and not lines; each keeps\nits own bytes",
    },
    OptionRow {
        id: "header",
        letter: None,
        takes: Takes::Nothing,
        help: "The first line stays first; with --csv its record names the columns",
    },
    OptionRow {
        id: "column",
        letter: None,
        takes: Takes::Values("NAME|N"),
        help: "Compares this column of --csv, by its name or its number, with :n as\nnumbers, with :r the greatest first; further ones where the first\nare equal",
    },
    OptionRow {
        id: "delimiter",
        letter: None,
        takes: Takes::AnyValue("C"),
        help: "Stands between two fields of --csv; a comma if none is said",
    },
    OptionRow {
        id: "key",
        letter: Some('k'),
        takes: Takes::Values("POS1[,POS2]"),
        help: "Compares this part of lines, from one place F[.C] up to another;\nfurther ones where the first are equal",
    },
    OptionRow {
        id: "field-separator",
        letter: Some('t'),
        takes: Takes::AnyValue("C"),
        help: "Ends a field; where none is said, blanks belong to the field behind\nthem",
    },
    OptionRow {
        id: "numeric-sort",
        letter: Some('n'),
        takes: Takes::Nothing,
        help: "Compares the numbers with which lines begin, and keys and columns\nwithout letters",
    },
    OptionRow {
        id: "ignore-leading-blanks",
        letter: Some('b'),
        takes: Takes::Nothing,
        help: "Passes over the blanks with which lines begin, and keys without\nletters",
    },
    OptionRow {
        id: "reverse",
        letter: Some('r'),
        takes: Takes::Nothing,
        help: "The greatest line first",
    },
    OptionRow {
        id: "unique",
        letter: Some('u'),
        takes: Takes::Nothing,
        help: "Of lines that are equal the first alone",
    },
    OptionRow {
        id: "files0-from",
        letter: None,
        takes: Takes::Value("F"),
        help: "Reads the files that this file names, each with a zero byte behind\nit",
    },
    OptionRow {
        id: "stable",
        letter: Some('s'),
        takes: Takes::Nothing,
        help: "Lines that are equal stand as they came, and not by their bytes",
    },
];

/// Those of the command `sort` alone, before the one that checks.
pub(crate) static SORTS: [OptionRow; 5] = [
    OptionRow {
        id: "output",
        letter: Some('o'),
        takes: Takes::Value("OUT"),
        help: "Writes to this file, which may be one that is read",
    },
    OptionRow {
        id: "merge",
        letter: Some('m'),
        takes: Takes::Nothing,
        help: "The lines of each file are in order already",
    },
    OptionRow {
        id: "debug",
        letter: None,
        takes: Takes::Nothing,
        help: "Underlines the keys of each line, on lines of their own",
    },
    OptionRow {
        id: "parallel",
        letter: None,
        takes: Takes::Value("N"),
        help: "Changes nothing, as a sort has one thread",
    },
    OptionRow {
        id: "batch-size",
        letter: None,
        takes: Takes::Value("N"),
        help: "Changes nothing, as all files are read at once",
    },
];

/// That of the command `sort` alone, behind the one that checks.
pub(crate) static CHECKS: [OptionRow; 1] = [OptionRow {
    id: "check-quietly",
    letter: Some('C'),
    takes: Takes::Nothing,
    help: "As the command check --quiet",
}];

/// That of the command `check` alone.
pub(crate) static QUIET: [OptionRow; 1] = [OptionRow {
    id: "quiet",
    letter: Some('q'),
    takes: Takes::Nothing,
    help: "Prints nothing",
}];

/// Those of the command `search`.
pub(crate) static SEARCHES: [OptionRow; 28] = [
    OptionRow {
        id: "zero-terminated",
        letter: Some('z'),
        takes: Takes::Nothing,
        help: "Lines end with a zero byte in place of a line feed",
    },
    OptionRow {
        id: "regexp",
        letter: Some('e'),
        takes: Takes::AnyValues("PATTERN"),
        help: "Searches for this text, in place of the first word; further ones too",
    },
    OptionRow {
        id: "file",
        letter: Some('f'),
        takes: Takes::Values("FILE"),
        help: "Searches for each line of this file, in place of the first word;\nfurther ones too",
    },
    OptionRow {
        id: "fixed-strings",
        letter: Some('F'),
        takes: Takes::Nothing,
        help: "Changes nothing, as a pattern is a text",
    },
    OptionRow {
        id: "line-buffered",
        letter: None,
        takes: Takes::Nothing,
        help: "Prints each line as soon as it is found, as on a terminal",
    },
    OptionRow {
        id: "max-count",
        letter: Some('m'),
        takes: Takes::Value("NUM"),
        help: "Ends each file after so many such lines",
    },
    OptionRow {
        id: "ignore-case",
        letter: Some('i'),
        takes: Takes::Nothing,
        help: "Case doesn't count: two levels count where no strength is said",
    },
    OptionRow {
        id: "primary",
        letter: Some('1'),
        takes: Takes::Nothing,
        help: "Letters alone count, as by --strength 1",
    },
    OptionRow {
        id: "count",
        letter: Some('c'),
        takes: Takes::Nothing,
        help: "Prints how many lines there are",
    },
    OptionRow {
        id: "quiet",
        letter: Some('q'),
        takes: Takes::Nothing,
        help: "Prints nothing, and ends with the first file that has such a line",
    },
    OptionRow {
        id: "invert-match",
        letter: Some('v'),
        takes: Takes::Nothing,
        help: "The lines that hold no match",
    },
    OptionRow {
        id: "line-number",
        letter: Some('n'),
        takes: Takes::Nothing,
        help: "Prints the number of each line before it",
    },
    OptionRow {
        id: "byte-offset",
        letter: Some('b'),
        takes: Takes::Nothing,
        help: "Prints before each line how many bytes of its file are before it",
    },
    OptionRow {
        id: "after-context",
        letter: Some('A'),
        takes: Takes::Value("NUM"),
        help: "Prints so many lines after each such line, too",
    },
    OptionRow {
        id: "before-context",
        letter: Some('B'),
        takes: Takes::Value("NUM"),
        help: "Prints so many lines before each such line, too",
    },
    OptionRow {
        id: "context",
        letter: Some('C'),
        takes: Takes::Value("NUM"),
        help: "Prints so many lines before and after each such line, too",
    },
    OptionRow {
        id: "only-matching",
        letter: Some('o'),
        takes: Takes::Nothing,
        help: "Prints each match that isn't empty on a line of its own",
    },
    OptionRow {
        id: "files-with-matches",
        letter: None,
        takes: Takes::Nothing,
        help: "Prints the names of the files that have such lines",
    },
    OptionRow {
        id: "files-without-match",
        letter: Some('L'),
        takes: Takes::Nothing,
        help: "Prints the names of the files that have no such lines",
    },
    OptionRow {
        id: "with-filename",
        letter: Some('H'),
        takes: Takes::Nothing,
        help: "Prints the name of its file before each line, of one file too",
    },
    OptionRow {
        id: "no-filename",
        letter: Some('h'),
        takes: Takes::Nothing,
        help: "Prints no name of a file before a line",
    },
    OptionRow {
        id: "no-messages",
        letter: Some('s'),
        takes: Takes::Nothing,
        help: "Says nothing of files that aren't read",
    },
    OptionRow {
        id: "recursive",
        letter: Some('r'),
        takes: Takes::Nothing,
        help: "Searches the files below folders, too, but for binary ones; links\naren't followed",
    },
    OptionRow {
        id: "include",
        letter: None,
        takes: Takes::Values("GLOB"),
        help: "Of the files below folders those whose names match, as *.txt does",
    },
    OptionRow {
        id: "text",
        letter: Some('a'),
        takes: Takes::Nothing,
        help: "Searches binary files below folders, too",
    },
    OptionRow {
        id: "word-regexp",
        letter: Some('w'),
        takes: Takes::Nothing,
        help: "A match begins and ends at boundaries of words",
    },
    OptionRow {
        id: "line-regexp",
        letter: Some('x'),
        takes: Takes::Nothing,
        help: "A match is a whole line",
    },
    OptionRow {
        id: "letters",
        letter: None,
        takes: Takes::Nothing,
        help: "A match may begin and end within what is one character to a reader,\nbetween its letters",
    },
];

/// Those that stand in place of a command.
pub(crate) static QUESTIONS: [OptionRow; 2] = [
    OptionRow {
        id: "version",
        letter: Some('V'),
        takes: Takes::Nothing,
        help: "Prints the versions of the program, of CLDR, and of Unicode in the\nroot's data",
    },
    OptionRow {
        id: "list-locales",
        letter: None,
        takes: Takes::Nothing,
        help: "Prints the locales that there are collations of, with their types,\nthe default one first",
    },
];
