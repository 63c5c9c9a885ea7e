//! Tables of the words that a command can contain, and of the endings that complete its prefixes:
//! for each prefix of a command at least one does.

/// Words of a command: as a message shows them, and as they are spelled, after a space. The name is
/// one that nobody uses.
pub const WORDS: [(&str, &str); 39] = [
    ("'create'", " create"),
    ("'drop'", " drop"),
    ("'load'", " load"),
    ("'upsert'", " upsert"),
    ("'delete'", " delete"),
    ("'show'", " show"),
    ("'group'", " group"),
    ("'distinct'", " distinct"),
    (NAME, " \"\u{1}\""),
    (NUMBER, " 1"),
    ("a text", " ''"),
    ("'null'", " null"),
    ("'('", " ("),
    ("','", " ,"),
    ("')'", " )"),
    ("'*'", " *"),
    ("'key'", " key"),
    ("'int'", " int"),
    ("'text'", " text"),
    ("'nocase'", " nocase"),
    ("'by'", " by"),
    ("'rollup'", " rollup"),
    ("'on'", " on"),
    ("'count'", " count"),
    ("'sum'", " sum"),
    ("'min'", " min"),
    ("'max'", " max"),
    ("'='", " ="),
    ("'<>'", " <>"),
    ("'<'", " <"),
    ("'<='", " <="),
    ("'>'", " >"),
    ("'>='", " >="),
    ("'is'", " is"),
    ("'and'", " and"),
    ("'where'", " where"),
    ("'not'", " not"),
    ("'exists'", " exists"),
    ("'having'", " having"),
];

/// A name, as a message shows it.
pub const NAME: &str = "a name";

/// A number, as a message shows it.
pub const NUMBER: &str = "a number";

const OF_CREATE: [&str; 9] = [
    "",
    ")",
    " int)",
    " \"\u{2}\" int)",
    "(\"\u{2}\" int)",
    " \"\u{2}\" (\"\u{2}\" int)",
    "))",
    "\"\u{2}\"))",
    "(\"\u{2}\"))",
];

const OF_NAME: [&str; 2] = ["", " \"\u{2}\""];

const OF_ROW: [&str; 5] = ["", ")", " 1)", "(1)", " \"\u{2}\" (1)"];

const OF_DISTINCT: [&str; 7] = [
    "",
    " \"\u{2}\"",
    " on \"\u{2}\"",
    " \"\u{2}\" on \"\u{2}\"",
    " is null",
    " null",
    " \"\u{2}\" is null",
];

const OF_GROUP: [&str; 24] = [
    "",
    " show count(*)",
    " \"\u{2}\" show count(*)",
    " count(*)",
    "(*)",
    "*)",
    ")",
    " \"\u{2}\")",
    "(\"\u{2}\")",
    "(\"\u{2}\") show count(*)",
    " \"\u{2}\") show count(*)",
    ") show count(*)",
    " is null",
    " null",
    " \"\u{2}\" is null",
    ") is null",
    " \"\u{2}\") is null",
    "(\"\u{2}\") is null",
    "(*) is null",
    "*) is null",
    " \"\u{2}\" (\"\u{2}\") = (\"\u{2}\")",
    " (\"\u{2}\") = (\"\u{2}\")",
    " exists \"\u{2}\" (\"\u{2}\") = (\"\u{2}\")",
    " = (\"\u{2}\")",
];

/// The forms of commands: their first words, and the endings that complete their prefixes.
const FORMS: [(&[&str], &[&str]); 5] = [
    (&["create"], &OF_CREATE),
    (&["drop", "load", "show"], &OF_NAME),
    (&["upsert", "delete"], &OF_ROW),
    (&["distinct"], &OF_DISTINCT),
    (&["group"], &OF_GROUP),
];

/// Whether a word is one of these keywords, in any case.
fn is_one_of(word: &[u8], keywords: &[&str]) -> bool {
    for keyword in keywords {
        if word.eq_ignore_ascii_case(keyword.as_bytes()) {
            return true;
        }
    }
    false
}

/// The endings for the form that begins with this word; empty if no form does.
pub fn ends_of(first: &[u8]) -> &'static [&'static str] {
    for (keywords, ends) in &FORMS {
        if is_one_of(first, keywords) {
            return ends;
        }
    }
    &[]
}

/// What can precede the names that a list of an `exists` lacks.
pub const BEFORE_LISTS: [&str; 6] = ["\"\u{2}\") = (", ") = (", " = (", "(", " ", ","];
