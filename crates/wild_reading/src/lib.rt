//! Reads what grammars describe from bytes: a cursor with a limit of depth, gaps, tokens, lists.
#![tactic(auto)]

mod ahead;
mod classes;
mod cursor;
mod lex;
mod many;
mod skipping;
mod stop;

pub use ahead::{after_symbol, word_at};
pub use classes::{Class, begins_run, digit_value, run_end};
pub use cursor::{Cursor, MAX_DEPTH, Token};
pub use lex::{begins, begins_with, is_word};
pub use many::{Grammar, read_until};
pub use skipping::{gaps_have_three_cases, skip_comments_and_whitespace};
pub use stop::Stop;
