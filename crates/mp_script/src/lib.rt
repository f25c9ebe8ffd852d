//! The script language: what a script is, how its bytes spell it, and which transcripts answer it rightly. It hides how
//! scripts are read.
#![tactic(auto)]

mod drafts;
mod entries;
mod examples;
mod laws;
mod printing;
mod reading;
mod statements;
mod words;
mod worked;

pub use examples::{law_examples, law_word_examples};
pub use laws::{law_one_script, law_value_in_view};
pub use printing::{print, push_numbered};
pub use reading::{ScriptRefusal, parse};
pub use statements::{Line, Lines, Script, SessionOn, Sessions, Stmt};
pub use words::words_of;
pub use worked::{
    law_worked_downs, law_worked_keys, law_worked_parts, law_worked_replies, law_worked_views,
};
