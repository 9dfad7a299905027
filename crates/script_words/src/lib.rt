//! A script's lines and a server's settings, read and made, scripts that a seed gives, and the lines of an outcome. It
//! is a room because it is text alone. The laws on scripts and the commands stand on it.
//!
//! The lines of a script and of a server's settings: what the words of each say.
#![tactic(auto)]

mod events;
mod generator;
mod numbers;
mod operations;
mod outcome_lines;
mod parts;
mod pieces;
mod settings;
pub mod text_lines;
mod texts;
mod user_list;
mod user_names;
mod values;
mod words;

pub use generator::{MadeEvent, MadeLine, Maker, push_line, statement_of};
pub use numbers::number_to;
pub use outcome_lines::{CreateOrder, NumberList, has_order, refusal_line, run_text};
pub use pieces::Pieces;
pub use text_lines::{Line, Refusal, SCRIPT_BYTES, SCRIPT_LINES, SCRIPT_OPERATIONS, with_defaults};
pub use texts::is_text;
pub use user_list::UserList;
pub use values::{
    Cipher, Code, Command, Fault, Given, ScriptEvent, Setting, Signing, Statement, User,
};
pub use words::statement;
