//! For the programs that read files by name: the words of their command lines, the names and errors that they print,
//! misspelt commands, folders, the progress of a run, and files whose errors of reading are kept for a message.
#![tactic(auto)]

mod escape;
mod folders;
mod mark;
mod misspelt;
mod progress;
mod source;
mod words;

pub use folders::{Listed, files_below};
pub use mark::unreadable;
pub use misspelt::close_command;
pub use progress::FileProgress;
pub use source::Kept;
pub use words::{CommandLine, MISUSE, NOT_UTF_8, escaped, print_error, words_of};
