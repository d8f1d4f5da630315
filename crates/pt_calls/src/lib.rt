//! The calls of the protection database and its answers: their grammar, in bytes and in words.
#![tactic(auto)]

mod answer_reading;
mod answer_writing;
mod answers;
mod by_kind;
mod calls;
mod kinds;
mod laws;
mod limits;
mod lists;
mod reading;
mod shapes;
mod skipping;
mod texts;
mod words;
mod writing;

pub use answer_reading::read_answer;
pub use answer_writing::spell_answer;
pub use answers::{AnswerKind, Entries, PtAnswer, PtEntry};
pub use calls::PtCall;
pub use kinds::{CallKind, KINDS};
pub use laws::{a_call_is_read_from_its_spelling, no_call_begins_another, words_name_calls};
pub use limits::{MAX_ANSWER_IDS, MAX_LIST, MAX_NAME, MAX_PAGE};
pub use lists::{Ids, Names};
pub use reading::read_call;
pub use shapes::Shape;
pub use skipping::kind_of;
pub use words::{call_words, reply_words};
pub use writing::spell_call;
