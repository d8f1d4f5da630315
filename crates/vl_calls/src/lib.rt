//! The calls of the location database and its answers: their grammar, in bytes and in words.
#![tactic(auto)]

mod answer_reading;
mod answer_writing;
mod answers;
mod by_kind;
mod calls;
mod forms;
mod kinds;
mod laws;
mod limits;
mod reading;
mod shapes;
mod skipping;
mod texts;
mod words;
mod writing;

pub use answer_reading::read_answer;
pub use answer_writing::spell_answer;
pub use answers::{AnswerKind, Entries, Hosts, VlAnswer};
pub use calls::{GivenEntry, VlCall};
pub use kinds::{CallKind, KINDS};
pub use laws::{a_call_is_read_from_its_spelling, no_call_begins_another};
pub use limits::{MAX_HOSTS, MAX_PAGE, MAX_SITES};
pub use reading::read_call;
pub use shapes::Shape;
pub use skipping::kind_of;
pub use words::{call_words, reply_words};
pub use writing::spell_call;
