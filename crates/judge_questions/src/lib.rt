//! The questions of the program `judge`, each of which is a line: a type that has a canonical
//! encoding, a range for each of its lengths, and an input in hexadecimal digits; or a verb and
//! what it is about.
#![tactic(auto)]

mod bytes;
mod collection;
mod form;
mod hex;
mod limits;
mod model;
mod question;
mod ranges;
mod task;
mod texts;
mod verb;
mod weighted;
mod words;

pub use bytes::Bytes;
pub use collection::{Collection, SetForm};
pub use form::{FORMS, Form};
pub use hex::read_text;
pub use limits::{Limit, Limits};
pub use model::{read_model, read_size};
pub use question::{Question, Unreadable, read_form, read_question};
pub use ranges::read_limit;
pub use task::{Task, read_task};
pub use verb::{VERBS, Verb, read_verb};
pub use weighted::WeightedTask;
pub use words::place_of;
