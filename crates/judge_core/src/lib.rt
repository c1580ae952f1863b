//! The library of the program `judge`, which says of any input which value of any type with a
//! canonical encoding it begins with: how many items and how many bytes left, or the first fault.
//!
//! Everything that the program does is generic over the allocator, the reader and the writers, so
//! that each allocation failure and each failing device can be tried. The program itself only hands
//! in the real ones.
#![tactic(auto)]

mod answer;
mod command;
mod error;
mod help;
mod host;
mod input;
mod lines;
mod notes;
mod pending;
mod reply;
mod report;
mod room;
mod runs;
mod sessions;
mod stream;
mod weighted_reply;
mod weighted_report;

pub use answer::{Answer, answer_to};
pub use command::{Command, parse_args};
pub use error::Failure;
pub use help::{say_help, say_version};
pub use host::{on_host, start};
pub use judge_questions::{
    Bytes, Collection, FORMS, Form, Limit, Limits, Question, SetForm, Task, Unreadable, VERBS,
    Verb, WeightedTask, read_form, read_limit, read_model, read_question, read_size, read_task,
    read_text, read_verb,
};
pub use judge_verdicts::{
    Checked, CountItems, FaultNumbers, Found, Misread, NoConflict, NoEquivocation, NoQuorum,
    NoWeightedConflict, NoWeightedEquivocation, NoWeightedQuorum, NoWeights, NotBuilt, Refutation,
    SlotAndDecision, Verdict, WeightChecked, WeightNumbers, WeightedMembers, build, conflict_of,
    equivocation_of, fault_numbers, judge, judge_as, position, quorum_of, refute, weight_numbers,
    weighted_conflict_of, weighted_equivocation_of, weighted_quorum_of,
};
pub use reply::{Reply, reply_to};
pub use runs::run;
pub use sessions::session;
pub use stream::{answer_all, say_types};
pub use weighted_reply::WeightedReply;
