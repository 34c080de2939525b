//! Files of cases: tests as text. A file is read into cases, each with a name and with fields; what stands in a field
//! is expanded from its escapes when it is asked for. A walker says what differs in a case, and each file is told of.
#![tactic(auto)]

mod block;
mod case;
mod cells;
mod comparing;
mod escapes;
mod expand;
mod fault;
mod fields;
mod group;
mod reader;
mod repeat;
mod stop;
mod tally;
mod words;

pub use case::{Case, Field};
pub use comparing::{compare, compare_numbers};
pub use expand::{rest_of, text_of, words_of};
pub use fault::{CasesFault, CasesWhy};
pub use fields::{Parts, check_fields};
pub use reader::read_cases;
pub use stop::{Stop, bad_words, unknown};
pub use tally::{Walker, tell_file, tell_files};
pub use words::{is_among, number_of, one_word};
