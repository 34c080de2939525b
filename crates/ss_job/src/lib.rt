//! Job files: a job read from the bytes of a TOML document, or the first fault of the document.
#![tactic(auto)]

mod document;
mod draft;
mod entry;
mod fault;
mod field_name;
mod fields;
mod inputs;
mod job;
mod legal_names;
mod limits;
mod name_index;
mod op;
mod policy;
mod reader;
mod vertex;
mod vertices;

pub use fault::{JobFault, JobWhy, JobsFault};
pub use field_name::FieldName;
pub use job::Job;
pub use op::Op;
pub use policy::Policy;
pub use reader::{job_file_has_one_reading, read_job};
