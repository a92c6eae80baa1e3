//! Documents of trees: the certificates that the program prints, and checks.
//!
//! [`write_document`] writes the document of a certified tree, [`read_document`] reads one or tells
//! its first fault, and [`check_document`] gives the verdict on one that was read. What a document
//! is is defined in `specs/`, with laws in [`laws`]. The other calls write
//! lines and parts of lines, for what is printed behind a document.
#![tactic(auto)]

mod checking;
mod document;
pub mod laws;
mod line_reading;
mod line_writing;
mod parts;
mod reader;
mod reading;
mod stops;
mod words;
mod writing;

pub use checking::{DocumentVerdict, check_document};
pub use document::{ChainText, Document, Text};
pub use line_writing::{write_step, write_steps};
pub use reading::{CertFault, read_document};
pub use writing::{
    write_document, write_document_with, write_member, write_members, write_numbered,
};
