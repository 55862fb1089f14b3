//! The map of every word of a message: the command `annotate`.
//!
//! [`run_annotate`] carries out an [`AnnotateOrder`], which is also the service over the messages of an input. For each
//! word, [`capn_cover`] finds how often the visits of the walk cover it and to which object it belongs, and
//! [`capn_lines`] finds the words that are alike. This crate writes them: a line for each run of such words, and a last
//! line with the counts. No list of lines is made. Each line is made and added to the output by itself.
#![tactic(auto)]

mod annotate_order;
mod annotate_run;
mod annotate_service;
mod annotation;
mod canonical_words;
mod columns;
mod lead;
mod message_line;
mod message_lines;
mod parts_of_bytes;
mod quotation;
mod saying;
mod summary;
mod table_line;
mod tail;
mod way_column;
mod ways;

pub use annotate_order::AnnotateOrder;
pub use annotate_run::run_annotate;
