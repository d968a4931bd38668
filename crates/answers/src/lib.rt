// What the list program answers, as text: the lines of standard output, and the sentence of standard
// error.

#![tactic(auto)]

mod lines;
mod sentences;

pub use lines::put_lines;
pub use sentences::{put_complaint, put_refusal, put_sentence};
