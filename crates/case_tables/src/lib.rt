//! Tables of cases: what a program of cases reads from its standard input, and prints again with
//! the answers of the libraries between its lines.
//!
//! The file `stdout` beside such a program has what must come. Its answers are taken from the rules
//! of the language, never from the program.
#![tactic(auto)]

mod cases;
mod expansions;
mod problems;
mod tables;
mod wholes;

pub use cases::Case;
pub use expansions::read_number;
pub use problems::Problem;
pub use tables::{answer_lines, answer_source, write_lines};
pub use wholes::{
    Front, MOST_TOKENS, front_choreo, front_expr, text_tokens, whole_choreo, whole_expr,
    write_place,
};
