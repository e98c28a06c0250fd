//! The limits of texts, bundles and runs, each stated once: code and definitions use the same
//! constants.
#![tactic(auto)]

mod limits;

pub use limits::{
    MOST_BODY_DEPTH, MOST_BODY_NODES, MOST_BRACKETS, MOST_BYTES, MOST_CHANGES, MOST_DEPTH,
    MOST_EXPRESSION_DEPTH, MOST_NAME_BYTES, MOST_NODES, MOST_PRIORITY, MOST_ROLES, MOST_RULES,
    MOST_SESSIONS, MOST_TEXT_BYTES, TOP_LEVEL,
};
