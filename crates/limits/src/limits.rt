//! The limits of texts, bundles and runs.

/// The bytes of a bundle's text.
pub const MOST_BYTES: usize = 4_194_304;

/// The brackets that are open at once.
pub const MOST_BRACKETS: usize = 512;

/// The depth of a choreography's tree.
pub const MOST_DEPTH: usize = 256;

/// The depth of an expression's tree.
pub const MOST_EXPRESSION_DEPTH: usize = 64;

/// The bytes of a name.
pub const MOST_NAME_BYTES: usize = 64;

/// The bytes of a text's value.
pub const MOST_TEXT_BYTES: usize = 1_024;

/// The nodes of the program.
pub const MOST_NODES: usize = 5_000;

/// The roles of the cast.
pub const MOST_ROLES: usize = 32;

/// The rules that are alive at once.
pub const MOST_RULES: usize = 256;

/// The changes of the script.
pub const MOST_CHANGES: usize = 1_000;

/// The sessions of a text.
pub const MOST_SESSIONS: usize = 1_000;

/// The nodes of a rule's body.
pub const MOST_BODY_NODES: usize = 200;

/// The depth of a rule's body.
pub const MOST_BODY_DEPTH: usize = 64;

/// A rule's priority, up and down.
pub const MOST_PRIORITY: u64 = 1_000_000;

/// A scope of this level or above is replaced no more.
pub const TOP_LEVEL: u32 = 16;
