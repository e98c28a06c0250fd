//! What words may ask for.

use dioc_terms::Role;

/// The commands by their names.
#[derive(Clone, Copy, Debug)]
pub enum Verb {
    /// `run`
    Run,
    /// `step`
    Step,
    /// `check`
    Check,
    /// `project`
    Project,
    /// `replay`
    Replay,
    /// `gen`
    Gen,
    /// `upgrade`
    Upgrade,
    /// `mend`
    Mend,
    /// `drive`
    Drive,
    /// `resume`
    Resume,
    /// `monitor`
    Monitor,
    /// `sessions`
    Sessions,
}

/// The options of a command. One that the command doesn't have is as if it were left out.
#[derive(Clone, Copy, Debug)]
pub struct Options {
    /// `--seed`, where it is given.
    pub seed: Option<u64>,
    /// `--steps`: the most entries, from 1 to 100,000, and 20,000 where it is left out. Of each
    /// session they are from 1 to 2,000, and 2,000 where it is left out.
    pub steps: u64,
    /// `--workers`: how many, from 1 to 16, and 4 where it is left out.
    pub workers: u32,
    /// `--aux`: whether auxiliary entries are printed too.
    pub aux: bool,
    /// `--json`: whether entries are printed as JSON.
    pub json: bool,
}

/// What the words ask for.
#[derive(Debug, Drop)]
pub enum Command {
    /// Runs a bundle with a thread for each role. It has `--steps`, `--aux` and `--json`.
    Run(Options),
    /// Runs a bundle on one thread. It has `--seed`, `--steps`, `--aux` and `--json`.
    Step(Options),
    /// Says whether a bundle may run.
    Check,
    /// Prints the process of each role.
    Project,
    /// Judges a visible trace.
    Replay,
    /// Makes a bundle and runs it.
    Gen {
        /// The number that the bundle is made from.
        number: u64,
        /// How large it is, from 1 to 400.
        size: u32,
    },
    /// Writes a bundle in the second version.
    Upgrade,
    /// Writes a bundle whose choreography and rules are connected.
    Mend,
    /// Finds the auxiliary messages of a visible trace. It has `--steps`.
    Drive(Options),
    /// Goes on from a stopped trace. It has `--seed`, `--steps`, `--aux` and `--json`.
    Resume(Options),
    /// Judges the entries of this role.
    Monitor(Role),
    /// Runs many bundles on a pool of workers. It has `--workers`, `--seed` and `--steps`.
    Sessions(Options),
}
