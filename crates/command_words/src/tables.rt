//! What each command takes.

ghost use Rattle.std.specs.Prelude.{◌≡◌, map};
ghost use Rattle.command_words.specs.Commands.{verb_of, known_options, positional_names};
ghost use Rattle.command_words.specs.Splits.{known_in};

use crate::commands::Verb;

/// An option of a command. One that takes no value is a flag.
#[derive(Clone, Copy)]
pub struct KnownOption {
    /// The name, without the two hyphens.
    pub name: &'static str,
    /// Whether it takes a value.
    pub takes_value: bool,
}

const SEED: KnownOption = KnownOption {
    name: "seed",
    takes_value: true,
};

const STEPS: KnownOption = KnownOption {
    name: "steps",
    takes_value: true,
};

const WORKERS: KnownOption = KnownOption {
    name: "workers",
    takes_value: true,
};

const AUX: KnownOption = KnownOption {
    name: "aux",
    takes_value: false,
};

const JSON: KnownOption = KnownOption {
    name: "json",
    takes_value: false,
};

static RUN: [KnownOption; 3] = [STEPS, AUX, JSON];

/// Of `step` and `resume`.
static SEEDED: [KnownOption; 4] = [SEED, STEPS, AUX, JSON];

static DRIVE: [KnownOption; 1] = [STEPS];

static SESSIONS: [KnownOption; 3] = [WORKERS, SEED, STEPS];

static NO_OPTIONS: [KnownOption; 0] = [];

static GEN: [&str; 2] = ["number", "size"];

static MONITOR: [&str; 1] = ["role"];

static NO_NAMES: [&str; 0] = [];

impl Verb {
    /// The command of this name.
    #[tactic(auto, unfolding(crate::specs::Commands::verb_of))]
    pub(crate) fn named(name: &str) -> Option<Verb>
        ensures { result ≡ verb_of name.now }
    {
        match name {
            "run" => Some(Verb::Run),
            "step" => Some(Verb::Step),
            "check" => Some(Verb::Check),
            "project" => Some(Verb::Project),
            "replay" => Some(Verb::Replay),
            "gen" => Some(Verb::Gen),
            "upgrade" => Some(Verb::Upgrade),
            "mend" => Some(Verb::Mend),
            "drive" => Some(Verb::Drive),
            "resume" => Some(Verb::Resume),
            "monitor" => Some(Verb::Monitor),
            "sessions" => Some(Verb::Sessions),
            _ => None,
        }
    }

    /// The options that the command takes.
    pub(crate) fn known_options(self) -> &'static [KnownOption]
        ensures { known_in result.now ≡ known_options self }
    {
        match self {
            Verb::Run => RUN.as_slice(),
            Verb::Step | Verb::Resume => SEEDED.as_slice(),
            Verb::Drive => DRIVE.as_slice(),
            Verb::Sessions => SESSIONS.as_slice(),
            _ => NO_OPTIONS.as_slice(),
        }
    }

    /// The names of the positional words that the command wants.
    pub(crate) fn positional_names(self) -> &'static [&'static str]
        ensures { map (λ name. name.now) result.now ≡ positional_names self }
    {
        match self {
            Verb::Gen => GEN.as_slice(),
            Verb::Monitor => MONITOR.as_slice(),
            _ => NO_NAMES.as_slice(),
        }
    }
}
