//! The numbers that a replay is run with.
ghost use Rattle.g1_core.specs.Settings.{IsWithin};
ghost use Rattle.g1_options.specs.declared.options.TheConstants.Options.{MUTATORS, HISTORY};
ghost use Rattle.g1_options.specs.declared.options.TheConstants.Options.{REFINERS, ROUNDS};

use g1_core::{Config, Limits};

/// What a replay is run with, each number within its limits (docs/traces.md, Options).
#[derive(Clone, Copy, Debug, PartialEq, Eq)]
pub struct Options {
    /// How many mutators there are.
    pub mutators: u32,
    /// The settings of the core, of the logs and of the queue of completed buffers.
    pub config: Config,
    /// How many entries the history may have.
    pub history: u32,
    /// How many refinement threads a crew or a race has.
    pub refiners: u32,
    /// How many rounds of refinement each of them makes.
    pub rounds: u32,
    pub ghost mutators_in: { IsWithin MUTATORS mutators },
    pub ghost history_in: { IsWithin HISTORY history },
    pub ghost refiners_in: { IsWithin REFINERS refiners },
    pub ghost rounds_in: { IsWithin ROUNDS rounds },
}

impl Options {
    /// How many mutators there are.
    pub const MUTATORS: Limits = Limits {
        least: 1,
        most: 8,
        default: 1,
    };

    /// How many entries the history may have.
    pub const HISTORY: Limits = Limits {
        least: 1,
        most: 1_000_000,
        default: 1_000_000,
    };

    /// How many refinement threads a crew or a race has.
    pub const REFINERS: Limits = Limits {
        least: 1,
        most: 4,
        default: 1,
    };

    /// How many rounds of refinement each of them makes.
    pub const ROUNDS: Limits = Limits {
        least: 0,
        most: 10_000,
        default: 100,
    };
}

impl Default for Options {
    ghost use Rattle.g1_options.specs.Settings.{AreDefaults};

    ghost is_default = { AreDefaults };

    /// One mutator, the settings that a core has by default, a history of 1,000,000 entries, and
    /// one refinement thread of 100 rounds.
    fn default() -> Options {
        Options {
            mutators: Options::MUTATORS.default,
            config: Config::default(),
            history: Options::HISTORY.default,
            refiners: Options::REFINERS.default,
            rounds: Options::ROUNDS.default,
        }
    }
}
