//! The options of the command line: names, units, limits, defaults and help.
ghost use Rattle.std.specs.Prelude.{◌≡◌, false};
ghost use Rattle.clap.specs.Words.{rule_of};
ghost use Rattle.g1_options.specs.CommandLine.{spelled_rule};

use crate::options::Options;
use clap::{Arg, value_parser};
use g1_core::{Config, Limits};
use std::alloc::Global;

/// An option that takes one whole number.
#[derive(Clone, Copy)]
pub(crate) struct Setting {
    pub(crate) name: &'static str,
    unit: &'static str,
    pub(crate) limits: Limits,
    // the default of these limits, as the help writes it
    default: &'static str,
    help: &'static str,
}

pub(crate) static MUTATORS: Setting = Setting {
    name: "mutators",
    unit: "COUNT",
    limits: Options::MUTATORS,
    default: "1",
    help: "Mutators of the trace, numbered from 0: 1 to 8",
};

pub(crate) static LOG: Setting = Setting {
    name: "log",
    unit: "CARDS",
    limits: Config::LOG,
    default: "256",
    help: "Cards that fill a mutator's log: 1 to 256",
};

pub(crate) static LIMIT: Setting = Setting {
    name: "limit",
    unit: "BUFFERS",
    limits: Config::LIMIT,
    default: "10",
    help: "Completed buffers that may wait for refinement: 1 to 1024",
};

pub(crate) static HOT: Setting = Setting {
    name: "hot",
    unit: "TIMES",
    limits: Config::HOT,
    default: "4",
    help: "Refinements after which a card is hot, 0 for at once: 0 to 255",
};

pub(crate) static RING: Setting = Setting {
    name: "ring",
    unit: "CARDS",
    limits: Config::RING,
    default: "1024",
    help: "Hot cards that are set aside: 1 to 4096",
};

pub(crate) static START: Setting = Setting {
    name: "start",
    unit: "BUFFERS",
    limits: Config::START,
    default: "5",
    help: "Completed buffers that a round of 'work' wants: 1 to 1024",
};

pub(crate) static HISTORY: Setting = Setting {
    name: "history",
    unit: "ENTRIES",
    limits: Options::HISTORY,
    default: "1000000",
    help: "Calls that the history takes: 1 to 1000000",
};

pub(crate) static REFINERS: Setting = Setting {
    name: "refiners",
    unit: "COUNT",
    limits: Options::REFINERS,
    default: "1",
    help: "Threads that refine while the mutators store: 1 to 4",
};

pub(crate) static ROUNDS: Setting = Setting {
    name: "rounds",
    unit: "COUNT",
    limits: Options::ROUNDS,
    default: "100",
    help: "Rounds of 'work' that each of these threads makes: 0 to 10000",
};

impl Setting {
    /// The argument that the command line has for this option.
    pub(crate) fn argument<'a>(&self, alloc: Global) -> Arg<'a>
        ensures rule { rule_of result
            ≡ spelled_rule self.now.name.now self.now.limits self.now.default.now }
        ensures local { result.global ≡ false }
    {
        let Limits { least, most, .. } = self.limits;
        Arg::new(alloc, self.name)
            .long(self.name)
            .value_name(self.unit)
            .value_parser(value_parser!(u32).range(i64::from(least)..=i64::from(most)))
            .default_value(self.default)
            .help(self.help)
    }
}
