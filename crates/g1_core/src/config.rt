//! The settings of a core, and the limits of each.
ghost use Rattle.std.specs.Prelude.{◌≡◌, ◌↔◌};
ghost use Rattle.g1_core.specs.Prelude.{[], IsTrue, SomeIff, Cards};
ghost use Rattle.g1_core.specs.declared.config.Settings.{Settings as Chosen};
ghost use Rattle.g1_core.specs.Settings.{AreSettings, IsWithin, default_settings};

use g1_log::Log;
use std::marker::Model;

/// The least and the greatest number that a setting may be, and its default.
#[derive(Clone, Copy, Debug, PartialEq, Eq)]
pub struct Limits {
    /// The least number that the setting may be.
    pub least: u32,
    /// The greatest number that the setting may be.
    pub most: u32,
    /// The number that the setting is by default.
    pub default: u32,
}

impl Limits {
    /// Whether the setting may be this number.
    pub fn contain(&self, number: usize) -> bool
        ensures { IsTrue result ↔ IsWithin self.now number }
    {
        self.least as usize <= number && number <= self.most as usize
    }
}

/// Numbers for the settings of a core, by their names: those that a program chooses, and the
/// defaults for the rest, as `Settings { log: 64, ..Settings::default() }`. [`Config::of`] tests
/// them.
#[derive(Clone, Copy, Debug, PartialEq, Eq)]
pub struct Settings {
    /// How many cards fill a log ([`Config::LOG`]).
    pub log: usize,
    /// How many completed buffers their queue holds at most ([`Config::LIMIT`]).
    pub limit: usize,
    /// The count of refinements from which on a card is hot ([`Config::HOT`]).
    pub hot: u32,
    /// How many cards the hot ring holds at most ([`Config::RING`]).
    pub ring: usize,
    /// At how many completed buffers a round of refinement begins ([`Config::START`]).
    pub start: usize,
}

impl Default for Settings {
    ghost is_default = { λ s. s ≡ default_settings };

    /// The defaults of all settings.
    fn default() -> Settings {
        Settings {
            log: Config::LOG.default as usize,
            limit: Config::LIMIT.default as usize,
            hot: Config::HOT.default,
            ring: Config::RING.default as usize,
            start: Config::START.default as usize,
        }
    }
}

/// The settings of a core, each within its limits (docs/rules.md, Limits).
#[derive(Clone, Copy, Debug, PartialEq, Eq)]
pub struct Config {
    settings: Settings,
}

impl Model for Config {
    ghost use Rattle.g1_core.specs.Settings.{AreSettings};
    ghost use Rattle.g1_core.specs.declared.config.Settings.{Settings as Chosen};

    ghost Value = { Chosen };

    ghost view = { λ a. a.settings };

    ghost invariant = { λ a. AreSettings a.settings };

    ghost inverse = { λ s. record { settings = s } };
}

impl Config {
    /// How many cards fill a log.
    pub const LOG: Limits = Limits {
        least: 1,
        most: 256,
        default: 256,
    };

    /// How many completed buffers their queue holds at most.
    pub const LIMIT: Limits = Limits {
        least: 1,
        most: 1024,
        default: 10,
    };

    /// The count of refinements from which on a card is hot. With 0 every card is.
    pub const HOT: Limits = Limits {
        least: 0,
        most: 255,
        default: 4,
    };

    /// How many cards the hot ring holds at most.
    pub const RING: Limits = Limits {
        least: 1,
        most: 4096,
        default: 1024,
    };

    /// At how many completed buffers a round of refinement begins. If that is above the limit, no
    /// round ever begins, since the queue never holds that many.
    pub const START: Limits = Limits {
        least: 1,
        most: 1024,
        default: 5,
    };

    /// Makes settings of these numbers, in the order of the fields of [`Settings`].
    ///
    /// Returns `None` exactly if one of them is outside its limits.
    pub fn new(log: usize, limit: usize, hot: u32, ring: usize, start: usize) -> Option<Config>
        ensures { let s : Chosen = record {
          log = log;
          limit = limit;
          hot = hot;
          ring = ring;
          start = start;
        } in SomeIff result (AreSettings s) s }
    {
        Config::of(Settings {
            log,
            limit,
            hot,
            ring,
            start,
        })
    }

    /// Makes settings of these numbers, which name what they are for.
    ///
    /// Returns `None` exactly if one of them is outside its limits.
    pub fn of(settings: Settings) -> Option<Config>
        ensures { SomeIff result (AreSettings settings) settings }
    {
        let within = Config::LOG.contain(settings.log)
            && Config::LIMIT.contain(settings.limit)
            && Config::HOT.contain(settings.hot as usize)
            && Config::RING.contain(settings.ring)
            && Config::START.contain(settings.start);
        if !within {
            return None;
        }
        Some(Config { settings })
    }

    /// How many cards fill a log.
    pub fn log(&self) -> usize
        ensures cards { result ≡ self.now.log }
        ensures within { IsWithin Config.LOG result }
    {
        self.settings.log
    }

    /// How many completed buffers their queue holds at most.
    pub fn limit(&self) -> usize
        ensures buffers { result ≡ self.now.limit }
        ensures within { IsWithin Config.LIMIT result }
    {
        self.settings.limit
    }

    /// The count of refinements from which on a card is hot.
    pub fn hot(&self) -> u32
        ensures count { result ≡ self.now.hot }
        ensures within { IsWithin Config.HOT result }
    {
        self.settings.hot
    }

    /// How many cards the hot ring holds at most.
    pub fn ring(&self) -> usize
        ensures cards { result ≡ self.now.ring }
        ensures within { IsWithin Config.RING result }
    {
        self.settings.ring
    }

    /// At how many completed buffers a round of refinement begins.
    pub fn start(&self) -> usize
        ensures buffers { result ≡ self.now.start }
        ensures within { IsWithin Config.START result }
    {
        self.settings.start
    }

    /// Makes an empty log for a mutator. As many cards fill it as these settings say.
    pub fn new_log(&self) -> Log
        ensures { let log : Cards = record { size = self.now.log; cards = [] } in result ≡ log }
    {
        Log::new(self.settings.log)
    }
}

impl Default for Config {
    ghost is_default = { λ config. config ≡ default_settings };

    /// 256 cards fill a log, the queue holds 10 completed buffers, a card is hot from a count of 4
    /// on, the ring holds 1,024 cards, and a round begins at 5 completed buffers.
    fn default() -> Config {
        Config {
            settings: Settings::default(),
        }
    }
}
