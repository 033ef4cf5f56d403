//! What a command line asks for, by its command.

ghost use Rattle.std.specs.Prelude.{◌≡◌, IsSome, None, false, length, true};
ghost use Rattle.lab_model.specs.Film.{IsWithin};
ghost use Rattle.lab_words.specs.Command.{view};
ghost use Rattle.lab_model.specs.Limits.{most_budget};
ghost use Rattle.lab_words.specs.Limits.{AreGridWords, IsWithinLimits};
ghost use Rattle.abrlab_top.specs.Plan.{grid_in};
ghost use Rattle.abrlab_top.specs.Request.{IsRequest};

use frontier_planner::Grid;
use lab_inputs::FilmWords;
use lab_model::Budget;
use lab_words::{Command, Verb};
use std::marker::Model;

/// What is asked of `plan`.
#[derive(Clone, Copy)]
pub(crate) struct PlanOptions {
    grid: Option<Grid>,
    budget: Budget,
    as_certificate: bool,
}

impl Model for PlanOptions {
    ghost use Rattle.abrlab_top.specs.Plan.{PlanAsked};

    ghost Value = { PlanAsked };

    ghost view = { λ o.
        record { grid = o.grid; budget = o.budget; as_certificate = o.as_certificate } };

    ghost inverse = { λ o.
        record { grid = o.grid; budget = o.budget; as_certificate = o.as_certificate } };
}

impl PlanOptions {
    /// A plan without a grid, of so many labels at most.
    pub fn exact(budget: Budget) -> PlanOptions
        ensures { result ≡ record { grid = None; budget = budget; as_certificate = false } }
    {
        PlanOptions {
            grid: None,
            budget,
            as_certificate: false,
        }
    }

    /// The grid of a coarse plan, none where nothing is rounded.
    pub fn grid(&self) -> Option<Grid>
        ensures { result ≡ self.now.grid }
    {
        self.grid
    }

    /// The most labels.
    pub fn budget(&self) -> Budget
        ensures { result ≡ self.now.budget }
    {
        self.budget
    }

    /// Whether the certificate is to be written.
    pub fn as_certificate(&self) -> bool
        ensures { result ≡ self.now.as_certificate }
    {
        self.as_certificate
    }
}

/// What `simulate` is asked for with several players: 1 to 8 rules, and nobody gives a download up.
#[derive(Drop)]
pub(crate) struct PlayersWords {
    words: FilmWords,
}

impl Model for PlayersWords {
    ghost use Rattle.std.specs.Prelude.{◌≡◌, false, length};
    ghost use Rattle.lab_model.specs.Film.{IsWithin};
    ghost use Rattle.lab_words.specs.Command.{CommandWords};

    ghost Value = { CommandWords };

    ghost view = { λ w. w.words };

    ghost invariant = { λ w. IsWithin 1 8 (length w.words.rules) × (w.words.abandon ≡ false) };
}

impl PlayersWords {
    /// The words, for the files.
    pub fn into_film_words(self) -> FilmWords
        ensures value { result ≡ self }
        ensures players { IsWithin 1 8 (length self.rules) }
        ensures keeps { self.abandon ≡ false }
    {
        self.words
    }
}

/// What `compare --regret` is asked for: no download is given up, and the plans have a budget.
#[derive(Drop)]
pub(crate) struct RegretWords {
    words: FilmWords,
    budget: Budget,
}

impl Model for RegretWords {
    ghost use Rattle.std.specs.Prelude.{◌≡◌, false};
    ghost use Rattle.lab_model.specs.Film.{IsWithin};
    ghost use Rattle.lab_words.specs.Command.{CommandWords};

    ghost Value = { CommandWords };

    ghost view = { λ w. w.words };

    ghost invariant = { λ w. (w.words.abandon ≡ false) × (w.budget ≡ w.words.budget) };
}

impl RegretWords {
    /// The most labels of the plan of each network.
    pub fn budget(&self) -> Budget
        ensures { result ≡ self.now.budget }
    {
        self.budget
    }

    /// The words, for the files.
    pub fn into_film_words(self) -> FilmWords
        ensures value { result ≡ self }
        ensures calm { self.abandon ≡ false }
    {
        self.words
    }
}

/// What `check` is asked for: a certificate is among its files.
#[derive(Drop)]
pub(crate) struct CheckWords {
    words: FilmWords,
    gap: bool,
}

impl Model for CheckWords {
    ghost use Rattle.std.specs.Prelude.{◌≡◌, IsSome, false};
    ghost use Rattle.lab_words.specs.Command.{CommandWords};

    ghost Value = { CommandWords };

    ghost view = { λ w. w.words };

    ghost invariant = { λ w. IsSome w.words.certificate
        × (w.words.near ≡ false)
        × (w.gap ≡ w.words.gap) };
}

impl CheckWords {
    /// Whether the certificate is one of a coarse plan, with its bound.
    pub fn gap(&self) -> bool
        ensures { result ≡ self.now.gap }
    {
        self.gap
    }

    /// The words, for the files.
    pub fn into_film_words(self) -> FilmWords
        ensures value { result ≡ self }
        ensures certificate { IsSome self.certificate }
        ensures by_labels { self.near ≡ false }
    {
        self.words
    }
}

/// What `check --near` is asked for: a certificate by prices is among its files.
#[derive(Drop)]
pub(crate) struct PriceCheckWords {
    words: FilmWords,
}

impl Model for PriceCheckWords {
    ghost use Rattle.std.specs.Prelude.{◌≡◌, IsSome, true};
    ghost use Rattle.lab_words.specs.Command.{CommandWords};

    ghost Value = { CommandWords };

    ghost view = { λ w. w.words };

    ghost invariant = { λ w. IsSome w.words.certificate × (w.words.near ≡ true) };
}

impl PriceCheckWords {
    /// The words, for the files.
    pub fn into_film_words(self) -> FilmWords
        ensures value { result ≡ self }
        ensures certificate { IsSome self.certificate }
        ensures by_prices { self.near ≡ true }
    {
        self.words
    }
}

/// What a command line asks for.
pub(crate) enum Request {
    /// The session of a rule.
    Simulate(FilmWords),
    /// The joint session of several players.
    Players(PlayersWords),
    /// Rules side by side.
    Compare(FilmWords),
    /// Rules by how far they stay behind the best.
    Regret(RegretWords),
    /// Rules by how far they stay behind a bound by prices at most.
    NearRegret(RegretWords),
    /// The best rung list, or on a grid one with a bound.
    Plan(FilmWords, PlanOptions),
    /// A rung list with a bound by prices, or its certificate.
    NearPlan {
        /// The words, for the files.
        words: FilmWords,
        /// Whether the certificate is to be written.
        as_certificate: bool,
    },
    /// The verdict on a certificate.
    Check(CheckWords),
    /// The verdict on a certificate by prices.
    PriceCheck(PriceCheckWords),
    /// Everything on the made case of this number.
    Demo(u32),
}

/// The grid with these steps, none where there are none.
fn grid_in(time: u32, value: u32) -> Option<Grid>
    requires { AreGridWords time value }
    ensures { result ≡ grid_in time value }
{
    Grid::new(time, value)
}

/// The budget of so many labels.
fn budget_of(labels: u32) -> Budget
    requires { IsWithin 1 most_budget labels }
    ensures { result ≡ labels }
{
    match Budget::new(labels) {
        Some(budget) => budget,
        None => unreachable!(),
    }
}

impl Request {
    /// What `compare --regret` asks for.
    fn of_regret(command: Command) -> Request
        requires limits { IsWithinLimits (view command) }
        requires verb { command.verb ≡ Verb.Compare }
        requires regret { command.regret ≡ true }
        ensures { IsRequest (view command) result }
    {
        let (budget, near) = (budget_of(command.budget), command.near);
        let words = FilmWords::of(command);
        let words = RegretWords { words, budget };
        if near {
            Request::NearRegret(words)
        } else {
            Request::Regret(words)
        }
    }

    /// What `plan` asks for.
    fn of_plan(command: Command) -> Request
        requires limits { IsWithinLimits (view command) }
        requires verb { command.verb ≡ Verb.Plan }
        ensures { IsRequest (view command) result }
    {
        let as_certificate = command.as_certificate;
        if command.near {
            let words = FilmWords::of(command);
            return Request::NearPlan {
                words,
                as_certificate,
            };
        }
        let options = PlanOptions {
            grid: grid_in(command.coarse_time, command.coarse_value),
            budget: budget_of(command.budget),
            as_certificate,
        };
        Request::Plan(FilmWords::of(command), options)
    }

    /// What `check` asks for.
    fn of_check(command: Command) -> Request
        requires limits { IsWithinLimits (view command) }
        requires verb { command.verb ≡ Verb.Check }
        ensures { IsRequest (view command) result }
    {
        let gap = command.gap;
        if command.near {
            let words = FilmWords::of(command);
            return Request::PriceCheck(PriceCheckWords { words });
        }
        let words = FilmWords::of(command);
        Request::Check(CheckWords { words, gap })
    }

    /// What a command asks for.
    pub fn of(command: Command) -> Request
        requires { IsWithinLimits (view command) }
        ensures { IsRequest (view command) result }
    {
        match command.verb {
            Verb::Simulate => {
                if command.players {
                    let words = FilmWords::of(command);
                    Request::Players(PlayersWords { words })
                } else {
                    Request::Simulate(FilmWords::of(command))
                }
            }
            Verb::Compare => {
                if command.regret {
                    Request::of_regret(command)
                } else {
                    Request::Compare(FilmWords::of(command))
                }
            }
            Verb::Plan => Request::of_plan(command),
            Verb::Check => Request::of_check(command),
            Verb::Demo => Request::Demo(command.number),
        }
    }
}
