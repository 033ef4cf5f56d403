//! The words of a command line, read by `clap` and by the rules of this project.
#![tactic(auto)]

mod check;
mod compare;
mod demo;
mod numbers;
mod plan;
mod rules;
mod settings;
mod simulate;
mod table;
mod values;

ghost use Rattle.std.specs.Prelude.{◌≡◌, Err, IfOk, codes, false, map, string_bytes};
ghost use Rattle.std.specs.List.{list_any};
ghost use Rattle.std.specs.Str.{bytes_eq};
ghost use Rattle.lab_words.specs.Limits.{IsWithinLimits};
ghost use Rattle.lab_words.specs.Command.{blank, view};
ghost use Rattle.lab_words.specs.Values.{Understands};
ghost use Rattle.lab_words.specs.Words.{asked_of, begins_with_verb, command_of, has_dashes, verb_of};

use crate::check::check_of;
use crate::compare::compare_of;
use crate::demo::demo_of;
use crate::plan::plan_of;
use crate::simulate::simulate_of;
use std::alloc::{AllocError, AllocFailed, Global};

/// The command that a command line names by its first word.
#[derive(Clone, Copy, Debug, PartialEq, Eq)]
pub enum Verb {
    /// Print the session of one player.
    Simulate,
    /// Print a row for each rule on each trace.
    Compare,
    /// Print the best rung list.
    Plan,
    /// Print whether a certificate is valid.
    Check,
    /// Print the summary of a made-up case.
    Demo,
}

/// A rule that picks rungs, as it is spelled on the command line.
#[derive(Debug, Drop)]
pub enum RuleWords {
    /// `fixed:Q`: always the rung Q, from 0 to 15.
    Fixed { rung: u8 },
    /// `list:Q,Q,..`: a rung for each segment, 1 to 2000 of them, each from 0 to 15.
    List { rungs: Vec<u8> },
    /// `throughput:W,..`: 1 to 4 windows of samples, each from 1 to 100.
    Throughput { windows: Vec<u8> },
    /// `bola:G`: the weight of the buffer in BOLA's score, from 1 to 1000000.
    Bola { g: u32 },
    /// `mpc:H`: the segments that model predictive control looks ahead, from 1 to 5.
    Mpc { horizon: u8 },
}

/// A rule and the word that spells it.
#[derive(Debug, Drop)]
pub struct NamedRule {
    /// The rule's word as it was given.
    pub name: String,
    pub rule: RuleWords,
}

/// What a command line asks for.
#[derive(Debug, Drop)]
pub struct Command {
    pub verb: Verb,
    /// The manifest's file name.
    pub manifest: String,
    /// The traces' file names.
    pub traces: Vec<String>,
    /// The rules to compare, or those of the players, in order.
    pub rules: Vec<NamedRule>,
    /// The buffer's room, from 1 to 10000000 ms.
    pub buffer_ms: u32,
    /// The utility of each rung, 1 to 16 of them, non-decreasing, each from 0 to 1000000 points;
    /// none where a table is named.
    pub utilities: Vec<u32>,
    /// The utility table's file name.
    pub table: Option<String>,
    /// What a switch by one point of utility costs, from 0 to 1000000 thousandths of a point.
    pub switch: u32,
    /// What a millisecond of stall costs, from 0 to 1000000 thousandths of a point.
    pub stall: u32,
    /// What a millisecond of startup costs, from 0 to 1000000 thousandths of a point.
    pub startup: u32,
    /// Whether a download may be given up for a lower rung.
    pub abandon: bool,
    /// The seek script's file name.
    pub seeks: Option<String>,
    /// How many labels a plan may have, from 1 to 1000000; 0 where a comparison has no regrets.
    pub budget: u32,
    /// Whether the plan's certificate is asked for.
    pub as_certificate: bool,
    /// The certificate's file name.
    pub certificate: Option<String>,
    /// The number of the made-up case, from 0 to 2147483647.
    pub number: u32,
    /// The media that are there at instant 0, from 0 to 120000000 ms, where the film is live.
    pub live: Option<u32>,
    /// The grid's milliseconds, from 1 to 10000; 0 where no coarse plan is asked for.
    pub coarse_time: u32,
    /// The grid's thousandths of a point, from 1 to 1000000; 0 where no coarse plan is asked for.
    pub coarse_value: u32,
    /// Whether the certificate is one of a coarse plan, with its bound.
    pub gap: bool,
    /// Whether the rules are those of 1 to 8 players on one link.
    pub players: bool,
    /// Whether each rule's regret is asked for.
    pub regret: bool,
    /// Whether bounds by prices are asked for in place of the best value.
    pub near: bool,
}

impl Command {
    // A command that asks for nothing yet.
    pub(crate) fn blank(alloc: Global, verb: Verb) -> Command
        ensures { view result ≡ blank verb }
    {
        Command {
            verb,
            manifest: String::new(alloc),
            traces: Vec::new(alloc),
            rules: Vec::new(alloc),
            buffer_ms: 0,
            utilities: Vec::new(alloc),
            table: None,
            switch: 0,
            stall: 0,
            startup: 0,
            abandon: false,
            seeks: None,
            budget: 0,
            as_certificate: false,
            certificate: None,
            number: 0,
            live: None,
            coarse_time: 0,
            coarse_value: 0,
            gap: false,
            players: false,
            regret: false,
            near: false,
        }
    }
}

/// Why a command line was not read.
#[derive(Clone, Copy, Debug, PartialEq, Eq)]
pub enum WordsErr {
    /// The words are refused.
    Usage,
    /// Memory ran out.
    Memory,
}

impl From<AllocError> for WordsErr {
    ghost use Rattle.std.specs.Prelude.{◌≡◌};
    ghost use Rattle.lab_words.specs.declared.WordsErr.TheVariants.{Memory};

    ghost from_gives = { λ _ e. e ≡ Memory };

    fn from(_refused: AllocError) -> WordsErr {
        WordsErr::Memory
    }
}

impl<T: Drop> From<AllocFailed<T>> for WordsErr {
    ghost use Rattle.std.specs.Prelude.{◌≡◌};
    ghost use Rattle.lab_words.specs.declared.WordsErr.TheVariants.{Memory};

    ghost from_gives = { λ _ e. e ≡ Memory };

    fn from(_refused: AllocFailed<T>) -> WordsErr {
        WordsErr::Memory
    }
}

fn any_dashes(words: &[String]) -> bool
    ensures { result ≡ list_any (λ word. bytes_eq (string_bytes word) (codes "--")) words.now }
{
    words.iter().any(|word| word.as_str() == "--")
}

/// Whether the word `--` stands among the words.
fn has_dashes(words: &[String]) -> bool
    ensures { result ≡ has_dashes (map string_bytes words.now) }
{
    any_dashes(words)
}

/// The command that a word names.
fn verb_of(word: &str) -> Option<Verb>
    ensures { result ≡ verb_of word.now }
{
    match word {
        "simulate" => Some(Verb::Simulate),
        "compare" => Some(Verb::Compare),
        "plan" => Some(Verb::Plan),
        "check" => Some(Verb::Check),
        "demo" => Some(Verb::Demo),
        _ => None,
    }
}

/// What the words behind a command's name ask for.
fn asked_of(alloc: Global, verb: Verb, words: &[String]) -> Result<Command, WordsErr>
    ensures { Understands view result (asked_of verb (map string_bytes words.now)) }
{
    match verb {
        Verb::Simulate => simulate_of(alloc, words),
        Verb::Compare => compare_of(alloc, words),
        Verb::Plan => plan_of(alloc, words),
        Verb::Check => check_of(alloc, words),
        Verb::Demo => demo_of(alloc, words),
    }
}

/// What the words ask for, the command line without the program's name. They are refused exactly
/// where `command_of` has no command for them. No memory is taken where there are no words or the
/// first is no command.
#[tactic(auto, unfolding(crate::specs::Words::command_of))]
pub fn read_words(alloc: Global, words: &[String]) -> Result<Command, WordsErr>
    ensures read { Understands view result (command_of (map string_bytes words.now)) }
    ensures limits { IfOk result (λ command. IsWithinLimits (view command)) }
    ensures no_command { begins_with_verb (map string_bytes words.now) ≡ false
        → result ≡ Err WordsErr.Usage }
{
    let Some((first, others)) = words.split_first() else {
        return Err(WordsErr::Usage);
    };
    let Some(verb) = verb_of(first) else {
        return Err(WordsErr::Usage);
    };
    if has_dashes(others) {
        return Err(WordsErr::Usage);
    }
    asked_of(alloc, verb, others)
}

#[cfg(test)]
mod tests;
