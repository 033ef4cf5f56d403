//! The rule.

ghost use Rattle.std.specs.Prelude.{◌≡◌, ◌≤◌, ◌<◌, ◌==◌, ◌↔◌, ◌++◌, ◌∷◌, [], IfOk, IfSome, IsErrOf, IsTrue, ℕ, List, length, map, min};
ghost use Rattle.std.specs.List.{All, reduce};
ghost use Rattle.lab_model.specs.Film.{IsWithin};
ghost use Rattle.lab_model.specs.Rules.{throughput};
ghost use Rattle.lab_model.specs.Throughput.{least};
ghost use Rattle.throughput_rule.specs.Windows.{AreWindows, HoldLast, RateWindow, empty_window, mean_of, most_rate, throughput_of, widest_window, window_after};

use crate::window::Window;
use lab_model::{Context, Manifest, Rule, Sample, Setup};
use std::alloc::{AllocError, AllocFailed, Global};
use std::marker::Model;

/// The most windows of a rule.
const MOST_WINDOWS: usize = 4;

/// The widest window.
const WIDEST: u8 = 100;

/// Why there is no rule.
#[derive(Clone, Copy, PartialEq, Eq, Debug)]
pub enum RuleErr {
    /// There are no windows, or more than 4, or one is 0 or above 100.
    BadWindows,
    /// Memory was wanting.
    Memory,
}

impl From<AllocError> for RuleErr {
    ghost use Rattle.std.specs.Prelude.{◌≡◌};
    ghost use Rattle.throughput_rule.specs.declared.rule.RuleErr.{RuleErr};
    ghost use Rattle.throughput_rule.specs.declared.rule.RuleErr.TheVariants.{Memory};

    ghost from_gives = { λ _ e. e ≡ Memory };

    fn from(_refused: AllocError) -> RuleErr {
        RuleErr::Memory
    }
}

impl<T: Drop> From<AllocFailed<T>> for RuleErr {
    ghost use Rattle.std.specs.Prelude.{◌≡◌};
    ghost use Rattle.throughput_rule.specs.declared.rule.RuleErr.{RuleErr};
    ghost use Rattle.throughput_rule.specs.declared.rule.RuleErr.TheVariants.{Memory};

    ghost from_gives = { λ _ e. e ≡ Memory };

    fn from(_refused: AllocFailed<T>) -> RuleErr {
        RuleErr::Memory
    }
}

/// The greatest bitrate within nine tenths of the least mean of its windows.
#[derive(Drop)]
pub struct Throughput {
    windows: Vec<Window>,
}

impl Model for Throughput {
    ghost use Rattle.std.specs.Prelude.{List};
    ghost use Rattle.throughput_rule.specs.Windows.{RateWindow};

    ghost Value = { List RateWindow };

    ghost view = { λ t. t.windows.items };
}

fn are_windows(windows: &[u8]) -> bool
    ensures { IsTrue result ↔ AreWindows windows.now }
{
    !windows.is_empty()
        && windows.len() <= MOST_WINDOWS
        && windows.iter().all(|w| 1 <= *w && *w <= WIDEST)
}

/// A window of each of these widths, without any rate yet.
fn empty_windows(alloc: Global, widths: &[u8]) -> Result<Vec<Window>, RuleErr>
    requires { All (IsWithin 1 widest_window) widths.now }
    ensures ok { IfOk result (λ ws. ws.items ≡ map empty_window widths.now) }
    ensures err { IsErrOf result RuleErr.BadWindows → ⊥ }
{
    let mut windows = Vec::new(alloc);
    for width in widths {
        windows.push(Window::new(alloc, *width)?)?;
    }
    Ok(windows)
}

/// The least of the means of windows, if there is one.
fn least_of_means(windows: &[Window]) -> Option<u64>
    ensures value { result ≡ reduce min (map mean_of windows.now) }
    ensures limit { IfSome result (λ m. m ≤ most_rate) }
{
    windows.iter().map(|w| w.mean()).min()
}

/// The least of the means of windows, at most 10^10, and 0 where there is none.
fn least_mean(windows: &[Window]) -> u64
    ensures value { result ≡ least (map mean_of windows.now) }
    ensures limit { result ≤ most_rate }
{
    least_of_means(windows).unwrap_or(0)
}

/// Tells each window the next sample.
fn tell(windows: &mut Vec<Window>, s: Sample)
    ensures { windows.new.items ≡ map (window_after s.rate) windows.old.items }
{
    for window in windows.iter_mut() {
        window.push(s);
    }
}

impl Throughput {
    /// The rule with these windows, which was told no sample. `BadWindows` exactly where there are none or more than 4, or
    /// one is 0 or above 100.
    pub fn new(alloc: Global, windows: &[u8]) -> Result<Throughput, RuleErr>
        ensures kind { IfOk result (λ t. throughput_of t ≡ throughput windows.now) }
        ensures stands { IfOk result (λ t. HoldLast t []) }
        ensures ok { IfOk result (λ t. AreWindows windows.now) }
        ensures bad { IsErrOf result RuleErr.BadWindows ↔ (AreWindows windows.now → ⊥) }
    {
        if !are_windows(windows) {
            return Err(RuleErr::BadWindows);
        }
        Ok(Throughput {
            windows: empty_windows(alloc, windows)?,
        })
    }
}

impl Rule for Throughput {
    ghost kind = { λ ks. throughput_of ks };

    ghost stands_for = { λ ks history. HoldLast ks history };

    fn fits(&self, m: &Manifest) -> bool {
        let _ = m;
        true
    }

    fn observe(&mut self, s: Sample) {
        tell(&mut self.windows, s);
    }

    fn choose(&self, m: &Manifest, set: &Setup, c: &Context) -> u8 {
        let _ = set;
        let _ = c;
        m.greatest_rung(1000, 9 * least_mean(&self.windows) / 10)
    }
}
