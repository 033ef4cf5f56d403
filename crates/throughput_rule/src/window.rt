//! A window: the last rates, and their sum.

ghost use Rattle.std.specs.Prelude.{◌≡◌, ◌≤◌, IfOk};
ghost use Rattle.lab_model.specs.Film.{IsWithin};
ghost use Rattle.throughput_rule.specs.Windows.{RateWindow, empty_window, mean_of, most_rate, widest_window, window_after};

use circular_buffer::HeapCircularBuffer;
use lab_model::{Sample, floor_mean};
use std::alloc::{AllocError, Global};
use std::marker::Model;

/// The last rates of a history, as many as the window asks for, and their sum.
#[derive(Drop)]
pub(crate) struct Window {
    ring: HeapCircularBuffer<u64>,
    sum: u64,
}

impl Model for Window {
    ghost use Rattle.std.specs.Prelude.{◌≡◌, ◌≤◌, length, sum};
    ghost use Rattle.std.specs.List.{All};
    ghost use Rattle.lab_model.specs.Film.{IsWithin};
    ghost use Rattle.throughput_rule.specs.Windows.{RateWindow, most_rate, widest_window};

    ghost Value = { RateWindow };

    ghost view = { λ w. record { width = w.ring.capacity; rates = w.ring.items } };

    ghost invariant = { λ w. IsWithin 1 widest_window w.ring.capacity
        × (length w.ring.items ≤ w.ring.capacity)
        × All (λ c. c ≤ most_rate) w.ring.items
        × (w.sum ≡ Rattle.std.specs.Prelude.sum w.ring.items) };
}

impl Window {
    /// A window of so many rates, without any yet.
    pub fn new(alloc: Global, width: u8) -> Result<Window, AllocError>
        requires { IsWithin 1 widest_window width }
        ensures { IfOk result (λ w. w ≡ empty_window width) }
    {
        Ok(Window {
            ring: HeapCircularBuffer::with_capacity(alloc, width as usize)?,
            sum: 0,
        })
    }

    /// Tells the window the next sample. Where it is full the oldest one goes.
    pub fn push(&mut self, s: Sample)
        ensures { self.new ≡ window_after s.rate self.old }
    {
        let oldest = self.ring.push_back(s.rate).unwrap_or(0);
        self.sum = self.sum + s.rate - oldest;
    }

    /// The mean of the rates, rounded down, and 0 without rates. It is at most 10^10.
    #[tactic(auto, using(crate::proofs::Sums::mean_within))]
    pub fn mean(&self) -> u64
        ensures value { result ≡ mean_of self.now }
        ensures limit { result ≤ most_rate }
    {
        if self.ring.is_empty() {
            return 0;
        }
        floor_mean(self.sum, self.ring.len() as u64)
    }
}
