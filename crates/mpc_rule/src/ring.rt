//! The rings of the last rates and errors.

ghost use Rattle.std.specs.Prelude.{◌≡◌, ◌+◌, ◌*◌, ◌/◌, ◌<◌, ◌≤◌, ◌==◌, [], ◌∷◌, ◌++◌, length, take, IfOk};
ghost use Rattle.std.specs.Int.{abs_diff};
ghost use Rattle.lab_model.specs.Film.{IsWithin};
ghost use Rattle.lab_model.specs.Rates.{greatest, harmonic_of, last_of};

use circular_buffer::HeapCircularBuffer;
use lab_model::{Sample, harmonic};
use std::alloc::{AllocError, Global};
use std::marker::Model;

/// How many rates and how many errors are kept.
const KEPT: usize = 5;

/// The last rates of a history, at most 5, each 1 to 10^10 bits per second.
#[derive(Drop)]
pub(crate) struct Rates {
    ring: HeapCircularBuffer<u64>,
}

impl Model for Rates {
    ghost use Rattle.std.specs.Prelude.{ℕ, List};
    ghost use Rattle.mpc_rule.specs.Recall.{IsRing};

    ghost Value = { List ℕ };

    ghost view = { λ r. r.ring.items };

    ghost invariant = { λ r. IsRing 1 10000000000 r.ring };
}

/// The last errors of a history, at most 5, each at most 10^13 thousandths.
#[derive(Drop)]
pub(crate) struct Errors {
    ring: HeapCircularBuffer<u64>,
}

impl Model for Errors {
    ghost use Rattle.std.specs.Prelude.{ℕ, List};
    ghost use Rattle.mpc_rule.specs.Recall.{IsRing};

    ghost Value = { List ℕ };

    ghost view = { λ e. e.ring.items };

    ghost invariant = { λ e. IsRing 0 10000000000000 e.ring };
}

impl Rates {
    /// No rates.
    pub(crate) fn new(alloc: Global) -> Result<Rates, AllocError>
        ensures { IfOk result (λ r. r ≡ []) }
    {
        let ring = HeapCircularBuffer::with_capacity(alloc, KEPT)?;
        Ok(Rates { ring })
    }

    /// Whether there is no rate.
    pub(crate) fn is_empty(&self) -> bool
        ensures { result ≡ (length self.now == 0) }
    {
        self.ring.is_empty()
    }

    /// One more rate.
    pub(crate) fn push(&mut self, s: Sample)
        ensures { self.new ≡ last_of 5 (self.old ++ s.rate ∷ []) }
    {
        self.ring.push_back(s.rate);
    }

    /// The rates, in order, in the first places of an array.
    fn numbers(&self) -> [u64; KEPT]
        ensures numbers { take (length self.now) result ≡ self.now }
        ensures few { length self.now ≤ 5 }
    {
        let (front, back) = self.ring.as_slices();
        let mut numbers = [0; KEPT];
        numbers[..front.len()].copy_from_slice(front);
        numbers[front.len()..front.len() + back.len()].copy_from_slice(back);
        numbers
    }

    /// The harmonic value of the rates.
    pub(crate) fn harmonic(&self) -> u64
        requires { 0 < length self.now }
        ensures value { result ≡ harmonic_of self.now }
        ensures limits { IsWithin 1 10000000000 result }
    {
        let rates = self.numbers();
        harmonic(&rates[..self.ring.len()])
    }

    /// The error, in thousandths, of foretelling a sample by the harmonic value of the rates.
    pub(crate) fn error(&self, s: Sample) -> u64
        requires { 0 < length self.now }
        ensures value { result ≡ 1000 * abs_diff (harmonic_of self.now) s.rate / s.rate }
        ensures limit { result ≤ 10000000000000 }
    {
        1000 * self.harmonic().abs_diff(s.rate) / s.rate
    }
}

impl Errors {
    /// No errors.
    pub(crate) fn new(alloc: Global) -> Result<Errors, AllocError>
        ensures { IfOk result (λ e. e ≡ []) }
    {
        let ring = HeapCircularBuffer::with_capacity(alloc, KEPT)?;
        Ok(Errors { ring })
    }

    /// One more error.
    pub(crate) fn push(&mut self, error: u64)
        requires { error ≤ 10000000000000 }
        ensures { self.new ≡ last_of 5 (self.old ++ error ∷ []) }
    {
        self.ring.push_back(error);
    }

    /// The greatest of the errors, 0 where there is none.
    pub(crate) fn greatest(&self) -> u64
        ensures value { result ≡ greatest self.now }
        ensures limit { result ≤ 10000000000000 }
    {
        self.ring.iter().fold(0, |most, error| most.max(*error))
    }
}
