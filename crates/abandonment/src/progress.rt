//! How far a running download has come.

ghost use Rattle.std.specs.Prelude.{◌≡◌, ◌≤◌};
ghost use Rattle.abandonment.specs.Progress.{IsProgress};
ghost use Rattle.abandonment.specs.Test.{rate_now};

use lab_model::Sample;
use std::marker::Model;

/// How far a running download has come: at most 2 * 10^9 ms have passed since its request, no more of them were spent on bits, and at most
/// 10000000 bits came in each of these.
#[derive(Clone, Copy, PartialEq, Eq, Debug)]
pub struct Progress {
    elapsed_ms: u64,
    bit_ms: u64,
    got: u32,
}

impl Model for Progress {
    ghost use Rattle.abandonment.specs.Progress.{IsProgress, Received};

    ghost Value = { Received };

    ghost view = { λ p. record { elapsed_ms = p.elapsed_ms; bit_ms = p.bit_ms; got = p.got } };

    ghost invariant = { λ p. IsProgress (record { elapsed_ms = p.elapsed_ms; bit_ms = p.bit_ms; got = p.got }) };

    ghost inverse = { λ p. record { elapsed_ms = p.elapsed_ms; bit_ms = p.bit_ms; got = p.got } };
}

impl Progress {
    /// A download that has come so far.
    pub fn new(elapsed_ms: u64, bit_ms: u64, got: u32) -> Progress
        requires { IsProgress
            (record { elapsed_ms = elapsed_ms; bit_ms = bit_ms; got = got }) }
        ensures { result ≡ record { elapsed_ms = elapsed_ms; bit_ms = bit_ms; got = got } }
    {
        Progress {
            elapsed_ms,
            bit_ms,
            got,
        }
    }

    /// The milliseconds since the request.
    pub fn elapsed_ms(&self) -> u64
        ensures value { result ≡ self.now.elapsed_ms }
        ensures keeps { IsProgress self.now }
    {
        self.elapsed_ms
    }

    /// The milliseconds from the first one that was spent on bits.
    pub fn bit_ms(&self) -> u64
        ensures value { result ≡ self.now.bit_ms }
        ensures keeps { IsProgress self.now }
    {
        self.bit_ms
    }

    /// The bits received.
    pub fn got(&self) -> u32
        ensures value { result ≡ self.now.got }
        ensures keeps { IsProgress self.now }
    {
        self.got
    }

    /// The rate at which the download runs, in bits per second, 1 to 10000000000. Bits have been waited for.
    pub fn rate(&self) -> u64
        requires { 1 ≤ self.now.bit_ms }
        ensures value { result ≡ rate_now self.now }
        ensures limit { result ≤ 10000000000 }
    {
        Sample::of(self.got, self.bit_ms).rate
    }
}
