//! The sample of a download.

ghost use Rattle.std.specs.Prelude.{◌≡◌, ◌*◌, ◌≤◌};
ghost use Rattle.lab_model.specs.Rates.{rate_of};

/// The rate of a download that ended or was abandoned.
#[derive(Clone, Copy)]
pub struct Sample {
    /// Bits per second, 1 to 10000000000.
    pub rate: u64,
    pub ghost low: { 1 ≤ rate },
    pub ghost high: { rate ≤ 10000000000 },
}

impl Sample {
    /// The sample of `got` bits that came in `bit_ms` milliseconds: their rate, rounded down, and at least 1.
    pub fn of(got: u32, bit_ms: u64) -> Sample
        requires time { 1 ≤ bit_ms }
        requires got { got ≤ 10000000 * bit_ms }
        ensures { result.rate ≡ rate_of got bit_ms }
    {
        let rate = 1000 * got as u64 / bit_ms;
        Sample { rate: rate.max(1) }
    }
}
