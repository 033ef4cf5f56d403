//! What the segments to come can add at most.
//!
//! A millisecond of media is given a price, at most the weight of a millisecond of stall. Then a rung promises its
//! utility less the price of the milliseconds in which it comes, and less what of the stall the price leaves, as far as
//! even a full buffer stalls. No list adds more than the price of the media in hand and that is loaded before its last
//! segment, and the greatest promises of its segments.

ghost use Rattle.std.specs.Prelude.{◌≡◌, ℕ, ◌<◌, ◌≤◌, ◌≤ℤ◌};
ghost use Rattle.mpc_rule.specs.Lookahead.{ladder_of, weights_of};
ghost use Rattle.mpc_rule.specs.Search.{IsDraft};
ghost use Rattle.mpc_rule.specs.Relaxations.{IsCeiling, IsPromise, promise_at};

use crate::forecast::{Draft, Forecast, LONGEST};
use std::marker::Model;

/// What the segments to come can add at most, at a price of a millisecond of media.
#[derive(Drop)]
pub(crate) struct Relaxation<'a> {
    forecast: &'a Forecast<'a>,
    /// The price in thousandths of a point, at most the weight of a millisecond of stall.
    price: u32,
    /// What the last segments can add, the last alone at first, then the last two, and so on.
    sums: [i64; LONGEST],
}

impl<'a> Model for Relaxation<'a> {
    ghost use Rattle.mpc_rule.specs.Lookahead.{Lookahead};
    ghost use Rattle.mpc_rule.specs.Relaxations.{IsRelaxation};

    ghost Value = { Lookahead };

    ghost view = { λ r. r.forecast.now };

    ghost invariant = { λ r. IsRelaxation r.forecast.now r.price r.sums };
}

impl Forecast<'_> {
    /// What a rung of the segment after so many promises at a price.
    fn promise(&self, price: u32, count: u8, rung: u8) -> i64
        requires price { price ≤ (weights_of self.now).stall }
        requires segment { count < self.now.span }
        requires rung { rung < ladder_of self.now }
        ensures value { result ≡ promise_at self.now price count rung }
        ensures limits { IsPromise result }
    {
        let told = self.foretold(count, rung);
        let rest = self.stall_weight() - price;
        let stall = told.wait.saturating_sub(self.room() as u64);
        1000 * told.utility as i64 - (price as u64 * told.wait + rest as u64 * stall) as i64
    }

    /// The greatest promise of the rungs of the segment after so many.
    fn greatest_promise(&self, price: u32, count: u8) -> i64
        requires price { price ≤ (weights_of self.now).stall }
        requires segment { count < self.now.span }
        ensures most { (rung : ℕ) → rung < ladder_of self.now
            → promise_at self.now price count rung ≤ℤ result }
        ensures limits { IsPromise result }
    {
        let rungs = self.rungs();
        let mut most = self.promise(price, count, 0);
        for rung in 1..rungs {
            most = most.max(self.promise(price, count, rung));
        }
        most
    }
}

impl<'a> Relaxation<'a> {
    /// What the segments to come can add at most, at a price.
    pub(crate) fn at(forecast: &'a Forecast<'a>, price: u32) -> Relaxation<'a>
        requires { price ≤ (weights_of forecast.now).stall }
        ensures { result ≡ forecast.entry.now }
    {
        let load = (price as u64 * forecast.seg_ms() as u64) as i64;
        let span = forecast.span();
        let mut sum = forecast.greatest_promise(price, span - 1);
        let mut sums = [sum; LONGEST];
        for n in 1..span {
            sum += load + forecast.greatest_promise(price, span - 1 - n);
            sums[n as usize] = sum;
        }
        Relaxation {
            forecast,
            price,
            sums,
        }
    }

    /// The most that a list can come to by its segments to come.
    pub(crate) fn bound(&self, draft: &Draft) -> i64
        requires draft { IsDraft self.now draft.now }
        requires room { draft.now.count < self.now.span }
        ensures { IsCeiling self.now draft.now result }
    {
        let more = self.forecast.span() - draft.count;
        let price = self.price as u64 * draft.level as u64;
        draft.score + price as i64 + self.sums[more as usize - 1]
    }

    /// A relaxation that bounds closely: the price is sought by halves, where what a whole list can come to is least.
    pub(crate) fn tight(forecast: &'a Forecast<'a>) -> Relaxation<'a>
        ensures { result ≡ forecast.entry.now }
    {
        let start = forecast.start();
        let (mut low, mut high) = (0, forecast.stall_weight());
        while low < high {
            let middle = low + (high - low) / 2;
            let here = Relaxation::at(&*forecast, middle).bound(&start);
            let above = Relaxation::at(&*forecast, middle + 1).bound(&start);
            if here <= above {
                high = middle;
            } else {
                low = middle + 1;
            }
        }
        Relaxation::at(forecast, low)
    }
}
