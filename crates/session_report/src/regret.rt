//! How far the sessions of a rule stay behind the best: rows, and totals over several traces.
ghost use Rattle.std.specs.Prelude.{◌≡◌, ◌^◌, ◌<◌, ◌∷◌, [], ◌++◌, List, pos};
ghost use Rattle.lab_io.specs.Sink.{Puts};
ghost use Rattle.lab_model.specs.Number.{IsNear};
ghost use Rattle.session_report.specs.Regret.{AreScores, IsTotalOf, Scores, regret_line, sums_line, top_line, top_word, total_line};

use lab_io::Piece::{Number, Word};
use lab_io::{PutErr, Sink, put_fields};

/// The total of a list of pairs of scores: the score of a session, and the best score on the same trace.
/// All but the count are in thousandths of a point.
#[derive(Clone, Copy, PartialEq, Eq, Debug)]
pub struct Total {
    /// The sum of the scores.
    pub score: i128,
    /// The sum of the best scores, or of their bounds.
    pub best: i128,
    /// The sum of the differences.
    pub regret: i128,
    /// The greatest difference, 0 where there is no pair.
    pub worst: i128,
    /// The number of pairs, at most 64.
    pub count: u8,
}

impl Total {
    /// The total of no pair: all is 0.
    pub fn start() -> Total
        ensures zero { result
            ≡ record { score = pos 0; best = pos 0; regret = pos 0; worst = pos 0; count = 0 } }
        ensures stands { IsTotalOf [] result }
    {
        Total {
            score: 0,
            best: 0,
            regret: 0,
            worst: 0,
            count: 0,
        }
    }

    /// Appends a pair. Both are within 10^24 of 0, and the score is not above the best. The total is that of
    /// a list, of fewer than 64 pairs.
    pub fn add(&mut self, score: i128, best: i128)
        requires pair { AreScores (score, best) }
        requires room { self.old.count < 64 }
        requires list { (ps : List Scores) × IsTotalOf ps self.old }
        ensures { (ps : List Scores) → IsTotalOf ps self.old
            → IsTotalOf (ps ++ (score, best) ∷ []) self.new }
    {
        let regret = best - score;
        self.score += score;
        self.best += best;
        self.regret += regret;
        self.worst = self.worst.max(regret);
        self.count += 1;
    }
}

/// What scores are compared with.
#[derive(Clone, Copy, PartialEq, Eq, Debug)]
pub enum Top {
    /// The best score of all rung lists.
    Best,
    /// A bound that no rung list passes.
    Bound,
}

impl Top {
    /// Its word.
    fn word(self) -> &'static str
        ensures { result.now ≡ top_word self }
    {
        match self {
            Top::Best => "best",
            Top::Bound => "bound",
        }
    }

    /// Puts the row of a rule on one trace: `rule NAME`, its score, the top and the difference of the two.
    /// Both are in thousandths of a point, within 10^24 of 0. After an `Err` a prefix of the row went out.
    /// It takes no memory of its own.
    pub fn put_row<O: Sink>(
        self,
        name: &str,
        score: i128,
        top: i128,
        out: &mut O,
    ) -> Result<(), PutErr>
        requires score { IsNear (10 ^ 24) score }
        requires top { IsNear (10 ^ 24) top }
        ensures { Puts (O.seen out.old) (top_line self name.now score top) (O.seen out.new) result }
    {
        put_fields(
            out,
            &[
                Word("rule"),
                Word(name),
                Word("score"),
                Number(score),
                Word(self.word()),
                Number(top),
                Word("regret"),
                Number(top - score),
            ],
        )
    }

    /// Puts the row of a rule over all traces: `total NAME` and its sums, and the greatest difference.
    /// After an `Err` a prefix of the row went out. It takes no memory of its own.
    pub fn put_total<O: Sink>(self, name: &str, total: &Total, out: &mut O) -> Result<(), PutErr>
        ensures { Puts (O.seen out.old) (sums_line self name.now total.now) (O.seen out.new) result }
    {
        put_fields(
            out,
            &[
                Word("total"),
                Word(name),
                Word("score"),
                Number(total.score),
                Word(self.word()),
                Number(total.best),
                Word("regret"),
                Number(total.regret),
                Word("worst"),
                Number(total.worst),
            ],
        )
    }
}

/// Puts the row of a rule on one trace: `rule NAME`, its score, the best score and the difference of the two.
/// Both are in thousandths of a point, within 10^24 of 0. After an `Err` a prefix of the row went out.
/// It takes no memory of its own.
pub fn regret_row<O: Sink>(name: &str, score: i128, best: i128, out: &mut O) -> Result<(), PutErr>
    requires score { IsNear (10 ^ 24) score }
    requires best { IsNear (10 ^ 24) best }
    ensures { Puts (O.seen out.old) (regret_line name.now score best) (O.seen out.new) result }
{
    Top::Best.put_row(name, score, best, out)
}

/// Puts the row of a rule over all traces: `total NAME` and its sums, and the greatest difference.
/// After an `Err` a prefix of the row went out. It takes no memory of its own.
pub fn total_row<O: Sink>(name: &str, total: &Total, out: &mut O) -> Result<(), PutErr>
    ensures { Puts (O.seen out.old) (total_line name.now total.now) (O.seen out.new) result }
{
    Top::Best.put_total(name, total, out)
}
