//! What a joint session is played on, and what each of so many takers gets of its link.

ghost use Rattle.std.specs.Prelude.{◌≡◌, ◌≤◌};
ghost use Rattle.lab_model.specs.Cycle.{IsTrace};
ghost use Rattle.shared_link.specs.Table.{IsPlainCourse};

use network_clock::Link;
use player_core::parts::Course;

/// What a joint session is played on: a course without seeks, of a film on demand, and the link of its network.
#[derive(Clone, Copy)]
pub struct Stage<'a> {
    /// The course of each player.
    pub course: &'a Course<'a>,
    /// The network of the course, as several players share it.
    pub link: &'a Link,
    pub ghost plain: { IsPlainCourse course.now },
    pub ghost trace: { IsTrace link.now.periods },
    pub ghost same: { link.now.periods ≡ course.now.scene.now.periods },
}

/// What each of so many takers gets: no more take than the link is for.
#[derive(Clone, Copy)]
pub struct Lane<'a> {
    /// What the joint session is played on.
    pub stage: Stage<'a>,
    /// How many take.
    pub takers: u8,
    pub ghost few: { takers ≤ stage.link.now.most },
}
