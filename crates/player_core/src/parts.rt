//! The parts of a player, for those who let several play at once: the body, which goes through each instant by `stop` and `request` and
//! through each millisecond by `pass_in`, on whatever network, and what it is played on.

pub use crate::body::Body;
pub use crate::course::Course;
pub use crate::mode::Mode;
pub use crate::running::Running;
