//! Tests, with answers from outside.

mod calls;
mod certificates;
mod check;
mod inputs;
mod planner;
mod text;
mod values;
