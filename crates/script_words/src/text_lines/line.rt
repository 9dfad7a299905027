// What a script is made of.
ghost use Rattle.std.specs.Prelude.{◌≡◌};

use crate::{Code, Given, Statement};
use std::collections::VecDeque;

/// A refused line, counted from 1.
#[derive(Clone, Copy, PartialEq, Eq, Debug, Drop)]
pub struct Refusal {
    pub line: u64,
    pub code: Code,
}

/// An operation or an event, and the number of its line, counted from 1.
#[derive(Drop)]
pub struct Line {
    pub number: u64,
    pub statement: Statement,
}

/// What was read of a script: its settings, and its other lines in their order.
#[derive(Drop)]
pub struct Script {
    pub given: Given,
    pub lines: VecDeque<Line>,
}
