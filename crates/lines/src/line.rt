//! A line of a trace. The widths of its columns are the format's, of which no contract speaks.

ghost use Rattle.std.specs.Prelude.{◌≡◌, IfOk, string_bytes};
ghost use Rattle.lines.specs.Columns.{instruction_text};

use super::columns::{EffectColumn, FlagsColumn, instruction_column, kind_column};
use std::alloc::{AllocError, Global};
use std::fmt;
use stepper::event::Event;

/// An event, its place in the trace and its instruction's text.
#[derive(Drop)]
pub struct Line {
    number: u32,
    event: Event,
    instruction: String,
}

impl Line {
    /// The line of an event. An `Err` is want of memory for the instruction's text.
    pub fn new(heap: Global, number: u32, event: Event) -> Result<Line, AllocError>
        ensures number { IfOk result (λ line. line.number ≡ number) }
        ensures event { IfOk result (λ line. line.event ≡ event) }
        ensures instruction { IfOk result (λ line. string_bytes line.instruction ≡ instruction_text event) }
    {
        let instruction = instruction_column(heap, event)?;
        Ok(Line {
            number,
            event,
            instruction,
        })
    }
}

impl fmt::Display for Line {
    fn fmt<W: fmt::Write>(&self, f: &mut fmt::Formatter<W>) -> fmt::Result {
        let number = self.number;
        let address = self.event.address;
        let word = self.event.word;
        let instruction = self.instruction.as_str();
        let kind = kind_column(self.event.kind);
        let flags = FlagsColumn(self.event.flags);
        let effect = EffectColumn(self.event);
        write!(
            f,
            "{number:>5}  {address:08x}  {word:08x}  {instruction:<24}  {kind:<7}  {flags}{effect}"
        )
    }
}
