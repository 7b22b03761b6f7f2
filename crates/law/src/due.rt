// In which clock each event is due.
ghost use Rattle.std.specs.Prelude.{◌≡◌, ◌^◌, ◌<◌, IfOk};
ghost use Rattle.law.specs.DueClocks.{DueTable, further, nothing_due};

use crate::sorts::{done_write_15, feeds, skipped_write_15, taken_branch};
use std::alloc::{AllocError, Global};
use stepper::event::Event;

/// Clocks lost until an event was handed out, by what cost them. No list of events can exceed the type.
#[derive(Clone, Copy, PartialEq, Eq, Default, Debug)]
pub struct Lost {
    /// Waiting for a load.
    pub stalls: u128,
    /// Behind taken branches.
    pub branches: u128,
    /// Behind writes of register 15 that were done.
    pub done_writes: u128,
    /// Behind writes of register 15 that were skipped.
    pub skipped_writes: u128,
}

/// The clock in which an event is handed out, and the clocks lost on the way.
#[derive(Clone, Copy, PartialEq, Eq, Debug)]
pub struct Due {
    pub clock: u128,
    pub lost: Lost,
}

impl Due {
    // Before the first event: the clocks that it takes to reach Writeback.
    fn nothing() -> Due
        ensures { result ≡ nothing_due }
    {
        Due {
            clock: 4,
            lost: Lost::default(),
        }
    }

    // One event further, behind another if there is one.
    fn further(self, event: Option<Event>, next: Event) -> Due
        requires clock_bound { self.clock < 2 ^ 100 }
        requires stalls_bound { self.lost.stalls < 2 ^ 100 }
        requires branches_bound { self.lost.branches < 2 ^ 100 }
        requires done_writes_bound { self.lost.done_writes < 2 ^ 100 }
        requires skipped_writes_bound { self.lost.skipped_writes < 2 ^ 100 }
        ensures { result ≡ further event next self }
    {
        let Some(event) = event else {
            return Due {
                clock: self.clock + 1,
                lost: self.lost,
            };
        };
        let stall = u128::from(feeds(event, next));
        let branch = 2 * u128::from(taken_branch(event));
        let done_write = 4 * u128::from(done_write_15(event));
        let skipped_write = 2 * u128::from(skipped_write_15(event));
        let lost = Lost {
            stalls: self.lost.stalls + stall,
            branches: self.lost.branches + branch,
            done_writes: self.lost.done_writes + done_write,
            skipped_writes: self.lost.skipped_writes + skipped_write,
        };
        let clock = self.clock + (1 + stall + branch + done_write + skipped_write);
        Due { clock, lost }
    }
}

/// The clock law for each of a routine's first events: the clock in which the core hands it out, and the clocks lost until
/// then. An `Err` is want of memory for the table.
pub fn due_clocks(heap: Global, events: &[Event]) -> Result<Vec<Due>, AllocError>
    ensures { IfOk result (λ table. DueTable events.now table.items) }
{
    let mut table = Vec::new(heap);
    let mut due = Due::nothing();
    let mut last = None;
    for event in events {
        due = due.further(last, *event);
        last = Some(*event);
        table.push(due)?;
    }
    Ok(table)
}
