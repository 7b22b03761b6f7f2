// Short routines as the tests run them, and the lines that they come to.
use lines::Line;
use memory::bank::Bank;
use memory::store::{Memory, Store};
use std::alloc::Global;
use std::process::Abort;
use std::test::Fail;
use stepper::event::Event;
use stepper::run::run;

/// The events have exactly these lines.
pub fn same_lines(
    rt: &impl Abort,
    heap: Global,
    events: &[Event],
    expected: &[&str],
) -> Result<(), Fail> {
    assert_eq!(rt; events.len(), expected.len());
    for (number, (event, expected)) in (1..=u32::MAX).zip(events.iter().zip(expected)) {
        let line = Line::new(heap, number, *event)?;
        assert_eq!(rt; line.to_string(heap)?.as_str(), *expected);
    }
    Ok(())
}

/// A run under a limit has exactly these lines.
pub fn runs_to<S: Store, M: Memory>(
    rt: &impl Abort,
    heap: Global,
    store: &S,
    memory: &mut M,
    limit: u32,
    expected: &[&str],
) -> Result<(), Fail> {
    let events = run(heap, store, memory, limit)?;
    same_lines(rt, heap, events.as_slice(), expected)
}

/// The same of a program at address 0, tag 3, over data from address 0 on, tag 7.
pub fn routine(
    rt: &impl Abort,
    heap: Global,
    program: &mut [u32],
    words: &mut [u32],
    expected: &[&str],
) -> Result<(), Fail> {
    let store = Bank::new(0, program, 3);
    let mut memory = Bank::new(0, words, 7);
    runs_to(rt, heap, &store, &mut memory, 100, expected)
}
