// Clocks and runs that are accepted. Each test lends its own program and words, so the lines that set up the memories stand in
// each: a function that did it would take the test as a closure, and the test would read no plainer.
use super::shown::{Outcome, Standing, handed, mark, ran, state};
use memory::bank::Bank;
use memory::fault::{Cause, Fault};
use pipeline::calls::Reason;
use pipeline::clock::Handed;
use pipeline::state::Core;
use std::test::Fail;
use stepper::registers::UnknownRegister;

// LDR R1, [R0]; ADD R2, R0, #1. The constant's low bits name register 1, so that the ADD waits for the load.
#[test]
fn constant_that_looks_like_a_source(rt: HostRuntime) {
    let mut program = [0xE590_1000u32, 0xE280_2001];
    let store = Bank::new(0, &mut program, 0);
    let mut words = [0u32];
    let mut memory = Bank::new(0, &mut words, 0);
    let mut core = Core::new();
    let mut list = [Handed::blank(); 4];
    assert_eq!(rt;
        ran(core.run(&store, &mut memory, 7, &mut list)),
        Ok(Outcome {
            clocks: 7,
            events: 2,
            reason: 3,
        })
    );
    assert_eq!(rt; mark(list[0]), (0, 5));
    assert_eq!(rt; mark(list[1]), (4, 7));
    assert_eq!(rt; mark(list[2]), (0, 0));
}

// LDR R1, [R0]; ADD R2, R1, R1: the clocks of the listing, one by one.
#[test]
fn clock_by_clock(rt: HostRuntime) {
    let mut program = [0xE590_1000u32, 0xE081_2001];
    let store = Bank::new(0, &mut program, 0);
    let mut words = [7u32];
    let mut memory = Bank::new(0, &mut words, 0);
    let mut core = Core::new();
    let expected = [
        None,
        None,
        None,
        None,
        Some((0, 5)),
        None,
        Some((4, 7)),
        Some((8, 8)),
    ];
    for (clock, mark) in (1..=8u32).zip(expected) {
        assert_eq!(rt; handed(core.clock(&store, &mut memory)), Ok(mark));
        assert_eq!(rt; core.clocks(), clock);
    }
    let end = Standing {
        r0: Ok(0),
        r1: Ok(7),
        flags: 0,
        clocks: 8,
        slots: [None; 4],
    };
    assert_eq!(rt; state(&core), end);
}

// The ADD waits in clock 3; in clock 5 both its sources come from Writeback.
#[test]
fn stall_and_forwarding(rt: HostRuntime) -> Result<(), Fail> {
    let mut program = [0xE590_1000u32, 0xE081_2001];
    let store = Bank::new(0, &mut program, 0);
    let mut words = [7u32];
    let mut memory = Bank::new(0, &mut words, 0);
    let mut core = Core::new();
    for clock in 1..=5u32 {
        let tick = core.clock(&store, &mut memory)?;
        assert_eq!(rt; tick.signals.stall, clock == 3);
        let code = if clock == 5 { 1 } else { 0 };
        assert_eq!(rt; tick.signals.first.number(), code);
        assert_eq!(rt; tick.signals.second.number(), code);
    }
    Ok(())
}

// ADD R14, R15, #255.
#[test]
fn registers_up_to_14(rt: HostRuntime) {
    let mut program = [0xE28F_E0FFu32];
    let store = Bank::new(0, &mut program, 0);
    let mut words = [0u32];
    let mut memory = Bank::new(0, &mut words, 0);
    let mut core = Core::new();
    let mut list = [Handed::blank(); 4];
    assert_eq!(rt;
        ran(core.run(&store, &mut memory, 100, &mut list)),
        Ok(Outcome {
            clocks: 6,
            events: 2,
            reason: 1,
        })
    );
    assert_eq!(rt; core.register(14), Ok(263));
    assert_eq!(rt; core.register(15), Err(UnknownRegister));
}

// LDR R1, [R0, #2]: the stop reaches the answer with its instruction and its fault.
#[test]
fn stop_in_the_answer(rt: HostRuntime) -> Result<(), Fail> {
    let mut program = [0xE590_1002u32];
    let store = Bank::new(0, &mut program, 0);
    let mut words = [0u32];
    let mut memory = Bank::new(0, &mut words, 9);
    let mut core = Core::new();
    let mut list = [Handed::blank(); 4];
    let answer = core.run(&store, &mut memory, 100, &mut list)?;
    let Reason::Stop(event) = answer.reason else {
        return Err(Fail::new("the run ended without a stop"));
    };
    assert_eq!(rt; (event.address, event.word), (0, 0xE590_1002));
    assert_eq!(rt; event.cause(), 22);
    let expected = Fault {
        cause: Cause::Unaligned,
        address: 2,
        tag: 9,
    };
    assert_eq!(rt; event.fault(), Some(expected));
    assert_eq!(rt; expected.cause.number(), 10);
    Ok(())
}

// B to itself comes every three clocks, first in clock 5.
#[test]
fn full_list_and_largest_figures(rt: HostRuntime) -> Result<(), Fail> {
    let mut program = [0xEAFF_FFFEu32];
    let store = Bank::new(0, &mut program, 0);
    let mut words = [0u32];
    let mut memory = Bank::new(0, &mut words, 0);
    let mut core = Core::new();
    let mut list = vec![in rt.alloc(); Handed::blank(); 4096]?;
    assert_eq!(rt;
        ran(core.run(&store, &mut memory, 1_000_000, list.as_mut_slice())),
        Ok(Outcome {
            clocks: 12_290,
            events: 4096,
            reason: 2,
        })
    );
    assert_eq!(rt; core.clocks(), 12_290);
    core.reset();
    let reset = Standing {
        r0: Ok(0),
        r1: Ok(0),
        flags: 0,
        clocks: 0,
        slots: [None; 4],
    };
    assert_eq!(rt; state(&core), reset);
    Ok(())
}
