// Every refusal of clock and run, and that core, data and list stay as they were.
use super::shown::{Outcome, Standing, handed, mark, ran, state};
use memory::bank::Bank;
use memory::store::{Memory, Store};
use pipeline::clock::Handed;
use pipeline::state::Core;
use std::alloc::Global;
use std::process::Abort;
use std::test::Fail;

// A run that must be refused with that number, and change nothing.
fn refused_run<S: Store, M: Memory>(
    rt: &impl Abort,
    heap: Global,
    core: &mut Core,
    store: &S,
    memory: &mut M,
    budget: u32,
    places: usize,
    number: u8,
) -> Result<(), Fail> {
    let mut list = vec![in heap; Handed::blank(); places]?;
    let before = state(core);
    assert_eq!(rt;
        ran(core.run(store, memory, budget, list.as_mut_slice())),
        Err(number)
    );
    assert_eq!(rt; state(core), before);
    for place in list.iter() {
        assert_eq!(rt; mark(*place), (0, 0));
    }
    Ok(())
}

// ADD R0, R15, #0; STR R0, [R1], four clocks on, and then at the stop.
#[test]
fn each_refusal(rt: HostRuntime) -> Result<(), Fail> {
    let heap = rt.alloc();
    let mut program = [0xE28F_0000u32, 0xE581_0000];
    let store = Bank::new(0, &mut program, 0);
    let mut words = [5u32];
    let mut memory = Bank::new(0, &mut words, 0);
    let mut core = Core::new();
    let mut list = [Handed::blank(); 3];
    assert_eq!(rt;
        ran(core.run(&store, &mut memory, 4, &mut list)),
        Ok(Outcome {
            clocks: 4,
            events: 0,
            reason: 3,
        })
    );
    for (budget, places, number) in [
        (0, 1, 8),
        (1_000_001, 1, 8),
        (1, 0, 9),
        (1, 4097, 9),
        (0, 4097, 8),
    ] {
        refused_run(
            &rt,
            heap,
            &mut core,
            &store,
            &mut memory,
            budget,
            places,
            number,
        )?;
    }
    assert_eq!(rt; memory.read(0), Ok(5));
    assert_eq!(rt;
        ran(core.run(&store, &mut memory, 100, &mut list)),
        Ok(Outcome {
            clocks: 3,
            events: 3,
            reason: 1,
        })
    );
    let stopped = state(&core);
    let expected = Standing {
        r0: Ok(8),
        r1: Ok(0),
        flags: 0,
        clocks: 7,
        slots: [None; 4],
    };
    assert_eq!(rt; stopped, expected);
    assert_eq!(rt; handed(core.clock(&store, &mut memory)), Err(6));
    assert_eq!(rt; state(&core), stopped);
    for (budget, places, number) in [(1, 1, 6), (1, 0, 9), (0, 0, 8)] {
        refused_run(
            &rt,
            heap,
            &mut core,
            &store,
            &mut memory,
            budget,
            places,
            number,
        )?;
    }
    assert_eq!(rt; memory.read(0), Ok(8));
    Ok(())
}
