// Each stop with its fault, what a stop leaves as it was, and the refusal of a further step.
use super::routines::{routine, runs_to};
use image::ImageStore;
use memory::bank::Bank;
use memory::store::{Memory, Store};
use packing::pack::image_of;
use std::test::Fail;
use stepper::registers::UnknownRegister;
use stepper::stepper::{HasStopped, Stepper};

#[test]
fn no_word_to_fetch(rt: HostRuntime) -> Result<(), Fail> {
    let mut program = [0xE28F_0000u32];
    let store = Bank::new(4, &mut program, 3);
    let mut words = [0u32];
    let mut memory = Bank::new(0, &mut words, 7);
    runs_to(
        &rt,
        rt.alloc(),
        &store,
        &mut memory,
        100,
        &[
            "    1  00000000  00000000  -                         stop     ----  stop 20: fault 11 at 00000000, tag 3",
        ],
    )
}

// A word outside the subset is a stop also where its condition does not hold, as that of MOVEQ R0, #1 here.
#[test]
fn outside_the_subset(rt: HostRuntime) -> Result<(), Fail> {
    let heap = rt.alloc();
    routine(
        &rt,
        heap,
        &mut [0x03A0_0001],
        &mut [0],
        &["    1  00000000  03a00001  -                         stop     ----  stop 21"],
    )?;
    routine(
        &rt,
        heap,
        &mut [0xF000_0000],
        &mut [0],
        &["    1  00000000  f0000000  -                         stop     ----  stop 21"],
    )
}

#[test]
fn no_access(rt: HostRuntime) -> Result<(), Fail> {
    let heap = rt.alloc();
    routine(
        &rt,
        heap,
        &mut [0xE591_0002],
        &mut [0],
        &[
            "    1  00000000  e5910002  LDR R0, [R1, #2]          stop     ----  stop 22: fault 10 at 00000002, tag 7",
        ],
    )?;
    routine(
        &rt,
        heap,
        &mut [0xE581_0004],
        &mut [0],
        &[
            "    1  00000000  e5810004  STR R0, [R1, #4]          stop     ----  stop 22: fault 11 at 00000004, tag 7",
        ],
    )
}

#[test]
fn read_only_data(rt: HostRuntime) -> Result<(), Fail> {
    let heap = rt.alloc();
    let image = image_of(heap, &[0xEAFF_FFFE])?;
    let mut memory = ImageStore::new(&image, 9);
    let mut program = [0xE581_0000u32];
    let store = Bank::new(0, &mut program, 3);
    runs_to(
        &rt,
        heap,
        &store,
        &mut memory,
        100,
        &[
            "    1  00000000  e5810000  STR R0, [R1]              stop     ----  stop 22: fault 12 at 00000000, tag 9",
        ],
    )
}

// What the calls that change nothing answer.
#[derive(Clone, Copy, PartialEq, Debug)]
struct Standing {
    r0: Result<u32, UnknownRegister>,
    flags: u8,
    next_address: u32,
    has_stopped: bool,
}

fn state(stepper: &Stepper) -> Standing {
    Standing {
        r0: stepper.register(0),
        flags: stepper.flags().bits(),
        next_address: stepper.next_address(),
        has_stopped: stepper.has_stopped(),
    }
}

// The number by which a step is refused, if it is.
fn refusal_of<S: Store, M: Memory>(stepper: &mut Stepper, store: &S, memory: &mut M) -> Option<u8> {
    stepper.step(store, memory).err().map(HasStopped::number)
}

// SUBS R0, R0, #1; LDR R0, [R0], which cannot be made.
#[test]
fn a_stop_leaves_the_rest(rt: HostRuntime) -> Result<(), Fail> {
    let mut program = [0xE250_0001u32, 0xE590_0000];
    let store = Bank::new(0, &mut program, 3);
    let mut words = [5u32];
    let mut memory = Bank::new(0, &mut words, 7);
    let mut stepper = Stepper::new();
    let _ = stepper.step(&store, &mut memory)?;
    let before = Standing {
        r0: Ok(0xFFFF_FFFF),
        flags: 8,
        next_address: 4,
        has_stopped: false,
    };
    assert_eq!(rt; state(&stepper), before);
    let stopped = Standing {
        has_stopped: true,
        ..before
    };
    assert_eq!(rt; refusal_of(&mut stepper, &store, &mut memory), None);
    assert_eq!(rt; state(&stepper), stopped);
    assert_eq!(rt; refusal_of(&mut stepper, &store, &mut memory), Some(6));
    assert_eq!(rt; state(&stepper), stopped);
    assert_eq!(rt; words, [5]);
    Ok(())
}
