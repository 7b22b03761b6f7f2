// Register 15, which registers are answered, the flags, addresses that pass an end of the range, and one program in
// memories of two makes.
use super::routines::{routine, runs_to, same_lines};
use memory::bank::Bank;
use memory::split::Split;
use std::test::Fail;
use stepper::registers::UnknownRegister;
use stepper::run::run_both;
use stepper::stepper::Stepper;

#[test]
fn register_15(rt: HostRuntime) -> Result<(), Fail> {
    routine(
        &rt,
        rt.alloc(),
        &mut [0xE28F_0000, 0xE581_F000, 0xE28F_F003],
        &mut [0],
        &[
            "    1  00000000  e28f0000  ADD R0, R15, #0           done     ----  R0 = 00000008",
            "    2  00000004  e581f000  STR R15, [R1]             done     ----  [00000000] = 0000000c",
            "    3  00000008  e28ff003  ADD R15, R15, #3          done     ----  R15 = 00000013",
            "    4  00000013  00000000  -                         stop     ----  stop 20: fault 10 at 00000013, tag 3",
        ],
    )
}

// The odd bit of a loaded address stays.
#[test]
fn register_15_loaded(rt: HostRuntime) -> Result<(), Fail> {
    routine(
        &rt,
        rt.alloc(),
        &mut [0xE591_F000],
        &mut [0x401],
        &[
            "    1  00000000  e591f000  LDR R15, [R1]             done     ----  R15 = 00000401",
            "    2  00000401  00000000  -                         stop     ----  stop 20: fault 10 at 00000401, tag 3",
        ],
    )
}

// Set with S, kept without, kept by a skip, and set again by FFFFFFFF + 2.
#[test]
fn flags_only_with_s(rt: HostRuntime) -> Result<(), Fail> {
    routine(
        &rt,
        rt.alloc(),
        &mut [0xE251_1000, 0xE242_2001, 0x1290_0001, 0xE292_2002],
        &mut [0],
        &[
            "    1  00000000  e2511000  SUBS R1, R1, #0           done     -ZC-  R1 = 00000000",
            "    2  00000004  e2422001  SUB R2, R2, #1            done     -ZC-  R2 = ffffffff",
            "    3  00000008  12900001  ADDSNE R0, R0, #1         skipped  -ZC-",
            "    4  0000000c  e2922002  ADDS R2, R2, #2           done     --C-  R2 = 00000001",
            "    5  00000010  00000000  -                         stop     --C-  stop 20: fault 11 at 00000010, tag 3",
        ],
    )
}

#[test]
fn answered_registers(rt: HostRuntime) -> Result<(), Fail> {
    // ADD R14, R15, #255.
    let mut program = [0xE28F_E0FFu32];
    let store = Bank::new(0, &mut program, 3);
    let mut words = [0u32];
    let mut memory = Bank::new(0, &mut words, 7);
    let mut stepper = Stepper::new();
    let _ = stepper.step(&store, &mut memory)?;
    assert_eq!(rt; stepper.register(14), Ok(263));
    assert_eq!(rt; stepper.register(15), Err(UnknownRegister));
    assert_eq!(rt; UnknownRegister.number(), 13);
    Ok(())
}

// A branch to 4 below 0, and there register 15 is 4, and 0 comes next.
#[test]
fn past_the_ends(rt: HostRuntime) -> Result<(), Fail> {
    let mut low = [0xEAFF_FFFDu32];
    let mut high = [0xE28F_0000u32];
    let store = Split::new(
        4,
        Bank::new(0, &mut low, 1),
        Bank::new(0xFFFF_FFFC, &mut high, 2),
    );
    let mut words = [0u32];
    let mut memory = Bank::new(0, &mut words, 7);
    runs_to(
        &rt,
        rt.alloc(),
        &store,
        &mut memory,
        3,
        &[
            "    1  00000000  eafffffd  B 0xfffffffc              done     ----",
            "    2  fffffffc  e28f0000  ADD R0, R15, #0           done     ----  R0 = 00000004",
            "    3  00000000  eafffffd  B 0xfffffffc              done     ----",
        ],
    )
}

// STR R15, [R0] and LDR R1, [R0], in one bank and in two.
#[test]
fn two_makes_of_memory(rt: HostRuntime) -> Result<(), Fail> {
    let heap = rt.alloc();
    let mut whole = [0xE580_F000u32, 0xE590_1000];
    let mut first = [0xE580_F000u32];
    let mut second = [0xE590_1000u32];
    let store = Bank::new(0, &mut whole, 3);
    let halves = Split::new(4, Bank::new(0, &mut first, 3), Bank::new(4, &mut second, 3));
    let mut words = [0u32];
    let mut other_words = [0u32];
    let mut memory = Bank::new(0, &mut words, 7);
    let mut other = Bank::new(0, &mut other_words, 7);
    let (events, others) = run_both(heap, &store, &mut memory, &halves, &mut other, 9)?;
    let expected = &[
        "    1  00000000  e580f000  STR R15, [R0]             done     ----  [00000000] = 00000008",
        "    2  00000004  e5901000  LDR R1, [R0]              done     ----  R1 = 00000008",
        "    3  00000008  00000000  -                         stop     ----  stop 20: fault 11 at 00000008, tag 3",
    ];
    same_lines(&rt, heap, events.as_slice(), expected)?;
    same_lines(&rt, heap, others.as_slice(), expected)
}
