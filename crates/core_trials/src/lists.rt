// A list of calls of all kinds, some refused, performed in one go.
use super::shown::mark;
use memory::bank::Bank;
use pipeline::state::Core;
use refinement::perform::{Answer, Call, perform};
use std::test::Fail;

// What is looked at in an answer: an event's address, a run's clocks, a register, the flags, the address in the Memory
// slot, or the number of a refusal.
#[derive(Clone, Copy, PartialEq, Debug)]
enum Figure {
    Handed(Option<u32>),
    Clocks(u32),
    Register(u32),
    Flags(u8),
    Slot(Option<u32>),
    Refused(u8),
}

fn figure_of(answer: Answer) -> Figure {
    match answer {
        Answer::Clock(Ok(tick)) => Figure::Handed(tick.handed.map(|handed| handed.event.address)),
        Answer::Run(Ok(ran)) => Figure::Clocks(ran.clocks),
        Answer::Clock(Err(refusal)) | Answer::Run(Err(refusal)) => {
            Figure::Refused(refusal.number())
        }
        Answer::Register(Ok(value)) => Figure::Register(value),
        Answer::Register(Err(refusal)) => Figure::Refused(refusal.number()),
        Answer::Flags(flags) => Figure::Flags(flags.bits()),
        Answer::Slots(slots) => Figure::Slot(slots.memory),
    }
}

// SUBS R0, R15, #1; LDR R1, [R2].
#[test]
fn mixed_calls(rt: HostRuntime) -> Result<(), Fail> {
    let heap = rt.alloc();
    let mut program = [0xE25F_0001u32, 0xE592_1000];
    let store = Bank::new(0, &mut program, 0);
    let mut words = [41u32];
    let mut memory = Bank::new(0, &mut words, 0);
    let mut core = Core::new();
    let run = Call::Run {
        budget: 3,
        places: 2,
    };
    let calls = [
        Call::Slots,
        run,
        Call::Flags,
        Call::Slots,
        Call::Register(15),
        Call::Run {
            budget: 0,
            places: 2,
        },
        Call::Clock,
        Call::Clock,
        Call::Register(0),
        Call::Register(1),
        run,
        Call::Register(1),
        Call::Clock,
        run,
    ];
    let expected = [
        Figure::Slot(None),
        Figure::Clocks(3),
        Figure::Flags(2),
        Figure::Slot(Some(0)),
        Figure::Refused(13),
        Figure::Refused(8),
        Figure::Handed(None),
        Figure::Handed(Some(0)),
        Figure::Register(7),
        Figure::Register(0),
        Figure::Clocks(2),
        Figure::Register(41),
        Figure::Refused(6),
        Figure::Refused(6),
    ];
    let performance = perform(heap, &mut core, &store, &mut memory, &calls)?;
    assert_eq!(rt; performance.answers.len(), expected.len());
    for (answer, figure) in performance.answers.iter().zip(expected) {
        assert_eq!(rt; figure_of(*answer), figure);
    }
    let marks = [(0u32, 5u32), (4, 6), (8, 7)];
    assert_eq!(rt; performance.handed.len(), marks.len());
    for (event, expected_mark) in performance.handed.iter().zip(marks) {
        assert_eq!(rt; mark(*event), expected_mark);
    }
    Ok(())
}
