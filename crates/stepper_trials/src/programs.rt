// What the programs share, on an image of two words: ADD R0, R15, #0; STR R0, [R1].
use super::routines::same_lines;
use console::{print_events, show_image, stepped};
use packing::pack::{image_of, pack};
use std::test::Fail;

const WORDS: [u32; 2] = [0xE28F_0000, 0xE581_0000];

// Both memories have tag 0.
const LINES: [&str; 3] = [
    "    1  00000000  e28f0000  ADD R0, R15, #0           done     ----  R0 = 00000008",
    "    2  00000004  e5810000  STR R0, [R1]              done     ----  [00000000] = 00000008",
    "    3  00000008  00000000  -                         stop     ----  stop 20: fault 11 at 00000008, tag 0",
];

#[test]
fn events_on_an_image(rt: HostRuntime) -> Result<(), Fail> {
    let heap = rt.alloc();
    let image = image_of(heap, &WORDS)?;
    let events = stepped(heap, &image, 100)?;
    same_lines(&rt, heap, events.as_slice(), &LINES)
}

#[test]
fn shown_and_refused(rt: HostRuntime) -> Result<(), Fail> {
    let heap = rt.alloc();
    let bytes = pack(heap, &WORDS)?;
    let mut out = Vec::new(heap);
    show_image(heap, bytes.as_slice(), &mut out, |out, image| {
        let events = stepped(heap, image, 1)?;
        print_events(heap, out, events.as_slice())
    })?;
    show_image(heap, &[0; 512], &mut out, |out, image| {
        let events = stepped(heap, image, 1)?;
        print_events(heap, out, events.as_slice())
    })?;
    let expected =
        "    1  00000000  e28f0000  ADD R0, R15, #0           done     ----  R0 = 00000008\nimage 2 0\n";
    assert_eq!(rt; out.as_slice(), expected.as_bytes());
    Ok(())
}
