// Images: the ends of the format, each refusal, which of several faults is answered, and every flipped bit of a block.
use image::{Image, ImageStore, OpenError};
use memory::fault::{Cause, Fault};
use memory::store::{Memory, Store};
use std::alloc::{AllocError, Global};
use std::test::Fail;

// What one block is to say. The words between the first and the last are 0.
#[derive(Clone, Copy)]
struct Draft {
    place: u16,
    count: u16,
    first: u32,
    last: u32,
    // What the block adds up to too much.
    excess: u32,
}

const FULL: Draft = Draft {
    place: 0,
    count: 126,
    first: 0,
    last: 0,
    excess: 0,
};

fn add_block(bytes: &mut Vec<u8>, draft: Draft) -> Result<(), AllocError> {
    let head = u32::from(draft.place) + u32::from(draft.count) * 65536;
    bytes.extend_from_slice(&head.to_le_bytes())?;
    bytes.extend_from_slice(&draft.first.to_le_bytes())?;
    bytes.extend_from_slice(&[0; 496])?;
    bytes.extend_from_slice(&draft.last.to_le_bytes())?;
    let sum = head.wrapping_add(draft.first).wrapping_add(draft.last);
    let check = 0xFFFF_FFFFu32.wrapping_sub(sum).wrapping_add(draft.excess);
    bytes.extend_from_slice(&check.to_le_bytes())
}

// What opening answers: the number and the place of a refusal. They are compared as users are told them.
fn answer(heap: Global, bytes: &[u8]) -> Result<Result<(), (u8, u16)>, Fail> {
    match Image::new(heap).open(heap, bytes) {
        Ok(()) => Ok(Ok(())),
        Err(OpenError::Refused(refusal)) => Ok(Err((refusal.number(), refusal.place()))),
        Err(OpenError::OutOfMemory) => Err(Fail::new("no memory")),
    }
}

fn blocks(heap: Global, drafts: &[Draft]) -> Result<Result<(), (u8, u16)>, Fail> {
    let mut bytes = Vec::new(heap);
    for draft in drafts {
        add_block(&mut bytes, *draft)?;
    }
    answer(heap, bytes.as_slice())
}

fn many(heap: Global, count: u16) -> Result<Result<(), (u8, u16)>, Fail> {
    let mut bytes = Vec::new(heap);
    for place in 0..count {
        add_block(&mut bytes, Draft { place, ..FULL })?;
    }
    answer(heap, bytes.as_slice())
}

// The block of the one word EAFFFFFE.
fn one_word() -> [u8; 512] {
    let mut block = [0u8; 512];
    block[..8].copy_from_slice(&[0, 0, 1, 0, 0xFE, 0xFF, 0xFF, 0xEA]);
    block[508..].copy_from_slice(&[0x01, 0x00, 0xFF, 0x14]);
    block
}

#[test]
fn number_of_blocks(rt: HostRuntime) -> Result<(), Fail> {
    let heap = rt.alloc();
    assert_eq!(rt; many(heap, 0)?, Err((1, 0)));
    assert_eq!(rt; many(heap, 1)?, Ok(()));
    assert_eq!(rt; many(heap, 64)?, Ok(()));
    assert_eq!(rt; many(heap, 65)?, Err((1, 0)));
    assert_eq!(rt; answer(heap, &[0; 511])?, Err((1, 0)));
    assert_eq!(rt; answer(heap, &[0; 513])?, Err((1, 0)));
    Ok(())
}

#[test]
fn each_refusal(rt: HostRuntime) -> Result<(), Fail> {
    let heap = rt.alloc();
    let second = Draft { place: 1, ..FULL };
    assert_eq!(rt;
        blocks(
            heap,
            &[
                FULL,
                Draft {
                    excess: 1,
                    ..second
                },
            ],
        )?,
        Err((2, 1))
    );
    assert_eq!(rt; blocks(heap, &[FULL, FULL])?, Err((3, 1)));
    assert_eq!(rt;
        blocks(heap, &[Draft { count: 125, ..FULL }, second])?,
        Err((4, 0))
    );
    assert_eq!(rt; blocks(heap, &[Draft { count: 0, ..FULL }])?, Err((4, 0)));
    assert_eq!(rt; blocks(heap, &[Draft { count: 1, ..FULL }])?, Ok(()));
    assert_eq!(rt; blocks(heap, &[Draft { count: 127, ..FULL }])?, Err((4, 0)));
    assert_eq!(rt;
        blocks(
            heap,
            &[
                FULL,
                Draft {
                    count: 125,
                    last: 8,
                    ..second
                },
            ],
        )?,
        Err((5, 1))
    );
    assert_eq!(rt; blocks(heap, &[FULL, Draft { last: 8, ..second }])?, Ok(()));
    Ok(())
}

#[test]
fn earliest_refusal(rt: HostRuntime) -> Result<(), Fail> {
    let heap = rt.alloc();
    let wrong = Draft {
        place: 9,
        count: 0,
        first: 7,
        last: 8,
        excess: 1,
    };
    assert_eq!(rt; blocks(heap, &[wrong])?, Err((2, 0)));
    assert_eq!(rt; blocks(heap, &[Draft { excess: 0, ..wrong }])?, Err((3, 0)));
    let in_place = Draft {
        place: 0,
        excess: 0,
        ..wrong
    };
    assert_eq!(rt; blocks(heap, &[in_place])?, Err((4, 0)));
    assert_eq!(rt;
        blocks(
            heap,
            &[Draft {
                count: 1,
                ..in_place
            }],
        )?,
        Err((5, 0))
    );
    assert_eq!(rt; blocks(heap, &[FULL, wrong])?, Err((2, 1)));
    assert_eq!(rt;
        blocks(heap, &[Draft { count: 125, ..FULL }, wrong])?,
        Err((4, 0))
    );
    Ok(())
}

#[test]
fn one_word_image(rt: HostRuntime) -> Result<(), Fail> {
    let heap = rt.alloc();
    let mut image = Image::new(heap);
    assert_eq!(rt; image.len(), 0);
    assert_eq!(rt; image.word(0), None);
    image.open(heap, &one_word())?;
    assert_eq!(rt; image.len(), 1);
    assert_eq!(rt; image.word(0), Some(0xEAFF_FFFE));
    assert_eq!(rt; image.word(1), None);
    // A refusal leaves the opened image as it was.
    let Err(OpenError::Refused(refusal)) = image.open(heap, &[0; 512]) else {
        return Err(Fail::new("a block of zeros opened"));
    };
    assert_eq!(rt; refusal.to_string(heap)?.as_str(), "image 2 0");
    assert_eq!(rt; image.word(0), Some(0xEAFF_FFFE));
    Ok(())
}

#[test]
fn image_store(rt: HostRuntime) -> Result<(), Fail> {
    let heap = rt.alloc();
    let mut image = Image::new(heap);
    let fault = Fault {
        cause: Cause::Unmapped,
        address: 0,
        tag: 5,
    };
    assert_eq!(rt; ImageStore::new(&image, 5).read(0), Err(fault));
    image.open(heap, &one_word())?;
    let mut store = ImageStore::new(&image, 5);
    assert_eq!(rt; store.read(0), Ok(0xEAFF_FFFE));
    assert_eq!(rt;
        store.read(4),
        Err(Fault {
            address: 4,
            ..fault
        })
    );
    assert_eq!(rt;
        store.write(4, 1),
        Err(Fault {
            address: 4,
            ..fault
        })
    );
    let unaligned = Fault {
        cause: Cause::Unaligned,
        address: 1,
        ..fault
    };
    assert_eq!(rt; store.write(1, 1), Err(unaligned));
    let read_only = Fault {
        cause: Cause::ReadOnly,
        ..fault
    };
    assert_eq!(rt; store.write(0, 1), Err(read_only));
    assert_eq!(rt; store.read(0), Ok(0xEAFF_FFFE));
    Ok(())
}

// That block with some bits of one byte the other way round.
fn flipped(place: usize, mask: u8) -> [u8; 512] {
    let mut block = one_word();
    if let Some(byte) = block.get_mut(place) {
        *byte ^= mask;
    }
    block
}

#[test]
fn flipped_bits(rt: HostRuntime) -> Result<(), Fail> {
    let heap = rt.alloc();
    assert_eq!(rt; answer(heap, &flipped(512, 1))?, Ok(()));
    for place in 0..512 {
        for mask in [1u8, 2, 4, 8, 16, 32, 64, 128] {
            assert_eq!(rt; answer(heap, &flipped(place, mask))?, Err((2, 0)));
        }
    }
    Ok(())
}
