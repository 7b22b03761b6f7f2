// Banks and splits: the ends of a bank, which half of a split answers, and the order of refusals.
use memory::bank;
use memory::bank::{Bank, BankRefusal};
use memory::fault::{Cause, Fault};
use memory::split::Split;
use memory::store::{Memory, Store};

fn fault<T>(cause: Cause, address: u32, tag: u8) -> Result<T, Fault> {
    Err(Fault {
        cause,
        address,
        tag,
    })
}

#[test]
fn bank_figures(rt: HostRuntime) {
    assert_eq!(rt; bank::check(0, 0), Err(BankRefusal::Count));
    assert_eq!(rt; bank::check(0, 1), Ok(()));
    assert_eq!(rt; bank::check(0, 8192), Ok(()));
    assert_eq!(rt; bank::check(0, 8193), Err(BankRefusal::Count));
    assert_eq!(rt; bank::check(2, 1), Err(BankRefusal::Base));
    assert_eq!(rt; bank::check(0xFFFF_FFFC, 1), Ok(()));
    assert_eq!(rt; bank::check(0xFFFF_FFFC, 2), Err(BankRefusal::End));
    assert_eq!(rt; bank::check(0xFFFF_8000, 8192), Ok(()));
    assert_eq!(rt; BankRefusal::End.number(), 14);
}

#[test]
fn bank_at_the_top(rt: HostRuntime) {
    let mut words = [7u32];
    let mut top = Bank::new(0xFFFF_FFFC, &mut words, 200);
    assert_eq!(rt; top.read(0xFFFF_FFFC), Ok(7));
    assert_eq!(rt; top.write(0xFFFF_FFFC, 8), Ok(()));
    assert_eq!(rt; top.read(0xFFFF_FFFC), Ok(8));
    assert_eq!(rt;
        top.read(0xFFFF_FFFE),
        fault(Cause::Unaligned, 0xFFFF_FFFE, 200)
    );
    assert_eq!(rt; top.read(0), fault(Cause::Unmapped, 0, 200));
    assert_eq!(rt;
        top.write(0xFFFF_FFF8, 1),
        fault(Cause::Unmapped, 0xFFFF_FFF8, 200)
    );
    assert_eq!(rt; words, [8]);
}

#[test]
fn refused_figures_map_nothing(rt: HostRuntime) {
    let mut words = [7u32, 9];
    let mut past = Bank::new(0xFFFF_FFFC, &mut words, 1);
    assert_eq!(rt;
        past.read(0xFFFF_FFFC),
        fault(Cause::Unmapped, 0xFFFF_FFFC, 1)
    );
    assert_eq!(rt;
        past.write(0xFFFF_FFFC, 1),
        fault(Cause::Unmapped, 0xFFFF_FFFC, 1)
    );
    assert_eq!(rt;
        past.write(0xFFFF_FFFD, 1),
        fault(Cause::Unaligned, 0xFFFF_FFFD, 1)
    );
    assert_eq!(rt; words, [7, 9]);
}

#[test]
fn splits_in_splits(rt: HostRuntime) {
    let mut low = [1u32, 2];
    let mut middle = [3u32, 4];
    let mut high = [5u32, 6];
    // One split stands on the left of the other, and then on the right; 0x10 is below the middle bank's base.
    let left = Split::new(
        0x10,
        Bank::new(0, &mut low, 1),
        Bank::new(0x20, &mut middle, 2),
    );
    let mut whole = Split::new(0x28, left, Bank::new(0x28, &mut high, 3));
    assert_eq!(rt; whole.read(4), Ok(2));
    assert_eq!(rt; whole.read(0x24), Ok(4));
    assert_eq!(rt; whole.read(0x28), Ok(5));
    assert_eq!(rt; whole.read(8), fault(Cause::Unmapped, 8, 1));
    assert_eq!(rt; whole.read(0x10), fault(Cause::Unmapped, 0x10, 2));
    assert_eq!(rt; whole.read(0x30), fault(Cause::Unmapped, 0x30, 3));
    assert_eq!(rt; whole.write(0x20, 30), Ok(()));
    assert_eq!(rt; whole.write(0x2C, 60), Ok(()));
    assert_eq!(rt; whole.write(0x2D, 61), fault(Cause::Unaligned, 0x2D, 3));
    assert_eq!(rt; whole.read(0x20), Ok(30));
    assert_eq!(rt; low, [1, 2]);
    assert_eq!(rt; middle, [30, 4]);
    assert_eq!(rt; high, [5, 60]);
    let right = Split::new(
        0x28,
        Bank::new(0x20, &mut middle, 2),
        Bank::new(0x28, &mut high, 3),
    );
    let again = Split::new(0x10, Bank::new(0, &mut low, 1), right);
    assert_eq!(rt; again.read(0x20), Ok(30));
    assert_eq!(rt; again.read(0x2C), Ok(60));
    assert_eq!(rt; again.read(0x0F), fault(Cause::Unaligned, 0x0F, 1));
    assert_eq!(rt; again.read(0x12), fault(Cause::Unaligned, 0x12, 2));
}
