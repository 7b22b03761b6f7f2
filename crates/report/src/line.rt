//! A line of the listing: the clock's number, the slots after the clock, and the event that it handed out.

ghost use Rattle.std.specs.Prelude.{◌≡◌, ◌+◌, ◌≤◌, ◌++◌, length, drop};
ghost use Rattle.isa.specs.Hexadecimal.{hex_text};
ghost use Rattle.report.specs.ListingLine.{address_field, cause_mark, event_field, spaced, stop_mark, line_text};

use super::text::Text;
use isa::hex::digits;
use pipeline::calls::SlotAddresses;
use pipeline::clock::Handed;
use stepper::event::{Kind, Stop};

// A space, then a word in eight digits: one text, to be put at once.
fn spaced_digits(word: u32) -> [u8; 9]
    ensures { result ≡ spaced (hex_text word) }
{
    let [a, b, c, d, e, f, g, h] = digits(word);
    [b' ', a, b, c, d, e, f, g, h]
}

impl Text {
    // A space, then the address in a slot, or a dash for an empty one.
    #[inline]
    fn put_slot(&mut self, address: Option<u32>)
        requires { length self.old + 9 ≤ 80 }
        ensures text { self.new ≡ self.old ++ spaced (address_field address) }
        ensures most { length self.new ≤ length self.old + 9 }
    {
        match address {
            Some(address) => self.put(&spaced_digits(address)),
            None => self.put(b" -"),
        }
    }

    // `!` and a stop's cause.
    fn put_stop(&mut self, stop: Stop)
        requires { length self.old + 11 ≤ 80 }
        ensures text { self.new ≡ self.old ++ stop_mark stop }
        ensures most { length self.new ≤ length self.old + 11 }
    {
        self.put(b"!");
        self.put_decimal(u32::from(stop.number()));
    }

    // What stands behind an event's address: nothing, but for a stop.
    fn put_cause(&mut self, kind: Kind)
        requires { length self.old + 11 ≤ 80 }
        ensures text { self.new ≡ self.old ++ cause_mark kind }
        ensures most { length self.new ≤ length self.old + 11 }
    {
        if let Kind::Stopped(stop) = kind {
            self.put_stop(stop);
        }
    }

    // A space, then what the clock handed out, or a dash.
    fn put_event(&mut self, handed: Option<Handed>)
        requires { length self.old + 20 ≤ 80 }
        ensures text { self.new ≡ self.old ++ spaced (event_field handed) }
        ensures most { length self.new ≤ length self.old + 20 }
    {
        self.put_slot(handed.map(|handed| handed.event.address));
        if let Some(handed) = handed {
            self.put_cause(handed.event.kind);
        }
    }
}

/// Makes the line of a clock in the buffer and answers its length; the bytes behind it stay as they were.
pub fn line(
    clock: u32,
    slots: SlotAddresses,
    handed: Option<Handed>,
    buffer: &mut [u8; 80],
) -> usize
    ensures length { result ≡ length (line_text clock slots handed) }
    ensures fits { result ≤ 80 }
    ensures bytes { buffer.new ≡ line_text clock slots handed ++ drop (length (line_text clock slots handed)) buffer.old }
{
    let mut text = Text::new();
    text.put_decimal(clock);
    text.put_slot(slots.decode);
    text.put_slot(slots.execute);
    text.put_slot(slots.memory);
    text.put_slot(slots.writeback);
    text.put_event(handed);
    text.put(b"\n");
    text.copy_to(buffer)
}
