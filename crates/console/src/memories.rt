// The memories that a routine runs on: the image's words, and a data memory of its own.
ghost use Rattle.std.specs.Prelude.{◌≡◌, IfOk};
ghost use Rattle.console.specs.Memories.{GivenBy, events_on, image_events};

use image::{Image, ImageStore};
use memory::bank::Bank;
use std::alloc::{AllocError, Global};
use stepper::event::Event;
use stepper::run::run;

/// The words of each data memory, from address 0 on.
pub const DATA_WORDS: usize = 1024;

/// What `routine` makes of the image as a store and of a data memory that holds zeros, both under tag 0.
pub fn with_memories<T, F: FnOnce(&ImageStore<'_>, &mut Bank<'_>) -> T>(
    image: &Image,
    routine: F,
) -> T
    requires { F.IsAlwaysCallable routine }
    ensures { GivenBy F.FnOnce routine image.now result }
{
    let mut words = [0u32; DATA_WORDS];
    let mut memory = Bank::new(0, &mut words, 0);
    let store = ImageStore::new(image, 0);
    routine(&store, &mut memory)
}

/// The stepper's first events, as many as the limit allows, on such memories.
pub fn stepped(heap: Global, image: &Image, limit: u32) -> Result<Vec<Event>, AllocError>
    ensures { IfOk result (λ events. events.items ≡ image_events image.now limit) }
{
    with_memories(
        image,
        |store, memory|
            ensures { IfOk result (λ events. events.items ≡ events_on store.now memory.old limit) }
        { run(heap, store, memory, limit) },
    )
}
