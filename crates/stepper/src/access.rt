// The data memory's part of an instruction.
ghost use Rattle.std.specs.Prelude.{◌≡◌, None};
ghost use Rattle.memory.specs.Keeping.{OnlyWordsChange};
ghost use Rattle.stepper.specs.Access.{accessed, words_after};

use super::event::{MemoryWrite, RegisterWrite};
use super::execute::Work;
use memory::fault::Fault;
use memory::store::{Memory, Store};

/// What an instruction leaves behind: the register it writes and the store it made, each if there is one.
#[derive(Clone, Copy, PartialEq, Eq, Default, Debug)]
pub struct Effect {
    pub register: Option<RegisterWrite>,
    pub store: Option<MemoryWrite>,
}

/// Makes the access that the work asks for, or answers the memory's fault. On a fault the memory is unchanged.
pub fn access<M: Memory>(work: Work, memory: &mut M) -> Result<Effect, Fault>
    ensures effect { result ≡ accessed (M.Store.word_at memory.old) (M.Store.tag_at memory.old) (M.Memory.writable_at memory.old) work }
    ensures words { M.Store.word_at memory.new ≡ words_after (M.Store.word_at memory.old) (M.Store.tag_at memory.old) (M.Memory.writable_at memory.old) work }
    ensures rest { OnlyWordsChange M.Store M.Memory.own memory.old memory.new }
{
    match work {
        Work::Compare | Work::Branch { .. } => Ok(Effect::default()),
        Work::Write(write) => Ok(Effect {
            register: Some(write),
            store: None,
        }),
        Work::Load { register, address } => {
            let value = memory.read(address)?;
            Ok(Effect {
                register: Some(RegisterWrite { register, value }),
                store: None,
            })
        }
        Work::Store(write) => {
            memory.write(write.address, write.value)?;
            Ok(Effect {
                register: None,
                store: Some(write),
            })
        }
    }
}
