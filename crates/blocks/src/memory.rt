// Memory, lent as words and indexed modulo its length.
ghost use Rattle.std.specs.Prelude.{◌≡◌};
ghost use Rattle.blocks.specs.Memory.{fetch, applied};

// What a microcycle stores, where it stores: a word at an address.
#[derive(Clone, Copy)]
pub struct Store {
    pub address: u32,
    pub word: u32,
}

#[tactic(auto, unfolding(crate::specs::Memory::fetch))]
pub fn load(memory: &[u32], address: u32) -> u32
    ensures { result ≡ fetch memory.now address }
{
    let words = memory.len();
    if words == 0 {
        return 0;
    }
    memory[address as usize % words]
}

// The one place where memory is written.
#[tactic(auto, unfolding(crate::specs::Memory::store))]
pub fn apply(memory: &mut [u32], store: Option<Store>)
    ensures { memory.new ≡ applied store memory.old }
{
    let words = memory.len();
    if words == 0 {
        return;
    }
    if let Some(store) = store {
        memory[store.address as usize % words] = store.word;
    }
}
