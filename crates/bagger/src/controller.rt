// An engine with the memory and the arrays that its calls are handed. A struct of the program: one for every owner would be
// public in `engine`, promise nothing, and still be named with each owner's types.
use cells::memory::Memory;
use engine::arrays::Arrays;
use engine::engine::Engine;

#[derive(Drop)]
pub(crate) struct Controller<'r, 't, 'a, 'c, M: Memory, F> {
    pub(crate) engine: Engine,
    pub(crate) memory: M,
    pub(crate) arrays: Arrays<'r, 't, 'a, 'c, F, M::Cell>,
}
