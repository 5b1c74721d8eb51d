//! A function block with what is inside it.

ghost use Rattle.std.specs.Prelude.{◌≡◌, [], ◌∷◌, IfSome, IfNone};
ghost use Rattle.std.specs.Option.{option_map};
ghost use Rattle.fb_net.specs.Trees.{block_at};

use fb_ecc::BasicState;
use fb_event::EventState;
use fb_types::Items;

/// A function block with what is inside it: what only a reaction reads and changes. What connections and stimuli set
/// of an instance is not in its block (`shell::Shell`).
#[derive(Drop)]
pub enum Block {
    /// A basic block: where its chart is, and its variables.
    Basic(BasicState),
    /// An event block: what it remembers.
    Event(EventState),
    /// A composite: the blocks inside it, in the order of the declaration.
    Composite(Items<Block>),
}

impl Block {
    ghost use Rattle.std.specs.Borrow.{LendsIf, sem};
    ghost use Rattle.fb_net.specs.contracts.block.Block.{the_row};
    ghost use Rattle.fb_types.specs.contracts.items.Items.{the_row as items_row};
    ghost use Rattle.fb_net.specs.Blocks.{components_of, with_components};

    /// The blocks inside a composite. Other blocks have none.
    pub fn components(&self) -> &[Block]
        ensures { result.now ≡ components_of self.now }
    {
        match self {
            Block::Composite(components) => components.as_slice(),
            Block::Basic(_) | Block::Event(_) => &[],
        }
    }

    /// The blocks inside a composite, to be changed. Other blocks have none.
    pub fn components_mut(&mut self) -> Option<&mut Items<Block>>
        ensures* writes_back { sem 𝓛 (LendsIf the_row (items_row the_row) self.entry result (with_components self.old) self.old) }
        ensures value { IfSome result (λ l. l.now ≡ components_of self.old) }
        ensures none { IfNone result (components_of self.old ≡ []) }
    {
        match self {
            Block::Composite(components) => Some(components),
            Block::Basic(_) | Block::Event(_) => None,
        }
    }
}

/// The block on a way: the index of one of these blocks, and the indexes below, each among the components of the block
/// before.
pub(crate) fn block_on<'a>(blocks: &'a [Block], index: usize, below: &[u32]) -> Option<&'a Block>
    ensures { option_map (λ b. b.now) result ≡ block_at blocks.now (index ∷ below.now) }
{
    let block = blocks.get(index)?;
    match below {
        [] => Some(block),
        [next, rest @ ..] => block_on(block.components(), *next as usize, rest),
    }
}
