//! What was taken out of a row.

ghost use Rattle.std.specs.Prelude.{◌≡◌, option_map};
ghost use Rattle.std.specs.Arc.{arc_value};
ghost use Rattle.rs_rows.specs.Cells.{taken_of};

use crate::block::Block;
use rs_attrs::Attrs;
use std::sync::Arc;

/// What was taken out of a row: an owner of its attributes, or a share of the block where they lie still. Most who are told
/// of a prefix that is due no more were told of its neighbours too, and then the block's owners are counted, and not those of
/// the attributes of each.
#[derive(Drop)]
pub enum Taken {
    Nothing,
    One(Arc<Attrs>),
    Within { index: u8, block: Arc<Block> },
}

impl Taken {
    /// What was taken, as an owner of its attributes.
    pub(crate) fn of(attrs: Option<Arc<Attrs>>) -> Taken
        ensures { taken_of result ≡ option_map arc_value attrs }
    {
        match attrs {
            None => Taken::Nothing,
            Some(attrs) => Taken::One(attrs),
        }
    }

    /// The attributes, where there was a route.
    pub fn attrs(&self) -> Option<&Attrs>
        ensures { option_map (λ attrs. attrs.now) result ≡ taken_of self.now }
    {
        match self {
            Taken::Nothing => None,
            Taken::One(attrs) => Some(&**attrs),
            Taken::Within { index, block } => match block.at(*index as usize) {
                None => None,
                Some(row) => Some(&**row.attrs),
            },
        }
    }
}
