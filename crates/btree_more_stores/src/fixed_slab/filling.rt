//! A table that is filled under chosen numbers.
ghost use Rattle.std.specs.Prelude.{◌≡◌, ℕ, ◌<◌, ◌≤◌, IfErr, OnOk, OnErr, None};
ghost use Rattle.std.specs.FinMap as map;
ghost use Rattle.btree_store.specs.Content.{content_from};
ghost use Rattle.btree_more_stores.specs.Table.{IsTable};

use super::{FixedSlab, fill};
use crate::fill::Fill;
use arrayvec::ArrayVec;
use btree_steps::Steps;

// Lists the places from `fresh` to `id` as free. The slots are there for the contract alone.
fn add_free<T, const N: usize>(
    free: &mut ArrayVec<usize, N>,
    _slots: &ArrayVec<Option<T>, N>,
    fresh: usize,
    held: usize,
    id: usize,
)
    requires table { IsTable N _slots.now.items free.old.items fresh held }
    requires above { fresh ≤ id }
    requires below { id < N }
    ensures { IsTable N _slots.now.items free.new.items id held }
{
    for place in fresh..id {
        free.push(place);
    }
}

impl<T, const N: usize> Fill<T> for FixedSlab<T, N> {
    ghost MayLack = { λ id. N ≤ id };

    ghost reached = { λ store. store.fresh };

    fn unused(_origin: ()) -> Self {
        FixedSlab {
            slots: ArrayVec::from_array_in((), Default::default()),
            free: ArrayVec::new(),
            fresh: 0,
            held: 0,
            refused: Steps::new(),
        }
    }

    fn insert_under(&mut self, id: usize, value: T) -> Result<(), T> {
        if id < self.fresh || id >= N {
            return Err(value);
        }
        add_free(&mut self.free, &self.slots, self.fresh, self.held, id);
        fill(&mut self.slots, id, value);
        self.fresh = id + 1;
        self.held += 1;
        Ok(())
    }
}
