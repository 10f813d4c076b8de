// The lists of vectors: their arrays stand here, and are lent to the calls.
ghost use Rattle.std.specs.Prelude.{◌≡◌, true, nat_eq, min, replicate};
ghost use Rattle.arrayvec.specs.ArrayVec.{array_vec_len};
ghost use Rattle.list.specs.Holds.{held_list};
ghost use Rattle.list.specs.Lent.{held_in, held_in_mut};
ghost use Rattle.vectors.specs.Same.{same_first};

use crate::{Numbers, same_first};
use arrayvec::ArrayVec;
use list::{LentListMut, Sizes};

// A list in arrays that have room for K words of keys, and for M multiplicities and holds.
#[derive(Drop)]
pub struct LentList<const K: usize, const M: usize> {
    pub sizes: Sizes,
    pub keys: ArrayVec<u64, K>,
    pub multiplicities: ArrayVec<u64, M>,
    pub holds: ArrayVec<u64, M>,
}

// A list of a line.
pub type LineList = LentList<64, 64>;

// So many zeros, or as many as the array has places for.
fn zeros<const N: usize>(n: usize) -> ArrayVec<u64, N>
    ensures { result.items ≡ replicate (min n N) 0 }
{
    let mut words = ArrayVec::from([0; N]);
    words.truncate(n);
    words
}

fn take_sizes(numbers: &mut Numbers<'_>) -> Sizes {
    Sizes {
        capacity: numbers.number() as usize,
        used: numbers.number() as usize,
    }
}

impl<const K: usize, const M: usize> LentList<K, M> {
    // An empty list of so many places, whose arrays are zeros as far as they have room.
    pub fn empty(places: usize) -> Self
        ensures capacity { result.sizes.capacity ≡ places }
        ensures used { result.sizes.used ≡ 0 }
        ensures keys { result.keys.items ≡ replicate K 0 }
        ensures multiplicities { result.multiplicities.items ≡ replicate M 0 }
        ensures holds { result.holds.items ≡ replicate M 0 }
    {
        LentList {
            sizes: Sizes {
                capacity: places,
                used: 0,
            },
            keys: zeros(K),
            multiplicities: zeros(M),
            holds: zeros(M),
        }
    }

    // The list that comes next: its sizes, and its two arrays, each after its count. It holds nothing.
    pub fn take(numbers: &mut Numbers<'_>) -> Self
        ensures { result.holds.items ≡ replicate (array_vec_len result.multiplicities) 0 }
    {
        let sizes = take_sizes(numbers);
        let keys = numbers.counted_array();
        let multiplicities = numbers.counted_array::<u64, M>();
        let holds = zeros(multiplicities.len());
        LentList {
            sizes,
            keys,
            multiplicities,
            holds,
        }
    }

    // Whether the sizes and the two arrays are those that come next, and nothing is held.
    pub fn is_next(&self, numbers: &mut Numbers<'_>) -> bool
        ensures { result ≡ true → same_first nat_eq (array_vec_len self.now.holds) self.now.holds.items (replicate (min (array_vec_len self.now.holds) M) 0) ≡ true }
    {
        let sizes = take_sizes(numbers);
        let keys = numbers.array::<u64, K>(self.keys.len() as u64);
        let multiplicities = numbers.array::<u64, M>(self.multiplicities.len() as u64);
        let unheld = zeros::<M>(self.holds.len());
        sizes == self.sizes
            && same_first(&self.keys, &keys, self.keys.len())
            && same_first(
                &self.multiplicities,
                &multiplicities,
                self.multiplicities.len(),
            )
            && same_first(&self.holds, &unheld, self.holds.len())
    }

    // The list as it is lent, to be looked at.
    pub fn lend(&self) -> list::LentList<'_>
        ensures { held_in result ≡ held_list self.now.sizes self.now.keys.items self.now.multiplicities.items self.now.holds.items }
    {
        list::LentList::new(self.sizes, &self.keys, &self.multiplicities, &self.holds)
    }

    // The same, to be changed; the sizes that a call leaves are in what was lent. It is made by its fields, for the reason that the header of u32_table
    // gives.
    pub fn lend_mut(&mut self) -> LentListMut<'_>
        ensures { held_in_mut result ≡ held_list self.old.sizes self.old.keys.items self.old.multiplicities.items self.old.holds.items }
    {
        LentListMut {
            sizes: self.sizes,
            keys: &mut self.keys,
            multiplicities: &mut self.multiplicities,
            holds: &mut self.holds,
        }
    }
}
