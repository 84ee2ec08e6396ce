ghost use Rattle.std.specs.Prelude.{◌≡◌, ◌↔◌, ◌⊎◌, ℕ, ◌<◌, ◌+◌, ◌*◌, IfOk, IsTrue, length};
ghost use Rattle.layer_judge.specs.Rankings.{IsMarked};

use std::alloc::{AllocError, Global};

/// Which face is above which: a row for each face, and in it a cell for each face, marked if the row's face is above it.
#[derive(Drop)]
pub struct Ranking {
    pub count: u32,
    pub cells: Vec<bool>,
    pub ghost sized: { length cells.items ≡ count * count },
}

impl Ranking {
    /// The table with nothing marked.
    pub fn empty(alloc: Global, count: u32) -> Result<Ranking, AllocError>
        ensures count { IfOk result (λ table. table.count ≡ count) }
        ensures unmarked { IfOk result (λ table. (f g : ℕ) → ¬ IsMarked table.count table.cells.items f g) }
    {
        let size = count as usize * count as usize;
        let cells = vec![in alloc; false; size]?;
        Ok(Ranking { count, cells })
    }

    /// The place of a cell.
    fn place(&self, upper: u32, lower: u32) -> usize
        requires upper { upper < self.now.count }
        requires lower { lower < self.now.count }
        ensures place { result ≡ upper * self.now.count + lower }
        ensures within { result < length self.now.cells.items }
    {
        upper as usize * self.count as usize + lower as usize
    }

    /// Whether the first face is above the second.
    pub fn is_above(&self, upper: u32, lower: u32) -> bool
        requires upper { upper < self.now.count }
        requires lower { lower < self.now.count }
        ensures { IsTrue result ↔ IsMarked self.now.count self.now.cells.items upper lower }
    {
        self.cells[self.place(upper, lower)]
    }

    /// Marks that the first face is above the second.
    pub fn put_above(&mut self, upper: u32, lower: u32)
        requires upper { upper < self.old.count }
        requires lower { lower < self.old.count }
        ensures count { self.new.count ≡ self.old.count }
        ensures marks { (f g : ℕ) → IsMarked self.old.count self.new.cells.items f g
            ↔ (IsMarked self.old.count self.old.cells.items f g ⊎ (f ≡ upper) × (g ≡ lower)) }
    {
        let place = self.place(upper, lower);
        self.cells[place] = true;
    }
}
