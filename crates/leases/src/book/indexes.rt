ghost use Rattle.std.specs.Prelude.{◌≡◌, ◌≢◌, ◌<◌, ℕ, length, slice_index, IfOk, OnOk};

use std::alloc::{AllocError, Global};

/// Indexes by number; it grows as numbers come.
#[derive(Drop)]
pub struct Indexes {
    pub indexes: Vec<usize>,
}

impl Indexes {
    ghost use Rattle.leases.specs.LeaseBooks.IndexTables.{index_in};

    /// No index is put.
    pub fn new(alloc: Global) -> Indexes
        ensures { (m : ℕ) → index_in result m ≡ 0 }
    {
        Indexes {
            indexes: Vec::new(alloc),
        }
    }

    /// The index of a number; 0 where none was put.
    pub fn get(&self, number: u32) -> usize
        ensures { result ≡ index_in self.now number }
    {
        self.indexes.get(number as usize).copied().unwrap_or(0)
    }

    /// Puts the index of a number.
    pub fn put(&mut self, number: u32, index: usize) -> Result<(), AllocError>
        ensures same { OnOk result (index_in self.new number ≡ index) }
        ensures others { OnOk result ((m : ℕ) → m ≢ number → index_in self.new m ≡ index_in self.old m) }
    {
        let at = number as usize;
        let next = self.indexes.len();
        if at == next {
            self.indexes.push(index)?;
            return Ok(());
        }
        if at > next {
            self.indexes.resize(at + 1, 0)?;
        }
        self.indexes[at] = index;
        Ok(())
    }

    /// No index is put any more for a number.
    pub fn clear(&mut self, number: u32)
        ensures same { index_in self.new number ≡ 0 }
        ensures others { (m : ℕ) → m ≢ number → index_in self.new m ≡ index_in self.old m }
    {
        if let Some(index) = self.indexes.get_mut(number as usize) {
            *index = 0;
        }
    }
}

/// Indexes by the ID of a ring and a number.
#[derive(Drop)]
pub struct IndexTables {
    pub rings: Vec<Indexes>,
    ghost each_id: { length rings.items ≡ 256 },
}

impl IndexTables {
    ghost use Rattle.leases.specs.LeaseBooks.IndexTables.{index_at};

    /// No index is put.
    pub fn new(alloc: Global) -> Result<IndexTables, AllocError>
        ensures { IfOk result (λ t. (r m : ℕ) → index_at t r m ≡ 0) }
    {
        let mut rings = Vec::new(alloc);
        for _ in 0..256u32 {
            rings.push(Indexes::new(alloc))?;
        }
        Ok(IndexTables { rings })
    }

    /// The index of a number; 0 where none was put.
    pub fn get(&self, ring: u8, number: u32) -> usize
        ensures { result ≡ index_at self.now ring number }
    {
        self.rings[usize::from(ring)].get(number)
    }

    /// Puts the index of a number.
    pub fn put(&mut self, ring: u8, number: u32, index: usize) -> Result<(), AllocError>
        ensures same { OnOk result (index_at self.new ring number ≡ index) }
        ensures ring { OnOk result ((m : ℕ) → m ≢ number → index_at self.new ring m ≡ index_at self.old ring m) }
        ensures others { OnOk result ((r m : ℕ) → r ≢ ring → index_at self.new r m ≡ index_at self.old r m) }
    {
        self.rings[usize::from(ring)].put(number, index)
    }

    /// No index is put any more for a number.
    pub fn clear(&mut self, ring: u8, number: u32)
        ensures same { index_at self.new ring number ≡ 0 }
        ensures ring { (m : ℕ) → m ≢ number → index_at self.new ring m ≡ index_at self.old ring m }
        ensures others { (r m : ℕ) → r ≢ ring → index_at self.new r m ≡ index_at self.old r m }
    {
        self.rings[usize::from(ring)].clear(number);
    }
}
