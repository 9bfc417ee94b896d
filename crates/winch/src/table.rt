// A table's words, at the front of room that stays when a smaller table is started: the next large one finds it there.
use std::alloc::{AllocError, Global};

#[derive(Drop)]
pub struct Table {
    room: Vec<u32>,
    size: usize,
}

impl Table {
    // None yet.
    pub fn new(alloc: Global) -> Table {
        Table {
            room: Vec::new(alloc),
            size: 0,
        }
    }

    // Room for a table of so many words. What they are is left to `sheafwinch::start`, which writes every one.
    pub fn resize(&mut self, size: usize) -> Result<(), AllocError> {
        if self.room.len() < size {
            self.room.resize(size, 0)?;
        }
        self.size = size;
        Ok(())
    }

    // How many words it has.
    pub fn len(&self) -> usize {
        self.as_slice().len()
    }

    // Its words.
    pub fn as_slice(&self) -> &[u32] {
        let room = self.room.as_slice();
        let size = self.size.min(room.len());
        &room[..size]
    }

    pub fn as_mut_slice(&mut self) -> &mut [u32] {
        let room = self.room.as_mut_slice();
        let size = self.size.min(room.len());
        &mut room[..size]
    }
}
