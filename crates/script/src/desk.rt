// What the suites share: the settings, the byte buffer and the pool.
use arrayvec::ArrayVec;
use config::config::CongestionConfig;

// The most bytes that the buffer holds.
pub(crate) const BUFFER_BYTES: usize = 4096;

// The bytes of the pool: 768 slots of 1,472.
pub(crate) const POOL_BYTES: usize = 1130496;

// Before the first record: default settings, no byte, and nothing is lent.
#[derive(Default, Drop)]
pub(crate) struct Desk {
    pub(crate) settings: CongestionConfig,
    pub(crate) bytes: ArrayVec<u8, BUFFER_BYTES>,
    pub(crate) pool: Pool,
}

// Bytes of which the first are lent.
// Stays: [6] a vector of the lent bytes would lose the others, and they are kept, read and lent again.
#[derive(Default, Drop)]
pub(crate) struct Pool {
    bytes: [u8; POOL_BYTES],
    lent: usize,
}

impl Pool {
    // Lends so many of the first bytes, or all.
    pub(crate) fn lend(&mut self, lent: usize) {
        self.lent = lent.min(POOL_BYTES);
    }

    // Sets every byte, lent or not.
    pub(crate) fn fill(&mut self, byte: u8) {
        self.bytes.fill(byte);
    }

    // All bytes.
    pub(crate) fn all(&self) -> &[u8] {
        &self.bytes
    }

    // The lent ones.
    pub(crate) fn lent(&self) -> &[u8] {
        &self.bytes[..self.lent.min(POOL_BYTES)]
    }

    // The same to be written.
    pub(crate) fn lent_mut(&mut self) -> &mut [u8] {
        let end = self.lent.min(POOL_BYTES);
        &mut self.bytes[..end]
    }
}
