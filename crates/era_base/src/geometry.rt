//! How an origin is divided into blocks.

ghost use Rattle.std.specs.Prelude.{◌≡◌, ◌<◌, ◌≤◌, ◌+◌, ◌*◌, ◌↔◌, ℕ, IfOk, IfSome, IsErrOf};
ghost use Rattle.era_base.specs.Geometry.{IsBlockSize, blocks_of, array_pages_of, bit_pages_of, root_pages_of, need_of, span_of, place_at};
ghost use Rattle.era_base.specs.declared.limits.TheConstants.{MOST_BLOCKS};

use crate::limits::MOST_BLOCKS;
use thiserror::Error;

/// Why numbers are no geometry, in the order of the tests.
#[derive(Clone, Copy, Debug, PartialEq, Eq, Error)]
pub enum GeomError {
    /// The block size isn't a multiple of 8 sectors from 8 to 128.
    #[error("the block size isn't a multiple of 8 sectors from 8 to 128")]
    BadBlockSize,
    /// The origin has no sector.
    #[error("the origin has no sector")]
    NoBlocks,
    /// The origin has this many blocks, which is more than 65,536.
    #[error("the origin has {0} blocks, which is more than 65536")]
    TooManyBlocks(u64),
}

/// An origin's length and its block size, both in sectors of 512 bytes. The last block may be short.
#[derive(Clone, Copy, Debug, PartialEq, Eq)]
pub struct Geometry {
    pub sectors: u64,
    pub block_sectors: u32,
    pub ghost some: { 0 < sectors },
    pub ghost block_size: { IsBlockSize block_sectors },
    pub ghost limited: { blocks_of sectors block_sectors ≤ MOST_BLOCKS },
}

impl Geometry {
    /// An origin of `sectors` sectors in blocks of `block_sectors` sectors. It takes no memory.
    pub fn new(sectors: u64, block_sectors: u64) -> Result<Geometry, GeomError>
        ensures ok { IfOk result (λ g. (g.sectors ≡ sectors) × (g.block_sectors ≡ block_sectors)) }
        ensures block_size { IsErrOf result GeomError.BadBlockSize ↔ ¬ IsBlockSize block_sectors }
        ensures none { IsErrOf result GeomError.NoBlocks
            ↔ (IsBlockSize block_sectors × (sectors ≡ 0)) }
        ensures many { (count : ℕ) → IsErrOf result (GeomError.TooManyBlocks count)
            ↔ (IsBlockSize block_sectors × (count ≡ blocks_of sectors block_sectors)
            × (MOST_BLOCKS < count)) }
    {
        if block_sectors % 8 != 0 || block_sectors < 8 || block_sectors > 128 {
            return Err(GeomError::BadBlockSize);
        }
        if sectors == 0 {
            return Err(GeomError::NoBlocks);
        }
        let blocks = sectors.div_ceil(block_sectors);
        if blocks > u64::from(MOST_BLOCKS) {
            return Err(GeomError::TooManyBlocks(blocks));
        }
        Ok(Geometry {
            sectors,
            block_sectors: block_sectors as u32,
        })
    }

    /// The length of the origin in sectors.
    pub fn sectors(&self) -> u64
        ensures { result ≡ self.now.sectors }
    {
        self.sectors
    }

    /// The block size in sectors.
    pub fn block_sectors(&self) -> u32
        ensures { result ≡ self.now.block_sectors }
    {
        self.block_sectors
    }

    /// The number of blocks, from 1 to 65,536.
    pub fn blocks(&self) -> u32
        ensures value { result ≡ blocks_of self.now.sectors self.now.block_sectors }
        ensures range { (0 < result) × (result ≤ MOST_BLOCKS) }
    {
        self.sectors.div_ceil(u64::from(self.block_sectors)) as u32
    }

    /// The first sector of a block, counted from the origin's first, and how many sectors the block has.
    pub fn span(&self, block: u32) -> (u64, u32)
        requires { block < blocks_of self.now.sectors self.now.block_sectors }
        ensures value { result ≡ span_of self.now.sectors self.now.block_sectors block }
        ensures some { 0 < result.1 }
        ensures within { result.0 + result.1 ≤ self.now.sectors }
    {
        let first = u64::from(block) * u64::from(self.block_sectors);
        let rest = self.sectors - first;
        (first, rest.min(u64::from(self.block_sectors)) as u32)
    }

    /// The pages of 4,096 bytes that the era array takes.
    pub fn array_pages(&self) -> u32
        ensures { result ≡ array_pages_of (blocks_of self.now.sectors self.now.block_sectors) }
    {
        self.blocks().div_ceil(1024)
    }

    /// The pages of 4,096 bytes that one write set takes.
    pub fn bit_pages(&self) -> u32
        ensures { result ≡ bit_pages_of (blocks_of self.now.sectors self.now.block_sectors) }
    {
        self.blocks().div_ceil(32_768)
    }

    /// The pages of 4,096 bytes that one root reaches.
    pub fn root_pages(&self) -> u32
        ensures { result ≡ root_pages_of (blocks_of self.now.sectors self.now.block_sectors) }
    {
        self.array_pages() + 17 * self.bit_pages()
    }

    /// The metadata blocks of 4,096 bytes that an image needs.
    pub fn need(&self) -> u32
        ensures { result ≡ need_of (blocks_of self.now.sectors self.now.block_sectors) }
    {
        3 + 3 * self.root_pages()
    }

    /// The block in which `count` sectors from `sector` on lie, and the first of them as counted from the block's first
    /// sector. `None` exactly where `count` is 0, a sector lies past the end, or they lie in more than one block.
    pub fn place_of(&self, sector: u64, count: u64) -> Option<(u32, u32)>
        ensures value { result ≡ place_at self.now.sectors self.now.block_sectors sector count }
        ensures block { IfSome result (λ place.
            place.0 < blocks_of self.now.sectors self.now.block_sectors) }
        ensures sector { IfSome result (λ place.
            place.0 * self.now.block_sectors + place.1 ≡ sector) }
        ensures within { IfSome result (λ place.
            (place.1 + count ≤ self.now.block_sectors) × (sector + count ≤ self.now.sectors)) }
    {
        let size = u64::from(self.block_sectors);
        if count == 0 || sector >= self.sectors || count > self.sectors - sector {
            return None;
        }
        let block = sector / size;
        if block != (sector + count - 1) / size {
            return None;
        }
        Some((block as u32, (sector % size) as u32))
    }
}
