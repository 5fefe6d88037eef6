//! The footer of a table.

ghost use Rattle.std.specs.Prelude.{◌≡◌, ◌↔◌, ◌≤◌, IsTrue, length, option_map, IfSome};
ghost use Rattle.lsm_codec.specs.Spelling.{IsDecoded};
ghost use Rattle.lsm_codec.specs.Reading.{Lends};
ghost use Rattle.lsm_codec.specs.Footers.{summary_of, IsSummary, footer_at, footer_block, footer_of};

use crate::filled::Filled;
use crate::greatest::LAST_NUMBER;
use crate::lending::{is_zero, key_at};
use byteorder::{BigEndian, ByteOrder};

/// `LSMT`.
const MAGIC: u32 = 0x4c53_4d54;

/// What ends the extent of a table.
#[derive(Clone, Copy, Debug)]
pub struct Footer<'a> {
    /// The number of the table, at most 2^63.
    pub number: u64,
    /// From 1 to 64.
    pub data_blocks: u16,
    /// From 1 to 3,200.
    pub entries: u32,
    /// The bytes of the index, 10 to 16,896.
    pub index_len: u32,
    /// The first key, of 1 to 255 bytes.
    pub first: &'a [u8],
}

fn footer_at(block: &[u8; 4_096]) -> Option<(Footer<'_>, &[u8])>
    ensures { Lends (λ x. (summary_of x.0, x.1.now)) result (footer_at block.now) }
{
    if BigEndian::read_u32(&block[..]) != MAGIC {
        return None;
    }
    let (first, rest) = key_at(&block[22..])?;
    let footer = Footer {
        number: BigEndian::read_u64(&block[4..]),
        data_blocks: BigEndian::read_u16(&block[12..]),
        entries: BigEndian::read_u32(&block[14..]),
        index_len: BigEndian::read_u32(&block[18..]),
        first,
    };
    Some((footer, rest))
}

impl<'a> Footer<'a> {
    /// Whether each field is within its limits.
    pub fn is_within_limits(&self) -> bool
        ensures { IsTrue result ↔ IsSummary (summary_of self.now) }
    {
        self.number <= LAST_NUMBER
            && (1..=64).contains(&self.data_blocks)
            && (1..=3_200).contains(&self.entries)
            && (10..=16_896).contains(&self.index_len)
            && (1..=255).contains(&self.first.len())
    }

    /// The block that spells the footer.
    #[tactic(auto, unfolding(crate::specs::Footers::footer_block))]
    pub fn encode(&self) -> [u8; 4_096]
        requires { length self.now.first.now ≤ 255 }
        ensures { result ≡ footer_block (summary_of self.now) }
    {
        let mut block = Filled::<4_096>::new();
        block.put_u32(MAGIC);
        block.put_u64(self.number);
        block.put_u16(self.data_blocks);
        block.put_u32(self.entries);
        block.put_u32(self.index_len);
        block.put_key(self.first);
        block.into_bytes()
    }

    /// The footer that the block spells, if it spells one within the limits.
    pub fn decode(block: &'a [u8; 4_096]) -> Option<Footer<'a>>
        ensures answer { option_map summary_of result ≡ footer_of block.now }
        ensures exact { IsDecoded IsSummary footer_block block.now (footer_of block.now) }
        ensures fits { IfSome result (λ f. IsSummary (summary_of f)) }
    {
        match footer_at(block) {
            Some((footer, rest)) => {
                if is_zero(rest) && footer.is_within_limits() {
                    Some(footer)
                } else {
                    None
                }
            }
            None => None,
        }
    }
}
