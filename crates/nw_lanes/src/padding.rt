// A message and its padding, block by block.
ghost use Rattle.std.specs.Prelude.{◌≡◌, ◌<◌, ◌/◌, length, slice_index};
ghost use Rattle.sha2.specs.Sha256.{padded_message};
ghost use Rattle.nw_lanes.specs.Lanes.{block_at};

// The number of blocks.
#[tactic(auto, using(crate::proofs::Padded::length_padded))]
pub(crate) fn block_count(message: &[u8]) -> usize
    ensures { result ≡ length (padded_message message.now) / 64 }
{
    let whole = message.len() / 64;
    if message.len() % 64 < 56 {
        whole + 1
    } else {
        whole + 2
    }
}

// Byte `at`.
fn padded_byte(message: &[u8], at: usize) -> u8
    requires { at < length (padded_message message.now) }
    ensures { result ≡ slice_index (padded_message message.now) at }
{
    let len = message.len();
    let zeros = (119 - len % 64) % 64;
    if at < len {
        message[at]
    } else if at == len {
        0x80
    } else if at - len <= zeros {
        0
    } else {
        let bits = (len as u64).wrapping_mul(8);
        bits.to_be_bytes()[at - len - zeros - 1]
    }
}

// Block `k`, or zeros if there are fewer blocks.
pub(crate) fn padded_block(message: &[u8], k: usize) -> [u8; 64]
    ensures { result ≡ block_at message.now k }
{
    let mut block = [0u8; 64];
    if k < message.len() / 64 {
        block.copy_from_slice(&message[k * 64..k * 64 + 64]);
        return block;
    }
    if k < block_count(message) {
        'bytes: for j in 0..64 {
            block[j] = padded_byte(message, k * 64 + j);
        }
    }
    block
}
