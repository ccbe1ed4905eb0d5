// SHA-256's compression of eight messages at once: lane `i` of each vector belongs to message `i`.
ghost use Rattle.std.specs.Prelude.{◌≡◌, ℕ, ◌<◌, ◌≤◌, ◌+◌, ◌*◌, ◌%◌, List, All, set, slice_index};
ghost use Rattle.sha2.specs.Sha256.{IsRoundsAt, add32, add_state, big_sigma0, big_sigma1, ch, compress, maj, round, small_sigma0, small_sigma1, temp1, temp2, window_word, word_at};
ghost use Rattle.nw_lanes.specs.Lanes.{IsLanes, IsVector, lane, of_lanes, row, vectors};

use std::simd::prelude::*;

const K32: [u32; 64] = [
    0x428a_2f98,
    0x7137_4491,
    0xb5c0_fbcf,
    0xe9b5_dba5,
    0x3956_c25b,
    0x59f1_11f1,
    0x923f_82a4,
    0xab1c_5ed5,
    0xd807_aa98,
    0x1283_5b01,
    0x2431_85be,
    0x550c_7dc3,
    0x72be_5d74,
    0x80de_b1fe,
    0x9bdc_06a7,
    0xc19b_f174,
    0xe49b_69c1,
    0xefbe_4786,
    0x0fc1_9dc6,
    0x240c_a1cc,
    0x2de9_2c6f,
    0x4a74_84aa,
    0x5cb0_a9dc,
    0x76f9_88da,
    0x983e_5152,
    0xa831_c66d,
    0xb003_27c8,
    0xbf59_7fc7,
    0xc6e0_0bf3,
    0xd5a7_9147,
    0x06ca_6351,
    0x1429_2967,
    0x27b7_0a85,
    0x2e1b_2138,
    0x4d2c_6dfc,
    0x5338_0d13,
    0x650a_7354,
    0x766a_0abb,
    0x81c2_c92e,
    0x9272_2c85,
    0xa2bf_e8a1,
    0xa81a_664b,
    0xc24b_8b70,
    0xc76c_51a3,
    0xd192_e819,
    0xd699_0624,
    0xf40e_3585,
    0x106a_a070,
    0x19a4_c116,
    0x1e37_6c08,
    0x2748_774c,
    0x34b0_bcb5,
    0x391c_0cb3,
    0x4ed8_aa4a,
    0x5b9c_ca4f,
    0x682e_6ff3,
    0x748f_82ee,
    0x78a5_636f,
    0x84c8_7814,
    0x8cc7_0208,
    0x90be_fffa,
    0xa450_6ceb,
    0xbef9_a3f7,
    0xc671_78f2,
];

#[inline(always)]
fn big_sigma0(x: u32x8) -> u32x8
    requires { IsVector x }
    ensures { result ≡ of_lanes (λ i. big_sigma0 (slice_index x i)) }
{
    ((x >> 2) | (x << 30)) ^ ((x >> 13) | (x << 19)) ^ ((x >> 22) | (x << 10))
}

#[inline(always)]
fn big_sigma1(x: u32x8) -> u32x8
    requires { IsVector x }
    ensures { result ≡ of_lanes (λ i. big_sigma1 (slice_index x i)) }
{
    ((x >> 6) | (x << 26)) ^ ((x >> 11) | (x << 21)) ^ ((x >> 25) | (x << 7))
}

#[inline(always)]
fn small_sigma0(x: u32x8) -> u32x8
    requires { IsVector x }
    ensures { result ≡ of_lanes (λ i. small_sigma0 (slice_index x i)) }
{
    ((x >> 7) | (x << 25)) ^ ((x >> 18) | (x << 14)) ^ (x >> 3)
}

#[inline(always)]
fn small_sigma1(x: u32x8) -> u32x8
    requires { IsVector x }
    ensures { result ≡ of_lanes (λ i. small_sigma1 (slice_index x i)) }
{
    ((x >> 17) | (x << 15)) ^ ((x >> 19) | (x << 13)) ^ (x >> 10)
}

#[inline(always)]
fn ch(x: u32x8, y: u32x8, z: u32x8) -> u32x8
    requires x { IsVector x }
    requires y { IsVector y }
    requires z { IsVector z }
    ensures { result ≡ of_lanes (λ i. ch (slice_index x i) (slice_index y i) (slice_index z i)) }
{
    (x & y) ^ (!x & z)
}

#[inline(always)]
fn maj(x: u32x8, y: u32x8, z: u32x8) -> u32x8
    requires x { IsVector x }
    requires y { IsVector y }
    requires z { IsVector z }
    ensures { result ≡ of_lanes (λ i. maj (slice_index x i) (slice_index y i) (slice_index z i)) }
{
    (x & y) ^ (x & z) ^ (y & z)
}

#[inline(always)]
fn temp1(v: [u32x8; 8], k: u32, word: u32x8) -> u32x8
    requires lanes { IsLanes v }
    requires word { IsVector word }
    ensures { result ≡ of_lanes (λ i. temp1 (lane v i) k (slice_index word i)) }
{
    let [_, _, _, _, e, f, g, h] = v;
    h + big_sigma1(e) + ch(e, f, g) + u32x8::splat(k) + word
}

#[inline(always)]
fn temp2(v: [u32x8; 8]) -> u32x8
    requires { IsLanes v }
    ensures { result ≡ of_lanes (λ i. temp2 (lane v i)) }
{
    let [a, b, c, _, _, _, _, _] = v;
    big_sigma0(a) + maj(a, b, c)
}

// One round in each lane.
#[inline(always)]
fn round_lanes(v: [u32x8; 8], k: u32, word: u32x8) -> [u32x8; 8]
    requires lanes { IsLanes v }
    requires word { IsVector word }
    ensures { result ≡ vectors (λ i. round (lane v i) k (slice_index word i)) }
{
    let first = temp1(v, k, word);
    let second = temp2(v);
    let [a, b, c, d, e, f, g, _] = v;
    [first + second, a, b, c, d + first, e, f, g]
}

// The sums of the words in each lane.
#[inline(always)]
fn add_states(x: [u32x8; 8], y: [u32x8; 8]) -> [u32x8; 8]
    requires x { IsLanes x }
    requires y { IsLanes y }
    ensures { result ≡ vectors (λ i. add_state (lane x i) (lane y i)) }
{
    let [a, b, c, d, e, f, g, h] = x;
    let [p, q, r, s, t, u, v, w] = y;
    [a + p, b + q, c + r, d + s, e + t, f + u, g + v, h + w]
}

// The schedule word after these.
#[inline(always)]
fn next_word(from2: u32x8, from7: u32x8, from15: u32x8, from16: u32x8) -> u32x8
    requires two { IsVector from2 }
    requires seven { IsVector from7 }
    requires fifteen { IsVector from15 }
    requires sixteen { IsVector from16 }
    ensures { result ≡ of_lanes (λ i. add32 (add32 (add32 (small_sigma1 (slice_index from2 i)) (slice_index from7 i))
        (small_sigma0 (slice_index from15 i))) (slice_index from16 i)) }
{
    small_sigma1(from2) + from7 + small_sigma0(from15) + from16
}

// `w` is a ring of the last 16 words: word `t` of each lane goes at `t % 16`, over the word 16 before it.
#[inline(always)]
fn next_words(w: &mut [u32x8; 16], t: usize) -> u32x8
    requires t { t < 64 }
    requires vectors { All IsVector w.old }
    ensures value { (i : ℕ) → i < 8 → slice_index result i ≡ window_word (lane w.old i) t }
    ensures vector { IsVector result }
    ensures window { w.new ≡ set w.old (t % 16) result }
{
    let next = next_word(
        w[(t + 14) % 16],
        w[(t + 9) % 16],
        w[(t + 1) % 16],
        w[t % 16],
    );
    w[t % 16] = next;
    next
}

// The word at byte `at`.
#[inline(always)]
fn load_word(block: &[u8; 64], at: usize) -> u32
    requires { at + 4 ≤ 64 }
    ensures { result ≡ word_at block.now at }
{
    u32::from_be_bytes([block[at], block[at + 1], block[at + 2], block[at + 3]])
}

// The word at byte `at` of each block.
#[inline(always)]
fn load(blocks: &[[u8; 64]; 8], at: usize) -> u32x8
    requires { at + 4 ≤ 64 }
    ensures { result ≡ of_lanes (λ i. word_at (row blocks.now i) at) }
{
    u32x8::from_array([
        load_word(&blocks[0], at),
        load_word(&blocks[1], at),
        load_word(&blocks[2], at),
        load_word(&blocks[3], at),
        load_word(&blocks[4], at),
        load_word(&blocks[5], at),
        load_word(&blocks[6], at),
        load_word(&blocks[7], at),
    ])
}

// Round `t`, from 16 on, in each lane, with its schedule word.
#[inline(always)]
fn step(w: &mut [u32x8; 16], v: [u32x8; 8], t: usize) -> [u32x8; 8]
    requires low { 16 ≤ t }
    requires high { t < 64 }
    requires words { All IsVector w.old }
    requires lanes { IsLanes v }
    ensures next { (i : ℕ) (b h : List ℕ) → i < 8 → IsRoundsAt b h (lane w.old i) (lane v i) t
        → IsRoundsAt b h (lane w.new i) (lane result i) (t + 1) }
    ensures words { All IsVector w.new }
    ensures lanes { IsLanes result }
{
    let words = next_words(w, t);
    round_lanes(v, K32[t], words)
}

/// Takes a block of each lane's message into that lane's hash value.
pub(crate) fn compress_lanes(state: &mut [u32x8; 8], blocks: &[[u8; 64]; 8])
    requires { IsLanes state.old }
    ensures value { (i : ℕ) → i < 8 → lane state.new i ≡ compress (lane state.old i) (row blocks.now i) }
    ensures lanes { IsLanes state.new }
{
    let mut w = [u32x8::splat(0); 16];
    'load: for t in 0..16 {
        w[t] = load(blocks, 4 * t);
    }
    let mut v = *state;
    'first: for t in 0..16 {
        let next = round_lanes(v, K32[t], w[t]);
        v = next;
    }
    'rest: for t in 16..64 {
        let next = step(&mut w, v, t);
        v = next;
    }
    *state = add_states(*state, v);
}
