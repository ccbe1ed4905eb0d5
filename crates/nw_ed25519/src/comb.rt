//! Combs: tables of multiples of a point, with a row for every 16 bits of a number.
ghost use Rattle.std.specs.Prelude.{◌≡◌, ℕ, ◌+◌, ◌*◌, ◌/◌, ◌<◌, ◌≤◌, ◌^◌, ◌++◌, IfOk, vec_len};
ghost use Rattle.nw_curve.specs.Completed.{affine_prepared, normalized, prepared};
ghost use Rattle.nw_curve.specs.Inverse.{HasInverse};
ghost use Rattle.nw_ed25519.specs.Comb.{AreAllProper, AreProper, IsPushed, blocks, doubled_times, digit, chunk, repeated, row_point, rows};
ghost use Rattle.nw_curve.specs.declared.curve.point.Point.{Point};

use nw_curve::{Addend, AffineAddend, Number, Point, Whole};
use std::alloc::{AllocError, Global};

/// The number of rows.
pub const ROWS: usize = 16;
/// The multiples in a block of a row. Their Z are inverted together.
const BLOCK: usize = 16;

/// A comb: in row r, the first multiples of 2^(16 r) times a point, prepared for sums. A row has one for each digit of `bits` bits. Each has
/// Z 1. They lie in blocks of 16, in each the last one first.
#[derive(Debug, Drop)]
pub struct Comb {
    bits: u32,
    entries: Vec<AffineAddend>,
    ghost many: { 4 ≤ bits },
    ghost few: { bits ≤ 8 },
    ghost size: { vec_len entries ≡ 16 * 2 ^ bits },
}

impl Comb {
    /// The comb of the point for digits of so many bits.
    pub fn of(alloc: Global, point: Point, bits: u32) -> Result<Comb, AllocError>
        requires many { 4 ≤ bits }
        requires few { bits ≤ 8 }
        ensures { IfOk result (λ comb. (comb.bits ≡ bits)
            × (AreAllProper point → comb.entries.items ≡ rows (2 ^ bits / 16) 16 point)) }
    {
        let width = power_of_two(bits);
        let mut entries = Vec::with_capacity(alloc, ROWS * width)?;
        let mut row = point;
        for _done in 0..ROWS {
            push_row(&mut entries, &row, width / BLOCK)?;
            row = doubled_times(row, 16);
        }
        Ok(Comb { bits, entries })
    }

    /// The number of bits of a digit.
    pub fn bits(&self) -> u32
        ensures is { result ≡ self.now.bits }
        ensures few { result ≤ 8 }
    {
        self.bits
    }

    /// The entry of a row for a digit.
    pub fn entry(&self, row: usize, digit: usize) -> &AffineAddend
        requires row { row < 16 }
        requires digit { digit < 2 ^ self.now.bits }
        ensures { (p : Point) → self.now.entries.items ≡ rows (2 ^ self.now.bits / 16) 16 p
            → result.now ≡ affine_prepared (normalized (repeated digit (row_point row p))) }
    {
        let in_row = digit / BLOCK * BLOCK + (BLOCK - 1 - digit % BLOCK);
        &self.entries[row * power_of_two(self.bits) + in_row]
    }
}

/// Appends a row: so many blocks of multiples of the point.
fn push_row(entries: &mut Vec<AffineAddend>, point: &Point, count: usize) -> Result<(), AllocError>
    ensures entries { IfOk result
        (λ _. AreProper point.now → entries.new.items ≡ entries.old.items ++ blocks count point.now) }
    ensures size { IfOk result (λ _. vec_len entries.new ≡ vec_len entries.old + 16 * count) }
{
    let addend = Addend::of(point);
    let one = Number::one();
    let mut multiple = Point::identity();
    for _block in 0..count {
        multiple = push_down(entries, multiple, &addend, BLOCK, &one)?.next;
    }
    Ok(())
}

/// The multiple after the appended ones, and an inverse of the product.
#[derive(Drop)]
struct Pushed {
    next: Point,
    inverse: Number,
}

/// Appends so many multiples of a point, from `multiple` on, the last one first. The point is prepared for sums.
///
/// An inverse of the product with the Z of all these multiples gives, from the last multiple to the first, one of each Z.
fn push_down(
    entries: &mut Vec<AffineAddend>,
    multiple: Point,
    addend: &Addend,
    count: usize,
    product: &Number,
) -> Result<Pushed, AllocError>
    ensures pushed { IfOk result (λ pushed. (n : ℕ) (p : Point) → AreProper p → HasInverse product.now
        → multiple ≡ repeated n p → addend.now ≡ prepared p
        → IsPushed n count p pushed.next product.now pushed.inverse entries.old.items entries.new.items) }
    ensures size { IfOk result (λ _. vec_len entries.new ≡ vec_len entries.old + count) }
{
    if count == 0 {
        return Ok(Pushed {
            next: multiple,
            inverse: product.inverse(),
        });
    }
    let more = product.times(&multiple.z);
    let pushed = push_down(entries, multiple.plus(addend), addend, count - 1, &more)?;
    let own = multiple.normalized_by(&pushed.inverse.times(product));
    entries.push(AffineAddend::of(&own))?;
    Ok(Pushed {
        next: pushed.next,
        inverse: pushed.inverse.times(&multiple.z),
    })
}

/// The point times 2^`times`.
pub fn doubled_times(point: Point, times: u32) -> Point
    ensures { result ≡ doubled_times times point }
{
    let mut multiple = point;
    for _done in 0..times {
        multiple = multiple.doubled();
    }
    multiple
}

/// A digit of a number: so many of the 16 bits from bit 16 `row` on, from bit `shift` of these on.
pub fn digit(number: &Whole, row: usize, shift: u32, bits: u32) -> usize
    requires row { row < 16 }
    requires shift { shift < 16 }
    requires bits { bits ≤ 8 }
    ensures value { result ≡ digit bits number.now row shift }
    ensures small { result < 2 ^ bits }
{
    let half = if row < 8 { number.low() } else { number.high() };
    let chunk = ((half >> (16 * (row as u32 % 8))) % 65536) as usize;
    (chunk >> shift) % power_of_two(bits)
}

/// 2 to the power `exponent`.
fn power_of_two(exponent: u32) -> usize
    requires { exponent ≤ 8 }
    ensures value { result ≡ 2 ^ exponent }
    ensures small { result ≤ 256 }
{
    1 << exponent
}
