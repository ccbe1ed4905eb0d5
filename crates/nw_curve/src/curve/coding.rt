//! Points as 32 bytes.
ghost use Rattle.std.specs.Prelude.{◌≡◌, ◌==◌, ◌<◌, length};
ghost use Rattle.nw_curve.specs.Coding.{root, recovered, with_sign, decoded, encoded, scaled, is_odd};
ghost use Rattle.nw_curve.specs.Inverse.{IsInverse};

use super::Point;
use super::constants::{minus_one_root, the_d};
use crate::field::{Number, Whole};

impl Point {
    /// The point that 32 bytes encode (RFC 8032, 5.1.3). `None` if y is not below the prime, if no point has this y, or if x is 0 and its
    /// sign bit is set.
    #[tactic(auto, unfolding(crate::specs::Coding::decoded))]
    pub fn decoded(bytes: &[u8]) -> Option<Point>
        requires { length bytes.now ≡ 32 }
        ensures { result ≡ decoded bytes.now }
    {
        let whole = Whole::from_bytes(bytes);
        let y = Number::from_whole(&whole.without_top_bit())?;
        let x = recovered(&y, whole.is_set(255))?;
        Some(Point {
            t: x.times(&y),
            x,
            y,
            z: Number::one(),
        })
    }

    /// The point's encoding of 32 bytes (RFC 8032, 5.1.2).
    #[tactic(auto, unfolding(crate::specs::Coding::encoded))]
    pub fn encoded(&self) -> [u8; 32]
        ensures { result ≡ encoded self.now }
    {
        self.encoded_by(&self.z.inverse())
    }

    /// The point's encoding by an inverse of its Z. So a caller can compute the inverses of many Z at once.
    #[tactic(auto, using(crate::proofs::Inverses::scaled_encodes))]
    pub fn encoded_by(&self, inverse: &Number) -> [u8; 32]
        ensures scaled { result ≡ scaled self.now inverse.now }
        ensures encoded { IsInverse self.now.z inverse.now → result ≡ encoded self.now }
    {
        let x = self.x.times(inverse);
        let y = self.y.times(inverse);
        y.to_whole().with_top_bit(x.is_odd()).to_bytes()
    }
}

/// The x of the point with this y and sign bit, or `None` if there is none.
#[tactic(auto, unfolding(crate::specs::Coding::recovered))]
fn recovered(y: &Number, sign: bool) -> Option<Number>
    ensures { result ≡ recovered y.now sign }
{
    let square = y.square();
    let one = Number::one();
    with_sign(
        sign,
        root(&square.minus(&one), &the_d().times(&square).plus(&one)),
    )
}

/// The root or its negative: the odd one if `sign` is set, and otherwise the even one. `None` if the root is 0 and `sign` is set.
fn with_sign(sign: bool, root: Option<Number>) -> Option<Number>
    ensures { result ≡ with_sign sign root }
{
    let x = root?;
    if sign && x.equals(&Number::zero()) {
        None
    } else if x.is_odd() == sign {
        Some(x)
    } else {
        Some(x.negative())
    }
}

/// A square root of u / v, or `None` if there is none.
#[tactic(auto, unfolding(crate::specs::Coding::root))]
fn root(u: &Number, v: &Number) -> Option<Number>
    ensures { result ≡ root u.now v.now }
{
    let r = u
        .times(&v.cube())
        .times(&u.times(&v.seventh()).root_power());
    let s = v.times(&r.square());
    if s.equals(u) {
        Some(r)
    } else if s.equals(&u.negative()) {
        Some(r.times(&minus_one_root()))
    } else {
        None
    }
}
