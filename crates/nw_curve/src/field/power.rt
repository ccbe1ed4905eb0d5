//! Powers modulo the prime.
ghost use Rattle.std.specs.Prelude.{◌≡◌, ℕ, ◌+◌, ◌-◌, ◌/◌, ◌<◌, ◌^◌};
ghost use Rattle.nw_curve.specs.Field.{prime, power, inverse};

use super::Number;

impl Number {
    /// The inverse. The inverse of 0 is 0.
    pub fn inverse(&self) -> Number
        ensures { result ≡ inverse self.now }
    {
        let eleventh = self
            .squared_times(2)
            .times(self)
            .squared_times(1)
            .times(self);
        self.power_of_250_ones().squared_times(5).times(&eleventh)
    }

    /// The third power.
    pub fn cube(&self) -> Number
        ensures { result ≡ power self.now 3 }
    {
        self.squared_times(1).times(self)
    }

    /// The seventh power.
    pub fn seventh(&self) -> Number
        ensures { result ≡ power self.now 7 }
    {
        self.cube().squared_times(1).times(self)
    }

    /// The number to the power (p - 5) / 8, for the prime p. A square root is computed from it.
    pub fn root_power(&self) -> Number
        ensures { result ≡ power self.now ((prime - 5) / 8) }
    {
        self.power_of_250_ones().squared_times(2).times(self)
    }

    /// The number to the power 2^250 - 1, whose binary digits are 250 ones.
    fn power_of_250_ones(&self) -> Number
        ensures { result ≡ power self.now (2 ^ 250 - 1) }
    {
        let two = self.squared_times(1).times(self);
        let four = append_ones(&two, &two, 2);
        let five = four.squared_times(1).times(self);
        let ten = append_ones(&five, &five, 5);
        let twenty = append_ones(&ten, &ten, 10);
        let twenty_five = append_ones(&twenty, &five, 5);
        let fifty = append_ones(&twenty_five, &twenty_five, 25);
        let hundred = append_ones(&fifty, &fifty, 50);
        let half = append_ones(&hundred, &twenty_five, 25);
        append_ones(&half, &half, 125)
    }

    /// The number squared `times` times: its power 2^times.
    fn squared_times(&self, times: u32) -> Number
        requires { 0 < times }
        ensures { result ≡ power self.now (2 ^ times) }
    {
        let mut square = self.square();
        for _done in 1..times {
            square = square.square();
        }
        square
    }
}

/// A number to the power 2^(m + n) - 1, from its powers 2^m - 1 (`first`) and 2^n - 1 (`second`). It appends n ones to m ones.
fn append_ones(first: &Number, second: &Number, n: u32) -> Number
    requires { 0 < n }
    ensures { (a m : ℕ) → first.now ≡ power a (2 ^ m - 1) → second.now ≡ power a (2 ^ n - 1)
        → result ≡ power a (2 ^ (m + n) - 1) }
{
    first.squared_times(n).times(second)
}
