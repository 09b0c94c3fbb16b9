// Which characteristics are frequencies (R295), and which of their cells mean that there is no reading (R291).
#![tactic(auto)]

ghost use Rattle.std.specs.Prelude.{◌↔◌, T};
ghost use Rattle.characteristic.specs.NoReading.{Frequency, IsNoReading};

// R295: whether the characteristic of this number is a frequency. The numbers stand as in the rule.
pub fn is_frequency(number: usize) -> bool
    ensures { T result ↔ Frequency number }
{
    matches!(number, 1 | 2 | 4..=10 | 22 | 23 | 25 | 27..=31 | 35 | 36 | 44 | 46 | 48)
}

// R291: whether this cell of the characteristic of this number means no reading.
pub fn is_no_reading(number: usize, cell: i64) -> bool
    ensures { T result ↔ IsNoReading number cell }
{
    cell == 9999000 || (cell == 999900 && is_frequency(number))
}
