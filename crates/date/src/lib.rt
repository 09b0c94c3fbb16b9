// The date in group 3: digit fields, the calendar, and a date type whose constructor checks; a date that is asked for,
// and which of two is the later. specs/ says what is right.
#![tactic(auto)]

ghost use Rattle.std.specs.Prelude.{◌≡◌, false, cond, ◌≤◌};
ghost use Rattle.std.specs.Option.{ok_or};
ghost use Rattle.date.specs.Digits.{within, read_digits, field_digits};
ghost use Rattle.date.specs.Calendar.{is_leap, days_to, name_day};
ghost use Rattle.date.specs.Date.{judged, dated_of};
ghost use Rattle.date.specs.Asked.{dated_by};
ghost use Rattle.date.specs.Order.{moment, not_before};

// R141, a digit field: its first position, counted from 1, how many digits it has, and its least and its greatest
// value.
#[derive(Clone, Copy)]
pub struct DigitField {
    pub first: usize,
    pub length: usize,
    pub least: usize,
    pub greatest: usize,
}

// R143: the number that digits make. It fails if a byte is no digit, or if the number is less than `least` or greater
// than `greatest`; a number that a usize does not hold is greater than any. std's `parse` would take a plus.
fn number(digits: &[u8], least: usize, greatest: usize) -> Option<usize>
    ensures { result ≡ read_digits least greatest digits.now }
{
    let mut value: usize = 0;
    for digit in digits {
        if !(b'0'..=b'9').contains(digit) {
            return None;
        }
        value = value
            .checked_mul(10)?
            .checked_add(usize::from(*digit - b'0'))?;
    }
    (least..=greatest).contains(&value).then_some(value)
}

impl DigitField {
    // R142: what the field reads as in a text. Positions beyond the text's end are no digits, and there is no position
    // 0.
    #[tactic(auto, unfolding(crate::specs::Digits::field_digits))]
    pub fn read(self, text: &[u8]) -> Option<usize>
        ensures { result ≡ field_digits self text.now }
    {
        let from = self.first.checked_sub(1)?;
        let digits = text.get(from..)?.get(..self.length)?;
        number(digits, self.least, self.greatest)
    }

    // R147: the same, or the position where the field begins, if it fails alone.
    fn read_or_blame(self, text: &[u8]) -> Result<usize, usize>
        ensures { result ≡ ok_or (field_digits self text.now) self.first }
    {
        self.read(text).ok_or(self.first)
    }

    // R143, R147: a number that lies within the field's range, or the position where the field begins.
    fn check_or_blame(self, value: usize) -> Result<(), usize>
        ensures { result ≡ cond (within self.least self.greatest value) (Ok tt) (Err self.first) }
    {
        (self.least..=self.greatest)
            .contains(&value)
            .then_some(())
            .ok_or(self.first)
    }
}

// R144, a rule of the calendar, of which std has none.
#[tactic(auto, unfolding(crate::specs::Calendar::is_leap))]
fn leap(year: usize) -> bool
    ensures { result ≡ is_leap year }
{
    year % 4 == 0 && (year % 100 != 0 || year % 400 == 0)
}

// R145, in a common year, which has no leap day: the days of the months from January to `month`, none for 0. If
// February had 30 days, a year would have 367, and a twelfth of that for each month and five twelfths more, rounded
// down, would be the days to the month's end. The two days that February lacks are taken off from its end on.
#[tactic(auto, using(crate::proofs::Twelfths::from_march, crate::proofs::Twelfths::before_march))]
fn common_days_to(month: usize) -> usize
    requires { month ≤ 12 }
    ensures { result ≡ days_to false month }
{
    let days = (367 * month + 5) / 12;
    if 2 <= month { days - 2 } else { days }
}

// The same in any year: a leap day is February's last.
#[tactic(auto, using(crate::proofs::Twelfths::leap_from_march, crate::proofs::Twelfths::before_march, crate::proofs::Months::days_bound))]
fn days_to(in_leap: bool, month: usize) -> usize
    requires { month ≤ 12 }
    ensures { result ≡ days_to in_leap month }
{
    let days = common_days_to(month);
    if in_leap && 2 <= month {
        days + 1
    } else {
        days
    }
}

// R146: whether a day of the year, a month from 1 to 12 and a day of it name one day of a year.
#[tactic(auto, using(crate::proofs::Days::named_early, crate::proofs::Days::named_late, crate::proofs::Days::named_within))]
fn names(year: usize, day_of_year: usize, month: usize, day: usize) -> bool
    requires { (1 ≤ month) × (month ≤ 12) }
    ensures { result ≡ name_day (is_leap year) day_of_year month day }
{
    let in_leap = leap(year);
    let before = days_to(in_leap, month - 1);
    before < day_of_year && day_of_year <= days_to(in_leap, month) && day_of_year - before == day
}

#[derive(Clone, Copy)]
pub struct Date {
    pub year: usize,
    pub day_of_year: usize,
    pub month: usize,
    pub day: usize,
    pub hour: usize,
    pub minute: usize,
    pub second: usize,
}

impl Date {
    pub const YEAR: DigitField = DigitField {
        first: 3,
        length: 4,
        least: 0,
        greatest: 9999,
    };

    pub const DAY_OF_YEAR: DigitField = DigitField {
        first: 7,
        length: 3,
        least: 1,
        greatest: 366,
    };

    pub const MONTH: DigitField = DigitField {
        first: 10,
        length: 2,
        least: 1,
        greatest: 12,
    };

    pub const DAY: DigitField = DigitField {
        first: 12,
        length: 2,
        least: 1,
        greatest: 31,
    };

    pub const HOUR: DigitField = DigitField {
        first: 14,
        length: 2,
        least: 0,
        greatest: 23,
    };

    pub const MINUTE: DigitField = DigitField {
        first: 16,
        length: 2,
        least: 0,
        greatest: 59,
    };

    pub const SECOND: DigitField = DigitField {
        first: 18,
        length: 2,
        least: 0,
        greatest: 59,
    };

    // R445: the date that the letters of group 3 tell, or the first position of the field that is blamed.
    #[tactic(auto, unfolding(crate::specs::Date::dated_of, crate::specs::Date::first_blamed))]
    pub fn new(letters: &[u8]) -> Result<Date, usize>
        ensures { result ≡ dated_of letters.now }
    {
        let date = Date {
            year: Self::YEAR.read_or_blame(letters)?,
            day_of_year: Self::DAY_OF_YEAR.read_or_blame(letters)?,
            month: Self::MONTH.read_or_blame(letters)?,
            day: Self::DAY.read_or_blame(letters)?,
            hour: Self::HOUR.read_or_blame(letters)?,
            minute: Self::MINUTE.read_or_blame(letters)?,
            second: Self::SECOND.read_or_blame(letters)?,
        };
        date.judge()
    }

    // R148: of numbers that are each within their range, the date if day of the year, month and day agree.
    fn judge(self) -> Result<Date, usize>
        requires { (1 ≤ self.month) × (self.month ≤ 12) }
        ensures { result ≡ judged self }
    {
        names(self.year, self.day_of_year, self.month, self.day)
            .then_some(self)
            .ok_or(Self::DAY_OF_YEAR.first)
    }

    // R331: a date that is asked for: itself, or the position blamed.
    #[tactic(auto, unfolding(crate::specs::Asked::dated_by, crate::specs::Date::first_blamed))]
    pub fn check(self) -> Result<Date, usize>
        ensures { result ≡ dated_by self }
    {
        Self::YEAR.check_or_blame(self.year)?;
        Self::DAY_OF_YEAR.check_or_blame(self.day_of_year)?;
        Self::MONTH.check_or_blame(self.month)?;
        Self::DAY.check_or_blame(self.day)?;
        Self::HOUR.check_or_blame(self.hour)?;
        Self::MINUTE.check_or_blame(self.minute)?;
        Self::SECOND.check_or_blame(self.second)?;
        self.judge()
    }

    // What tells dates apart, the weightiest number first. Month and day are told by the day of the year (R332), so the
    // order of all seven numbers, which could be derived, is not this one.
    fn moment(self) -> [usize; 5]
        ensures { result ≡ moment self }
    {
        [
            self.year,
            self.day_of_year,
            self.hour,
            self.minute,
            self.second,
        ]
    }

    // R332: whether this date is the other, to the second, or comes after it.
    #[tactic(auto, unfolding(crate::specs::Order::not_before, crate::specs::Order::not_less))]
    pub fn at_or_after(self, other: Date) -> bool
        ensures { result ≡ not_before self other }
    {
        self.moment() >= other.moment()
    }
}
