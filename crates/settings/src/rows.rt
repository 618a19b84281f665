// The rows of the table: that of the kind, and those of the settings.
ghost use Rattle.std.specs.Prelude.{◌≡◌, ◌<◌, ◌≤◌, length};
ghost use Rattle.settings.specs.Settings.{set_code, get_code, byte_count, place, values_with, row_count, value_count, most_values};

use crate::{Codes, MOST_VALUES, ROW_COUNT, Values};
use std::marker::Model;

// A row by its number, which in a contract stands for it. Rows stand by rising code.
#[derive(Clone, Copy, Debug, PartialEq, Eq)]
pub struct Row {
    number: usize,
}

impl Model for Row {
    ghost use Rattle.std.specs.Prelude.{ℕ, ◌<◌};
    ghost use Rattle.settings.specs.Settings.{row_count};

    ghost Value = { ℕ };

    ghost view = { λ row. row.number };

    ghost invariant = { λ row. row.number < row_count };

    ghost inverse = { λ number. record { number = number } };
}

impl Row {
    pub const KIND: Row = Row { number: 0 };

    pub const POWER: Row = Row { number: 1 };

    pub const TILING: Row = Row { number: 2 };

    pub const VIDEO: Row = Row { number: 3 };

    pub const COLOUR_TEMPERATURE: Row = Row { number: 4 };

    pub const AUDIO: Row = Row { number: 5 };

    pub const FAN: Row = Row { number: 6 };

    pub const COLD_START: Row = Row { number: 7 };

    pub const APM: Row = Row { number: 8 };

    pub const POWER_SAVING: Row = Row { number: 9 };

    // All rows, each at the place of its number.
    pub const ALL: [Row; ROW_COUNT] = [
        Row::KIND,
        Row::POWER,
        Row::TILING,
        Row::VIDEO,
        Row::COLOUR_TEMPERATURE,
        Row::AUDIO,
        Row::FAN,
        Row::COLD_START,
        Row::APM,
        Row::POWER_SAVING,
    ];

    // The row with this number. A loop over numbers is taken apart when it is compiled, so that each row in it is known; one over
    // the list of all rows is not.
    pub fn numbered(number: usize) -> Row
        requires { number < row_count }
        ensures { result ≡ number }
    {
        Row { number }
    }

    // Its number, by which a list with a place for each row is read.
    pub fn index(self) -> usize
        ensures number { result ≡ self }
        ensures below { result < row_count }
    {
        self.number
    }

    fn codes(self) -> Codes
        ensures { (result.0 ≡ set_code self) × (result.1 ≡ get_code self) }
    {
        let codes = crate::numbers::the_table().codes;
        codes[self.number]
    }

    pub(crate) fn values(self) -> Values
        ensures table { (result.0 ≡ byte_count self) × (result.1 ≡ place self) }
        ensures below { self < row_count }
    {
        let values = crate::numbers::the_table().values;
        values[self.number]
    }

    // The set code, with which its field in a setup image begins.
    pub fn set_code(self) -> u8
        ensures { result ≡ set_code self }
    {
        self.codes().0
    }

    // The get code, with which its report begins.
    pub fn get_code(self) -> u8
        ensures { result ≡ get_code self }
    {
        self.codes().1
    }

    // How many value bytes it has.
    pub fn byte_count(self) -> usize
        ensures count { result ≡ byte_count self }
        ensures some { 0 < result }
        ensures few { result ≤ most_values }
    {
        usize::from(self.values().0)
    }

    // The place of its first value among a panel's.
    pub fn place(self) -> usize
        ensures { result ≡ place self }
    {
        usize::from(self.values().1)
    }

    // Its values stored at their place among a panel's. Most rows have one, for which a copy is long-winded; that of the longest
    // row is short where its length is known.
    pub fn store(self, vs: &[u8], values: &mut [u8])
        requires { (length vs.now ≡ byte_count self) × (length values.old ≡ value_count) }
        ensures { values.new ≡ values_with self vs.now values.old }
    {
        let at = self.place();
        if vs.len() == 1 {
            values[at] = vs[0];
            return;
        }
        if vs.len() == MOST_VALUES {
            lists::copy(vs, &mut values[at..at + MOST_VALUES]);
            return;
        }
        lists::copy(vs, &mut values[at..]);
    }
}
