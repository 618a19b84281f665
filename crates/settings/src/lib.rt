// The nine settings and the kind as one fixed table of numbers, which box, host and image all read.
#![tactic(auto)]

mod by_number;
mod numbers;
mod ranges;
mod rows;

ghost use Rattle.std.specs.Prelude.{◌≡◌};
ghost use Rattle.settings.specs.Settings.{fresh_values};

pub use by_number::UnknownProfile;
pub use ranges::in_ranges;
pub use rows::Row;

// How many rows there are: the kind's and those of the settings.
pub const ROW_COUNT: usize = 10;

// How many value bytes they have in all, which are a panel's.
pub const VALUE_COUNT: usize = 20;

// How many one has at most.
pub const MOST_VALUES: usize = 7;

// The values of power.
pub const OFF: u8 = 1;

const ON: u8 = 2;

// The code of the kind's field; no command has it, and none gets the kind.
pub const KIND_CODE: u8 = 0x01;

const NO_CODE: u8 = 0x00;

// How many ranges there are beyond the first of each value byte.
const MORE_COUNT: usize = 3;

// What a panel's ranges and fresh values go by: of any year, or of 2015.
#[derive(Clone, Copy, Debug, PartialEq, Eq)]
pub enum Profile {
    General,
    Phoenix,
}

// A setting's set code and its get code.
#[derive(Clone, Copy)]
struct Codes(u8, u8);

// A setting's value bytes: how many there are, and the place of the first among all value bytes.
#[derive(Clone, Copy)]
struct Values(u8, u8);

// The values from the lowest to the highest that a range allows.
#[derive(Clone, Copy)]
struct Span(u8, u8);

// One more range of a value byte that has several: the byte's place, the lowest value and the highest.
#[derive(Clone, Copy)]
struct More(u8, u8, u8);

// What is other for a Phoenix panel, its video: for each value its first range, the tint's range below 0, and the fresh values.
#[derive(Clone, Copy)]
struct Video {
    ranges: [Span; MOST_VALUES],
    below: More,
    fresh: [u8; MOST_VALUES],
}

// For each setting its codes and its value bytes; for each value byte its first range, more where it has several, and its
// fresh value; and what is other for a Phoenix panel.
#[derive(Clone, Copy)]
struct Table {
    codes: [Codes; ROW_COUNT],
    values: [Values; ROW_COUNT],
    ranges: [Span; VALUE_COUNT],
    more: [More; MORE_COUNT],
    fresh: [u8; VALUE_COUNT],
    phoenix: Video,
}

// A panel's values before anything is set.
pub fn fresh(profile: Profile) -> [u8; VALUE_COUNT]
    ensures { result ≡ fresh_values profile }
{
    let mut values = numbers::the_table().fresh;
    if let Profile::Phoenix = profile {
        let video = numbers::the_table().phoenix.fresh;
        Row::VIDEO.store(&video, &mut values);
    }
    values
}
