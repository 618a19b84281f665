// The editions by number, and all in which they differ.
ghost use Rattle.std.specs.Prelude.{◌≡◌, None, ok_or};
ghost use Rattle.packet.specs.Edition.{edition_number, edition_with, open_refusal, group_on, carries, head_size};

use crate::{Edition, GroupId};
use refusals::UNKNOWN_EDITION;

// The numbers of the editions: their names without the point.
const SICP_185: u32 = 185;

pub const SICP_201: u32 = 201;

// The bytes before the data of a 2.01 packet: size, monitor ID, group.
pub const HEAD_201: usize = 3;

// A number that no edition has.
#[derive(Clone, Copy, Debug, PartialEq, Eq)]
pub struct UnknownEdition;

// An edition's number.
impl From<Edition> for u32 {
    ghost from_gives = { λ edition n. n ≡ edition_number edition };

    fn from(edition: Edition) -> u32 {
        match edition {
            Edition::Sicp185 => SICP_185,
            Edition::Sicp201 => SICP_201,
        }
    }
}

// The edition that has a number, if one does.
impl TryFrom<u32> for Edition {
    type Error = UnknownEdition;

    ghost try_from_gives = { λ n r. r ≡ ok_or (edition_with n) (record {}) };

    #[tactic(auto, unfolding(crate::specs::Edition::edition_with))]
    fn try_from(number: u32) -> Result<Edition, UnknownEdition> {
        match number {
            SICP_185 => Ok(Edition::Sicp185),
            SICP_201 => Ok(Edition::Sicp201),
            _ => Err(UnknownEdition),
        }
    }
}

// What opening a line or a host with a number that no edition has is refused by.
impl From<UnknownEdition> for u8 {
    ghost from_gives = { λ _ n. n ≡ open_refusal None };

    fn from(_: UnknownEdition) -> u8 {
        UNKNOWN_EDITION
    }
}

impl Edition {
    // The group of a packet whose third byte this is.
    pub(crate) fn group_on(self, third: u8) -> u8
        ensures { result ≡ group_on self third }
    {
        match self {
            Edition::Sicp185 => 0,
            Edition::Sicp201 => third,
        }
    }

    // Whether a packet can say this group.
    pub fn carries(self, group: GroupId) -> bool
        ensures { result ≡ carries self group }
    {
        self.group_on(group.0) == group.0
    }

    // The bytes before the data.
    pub(crate) fn head_size(self) -> usize
        ensures { result ≡ head_size self }
    {
        match self {
            Edition::Sicp185 => 2,
            Edition::Sicp201 => HEAD_201,
        }
    }
}
