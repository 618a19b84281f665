// The profiles by number.
ghost use Rattle.std.specs.Prelude.{◌≡◌, ok_or};
ghost use Rattle.settings.specs.Profiles.{profile_number, profile_with};

use crate::Profile;

// A number that no profile has.
#[derive(Clone, Copy, Debug, PartialEq, Eq)]
pub struct UnknownProfile;

// A profile's number.
impl From<Profile> for u8 {
    ghost from_gives = { λ profile n. n ≡ profile_number profile };

    fn from(profile: Profile) -> u8 {
        match profile {
            Profile::General => 0,
            Profile::Phoenix => 1,
        }
    }
}

// The profile that has a number, if one does.
impl TryFrom<u8> for Profile {
    type Error = UnknownProfile;

    ghost try_from_gives = { λ n r. r ≡ ok_or (profile_with n) (record {}) };

    #[tactic(auto, unfolding(crate::specs::Profiles::profile_with))]
    fn try_from(number: u8) -> Result<Profile, UnknownProfile> {
        match number {
            0 => Ok(Profile::General),
            1 => Ok(Profile::Phoenix),
            _ => Err(UnknownProfile),
        }
    }
}
