// Where a panel sits in a wall: a wall's height and width in one byte, by the kind of panel.
#![tactic(auto)]

ghost use Rattle.std.specs.Prelude.{◌≡◌, ok_or};
ghost use Rattle.tiling.specs.Walls.{up_to};
ghost use Rattle.tiling.specs.Kinds.{kind_number, kind_with, widest, highest, largest, coded_as, size_in, in_wall};

// The walls that a panel can stand in: up to 5 wide and 5 high, or up to 15 wide and 10 high.
#[derive(Clone, Copy, Debug, PartialEq, Eq)]
pub enum Kind {
    FiveByFive,
    FifteenByTen,
}

// A number that no kind has.
#[derive(Clone, Copy, Debug, PartialEq, Eq)]
pub struct UnknownKind;

// A wall's height and width, in panels.
#[derive(Clone, Copy, Debug, PartialEq, Eq)]
pub struct WallSize {
    pub height: u8,
    pub width: u8,
}

// A kind's number.
impl From<Kind> for u8 {
    ghost from_gives = { λ kind n. n ≡ kind_number kind };

    fn from(kind: Kind) -> u8 {
        match kind {
            Kind::FiveByFive => 0,
            Kind::FifteenByTen => 1,
        }
    }
}

// The kind that has a number, if one does.
impl TryFrom<u8> for Kind {
    type Error = UnknownKind;

    ghost try_from_gives = { λ n r. r ≡ ok_or (kind_with n) (record {}) };

    #[tactic(auto, unfolding(crate::specs::Kinds::kind_with))]
    fn try_from(number: u8) -> Result<Kind, UnknownKind> {
        match number {
            0 => Ok(Kind::FiveByFive),
            1 => Ok(Kind::FifteenByTen),
            _ => Err(UnknownKind),
        }
    }
}

// The width H of a kind's widest wall.
fn widest(kind: Kind) -> u8
    ensures { result ≡ widest kind }
{
    match kind {
        Kind::FiveByFive => 5,
        Kind::FifteenByTen => 15,
    }
}

// The height V of a kind's highest wall.
fn highest(kind: Kind) -> u8
    ensures { result ≡ highest kind }
{
    match kind {
        Kind::FiveByFive => 5,
        Kind::FifteenByTen => 10,
    }
}

// The byte of a kind's largest wall, which is also the number of its panels.
pub fn largest(kind: Kind) -> u8
    ensures { result ≡ largest kind }
{
    match kind {
        Kind::FiveByFive => 25,
        Kind::FifteenByTen => 150,
    }
}

// Whether a number is one of those from 1 up to a last one.
#[tactic(auto, unfolding(crate::specs::Walls::up_to))]
fn up_to(last: u8, n: u8) -> bool
    ensures { result ≡ up_to last n }
{
    1 <= n && n <= last
}

// The byte of a wall of this height and width, if the kind has such a wall.
#[tactic(auto, using(crate::proofs::Walls::in_bounds, crate::proofs::Sizes::byte_few), unfolding(crate::specs::Kinds::coded_as))]
pub fn coded_as(kind: Kind, height: u8, width: u8) -> Option<u8>
    ensures { result ≡ coded_as kind height width }
{
    let w = widest(kind);
    if !up_to(highest(kind), height) {
        return None;
    }
    if !up_to(w, width) {
        return None;
    }
    Some((height - 1) * w + width)
}

// The height and the width that a byte says, if it is a wall's.
#[tactic(auto, using(crate::proofs::Walls::in_bounds), unfolding(crate::specs::Kinds::size_in))]
pub fn size_in(kind: Kind, byte: u8) -> Option<WallSize>
    ensures { result ≡ size_in kind byte }
{
    let w = widest(kind);
    if !up_to(largest(kind), byte) {
        return None;
    }
    let before = byte - 1;
    Some(WallSize {
        height: before / w + 1,
        width: before % w + 1,
    })
}

// Whether a position is one of the wall that a byte says.
#[tactic(auto, using(crate::proofs::Sizes::panels_few), unfolding(crate::specs::Kinds::size_in, crate::specs::Kinds::in_wall))]
pub fn in_wall(kind: Kind, position: u8, byte: u8) -> bool
    ensures { result ≡ in_wall kind position byte }
{
    let Some(wall) = size_in(kind, byte) else {
        return false;
    };
    up_to(wall.height * wall.width, position)
}
