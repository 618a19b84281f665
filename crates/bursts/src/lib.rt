// Bursts one behind the other, as the programs read them.
#![tactic(auto)]

ghost use Rattle.std.specs.Prelude.{◌≡◌, false, length};
ghost use Rattle.std.specs.Option.{option_map};
ghost use Rattle.bursts.specs.Bursts.{bursts_in};

// The number that a count byte stands for.
pub fn count_of(b: u8) -> usize
    ensures { result ≡ b }
{
    b as usize
}

// The bursts of a list that stops inside none: the list from the first that is left on, and how many are left.
#[derive(Clone, Copy)]
pub struct BurstList<'a> {
    left: &'a [u8],
    count: usize,
    ghost whole: { (bursts_in left.now).cut ≡ false },
    ghost counted: { count ≡ length (bursts_in left.now).whole },
}

impl<'a> BurstList<'a> {
    ghost use Rattle.bursts.specs.Left.{bursts_left, whole_bursts};

    // A list looked at whole, before any burst is taken; nothing where it stops inside a burst.
    pub fn of(list: &'a [u8]) -> Option<BurstList<'a>>
        ensures { option_map bursts_left result ≡ whole_bursts list.now }
    {
        let mut left = list;
        let mut count = 0;
        while let Some((size, behind)) = left.split_first() {
            left = behind.get(count_of(*size)..)?;
            count += 1;
        }
        Some(BurstList { left: list, count })
    }

    // How many are left.
    pub fn len(&self) -> usize
        ensures { result ≡ length (bursts_left self.now) }
    {
        self.count
    }
}

impl<'a> Iterator for BurstList<'a> {
    ghost use Rattle.std.specs.Iterator.{YieldsFirstRef, item_count};
    ghost use Rattle.bursts.specs.Left.{bursts_left};

    type Item = &'a [u8];

    ghost next_gives = { YieldsFirstRef bursts_left };

    ghost remaining = { item_count bursts_left };

    fn next(&mut self) -> Option<&'a [u8]> {
        let (size, behind) = self.left.split_first()?;
        let (burst, left) = behind.split_at(count_of(*size));
        self.left = left;
        self.count -= 1;
        Some(burst)
    }
}
