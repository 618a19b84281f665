// Which values are allowed.
ghost use Rattle.std.specs.Prelude.{◌≡◌, ◌<◌, drop, ◌||◌};
ghost use Rattle.std.specs.List.{list_any};
ghost use Rattle.settings.specs.declared.Profile.{Profile};
ghost use Rattle.settings.specs.Settings.{within, in_ranges, value_count, video_row};
ghost use Rattle.settings.specs.Private.Numbers.{in_range, range_of, ranges_of, first_range, is_more};

use crate::{MOST_VALUES, More, Profile, Row, Span};

fn in_range(range: Span, v: u8) -> bool
    ensures { result ≡ in_range (range_of range) v }
{
    range.0 <= v && v <= range.1
}

fn is_more(more: More, p: usize, v: u8) -> bool
    ensures { result ≡ is_more p v more }
{
    if more.0 as usize != p {
        return false;
    }
    in_range(Span(more.1, more.2), v)
}

// Whether v is in one of these ranges, which is of place p.
fn is_any(more: &[More], p: usize, v: u8) -> bool
    ensures { result ≡ list_any (is_more p v) more.now }
{
    more.iter().any(|range| is_more(*range, p, v))
}

// Whether v is in a range of place p behind the first.
fn in_more(p: usize, v: u8) -> bool
    requires { p < value_count }
    ensures { result ≡ within (drop 1 (ranges_of p)) v }
{
    is_any(&crate::numbers::the_table().more, p, v)
}

// Whether v may stand at place p, whose first range is given.
fn allowed_at(p: usize, range: Span, v: u8) -> bool
    requires { (p < value_count) × (range_of range ≡ first_range p) }
    ensures { result ≡ within (ranges_of p) v }
{
    if in_range(range, v) {
        return true;
    }
    in_more(p, v)
}

// Whether these bytes may be set in a row of a general panel: as many as it has, and each of them allowed. The first is tried
// by itself: most rows have no other.
fn general_allowed(row: Row, values: &[u8]) -> bool
    ensures { result ≡ in_ranges Profile.General row values.now }
{
    let at = row.values();
    let first = at.1 as usize;
    if values.len() != at.0 as usize {
        return false;
    }
    let ranges = crate::numbers::the_table().ranges;
    if !allowed_at(first, ranges[first], values[0]) {
        return false;
    }
    for k in 1..values.len() {
        let p = first + k;
        if !allowed_at(p, ranges[p], values[k]) {
            return false;
        }
    }
    true
}

// Whether v may stand at place k of a Phoenix panel's video; its first range is given, and the one below 0 of the tint.
fn video_allowed_at(k: usize, range: Span, below: More, v: u8) -> bool
    ensures { result ≡ (in_range (range_of range) v || is_more k v below) }
{
    if in_range(range, v) {
        return true;
    }
    is_more(below, k, v)
}

// Whether these bytes may be a Phoenix panel's video.
fn video_allowed(values: &[u8]) -> bool
    ensures { result ≡ in_ranges Profile.Phoenix video_row values.now }
{
    if values.len() != MOST_VALUES {
        return false;
    }
    let ranges = crate::numbers::the_table().phoenix.ranges;
    let below = crate::numbers::the_table().phoenix.below;
    for (k, v) in values.iter().enumerate() {
        if !video_allowed_at(k, ranges[k], below, *v) {
            return false;
        }
    }
    true
}

// Whether these bytes are in a row's ranges, for this profile. All but the video of a Phoenix panel is as general.
pub fn in_ranges(profile: Profile, row: Row, values: &[u8]) -> bool
    ensures { result ≡ in_ranges profile row values.now }
{
    if let Profile::Phoenix = profile {
        if row == Row::VIDEO {
            return video_allowed(values);
        }
    }
    general_allowed(row, values)
}
