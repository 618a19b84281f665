// The numbers of the table.
ghost use Rattle.std.specs.Prelude.{◌≡◌};
ghost use Rattle.settings.specs.Private.Numbers.{paper_table};

use crate::{Codes, KIND_CODE, More, NO_CODE, OFF, ON, Span, Table, Values, Video};

const TABLE: Table = Table {
    codes: [
        Codes(KIND_CODE, NO_CODE), // kind
        Codes(0x18, 0x19), // power
        Codes(0x22, 0x23), // tiling
        Codes(0x32, 0x33), // video
        Codes(0x34, 0x35), // colour temperature
        Codes(0x42, 0x43), // treble, bass
        Codes(0x61, 0x62), // fan
        Codes(0xA3, 0xA4), // cold start
        Codes(0xD0, 0xD1), // APM
        Codes(0xDD, 0xDE), // power saving
    ],
    values: [
        Values(1, 0), // kind
        Values(1, 1), // power
        Values(4, 2), // tiling
        Values(7, 6), // video
        Values(1, 13), // colour temperature
        Values(2, 14), // treble, bass
        Values(1, 16), // fan
        Values(1, 17), // cold start
        Values(1, 18), // APM
        Values(1, 19), // power saving
    ],
    ranges: [
        Span(0, 1), // kind
        Span(OFF, ON), // power
        Span(0, 1), // tiling: enable, frame compensation, position, wall
        Span(0, 1),
        Span(0, 255),
        Span(0, 255),
        Span(0, 100), // video: six, and gamma
        Span(0, 100),
        Span(0, 100),
        Span(0, 100),
        Span(0, 100),
        Span(0, 100),
        Span(1, 5),
        Span(0, 1), // colour temperature
        Span(0, 100), // treble, bass
        Span(0, 100),
        Span(0, 4), // fan
        Span(0, 2), // cold start
        Span(0, 3), // APM
        Span(0, 3), // power saving
    ],
    more: [
        More(13, 3, 6), // colour temperature
        More(13, 9, 10),
        More(13, 13, 13),
    ],
    fresh: [
        0, // kind
        ON, // power
        0, // tiling: enable, frame compensation, position, wall
        0, 1, 1, 50, // video: six, and gamma
        50, 50, 50, 50, 50, 3, 1, // colour temperature
        50, // treble, bass
        50, 1, // fan
        2, // cold start
        0, // APM
        0, // power saving
    ],
    phoenix: Video {
        ranges: [
            Span(0, 100), // brightness
            Span(0, 100), // colour
            Span(0, 100), // contrast
            Span(0, 10), // sharpness
            Span(0, 50), // tint
            Span(0, 100), // black level
            Span(1, 5), // gamma
        ],
        below: More(4, 206, 255), // tint: -50 to -1
        fresh: [50, 50, 50, 5, 0, 50, 3],
    },
};

// The const table is the paper's.
pub fn the_table() -> Table
    ensures { result ≡ paper_table }
{
    TABLE
}
