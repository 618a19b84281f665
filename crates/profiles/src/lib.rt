// A Phoenix panel's video: the seven bytes on the line, and what a caller sees and sets.
#![tactic(auto)]

ghost use Rattle.std.specs.Prelude.{◌≡◌};
ghost use Rattle.profiles.specs.Video.{tint_of, tint_byte, video_in, bytes_of};

use settings::MOST_VALUES;

// A Phoenix panel's seven video values, of which the tint has a sign.
#[derive(Clone, Copy)]
pub struct Video {
    pub brightness: u8,
    pub colour: u8,
    pub contrast: u8,
    pub sharpness: u8,
    pub tint: i8,
    pub black: u8,
    pub gamma: u8,
}

// The tint that a byte holds as two's complement; !x is -1 - x.
pub fn tint_of(byte: u8) -> i8
    ensures { result ≡ tint_of byte }
{
    if byte < 128 {
        return byte as i8;
    }
    !(!byte as i8)
}

// The byte that holds a tint.
pub fn tint_byte(tint: i8) -> u8
    ensures { result ≡ tint_byte tint }
{
    if tint < 0 {
        return !(!tint as u8);
    }
    tint as u8
}

// The video that a row of seven bytes holds.
pub fn video_in(bytes: [u8; MOST_VALUES]) -> Video
    ensures { result ≡ video_in bytes }
{
    let tint = tint_of(bytes[4]);
    Video {
        brightness: bytes[0],
        colour: bytes[1],
        contrast: bytes[2],
        sharpness: bytes[3],
        tint,
        black: bytes[5],
        gamma: bytes[6],
    }
}

// The seven bytes that hold a video.
pub fn bytes_of(video: Video) -> [u8; MOST_VALUES]
    ensures { result ≡ bytes_of video }
{
    let tint = tint_byte(video.tint);
    [
        video.brightness,
        video.colour,
        video.contrast,
        video.sharpness,
        tint,
        video.black,
        video.gamma,
    ]
}
