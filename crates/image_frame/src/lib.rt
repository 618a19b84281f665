// A setup image as a whole: why one is refused, 11 to 15, and where its records begin and end.
#![tactic(auto)]

ghost use Rattle.std.specs.Prelude.{◌≡◌, ◌+◌, ◌*◌, ◌≤◌, ◌<◌, List, ℕ, length};
ghost use Rattle.panels.specs.Wall.{most_panels};
ghost use Rattle.image_frame.specs.Frame.{form_of, count_of, edge, record_in, starts_fit, frame_of, IsFrame};

use image_forms::Form;
use panels::MOST_PANELS;
use refusals::Refusal;
use std::marker::Model;

// An image that is sound as a whole.
#[derive(Drop)]
pub struct Frame<'a> {
    image: &'a [u8],
    count: usize,
}

// It is seen as the image's bytes; the count stands beside them, so that it is read once.
impl<'a> Model for Frame<'a> {
    ghost Value = { List ℕ };

    ghost view = { λ f. f.image.now };

    ghost invariant = { λ f. (f.count ≡ count_of f.image.now) × IsFrame f.image.now };
}

// The form, by the last byte of an image that has one.
pub fn form_of(image: &[u8]) -> Form
    requires { 2 ≤ length image.now }
    ensures { result ≡ form_of image.now }
{
    Form::try_from(image[image.len() - 1]).unwrap_or(Form::Two)
}

// The trailer's count, of an image of at least two bytes.
pub fn count_of(image: &[u8]) -> usize
    requires { 2 ≤ length image.now }
    ensures { (result ≡ count_of image.now) × (result < 256) }
{
    usize::from(image[image.len() - 2])
}

// Where record k of n begins; behind the last record, the first byte of the starts.
pub fn edge_at(image: &[u8], n: usize, k: usize) -> usize
    requires { (n ≡ count_of image.now) × (2 * n + 2 ≤ length image.now) }
    ensures { result ≡ edge image.now k }
{
    let first = image.len() - 2 - 2 * n;
    if n <= k {
        return first;
    }
    let at = first + 2 * k;
    256 * image[at] as usize + image[at + 1] as usize
}

// Whether the starts rise from 0. Each is compared with the one before, which `all` would read a second time.
fn starts_fit(image: &[u8], n: usize) -> bool
    requires { (n ≡ count_of image.now) × (2 * n + 2 ≤ length image.now) }
    ensures { result ≡ starts_fit image.now }
{
    let mut here = edge_at(image, n, 0);
    if here != 0 {
        return false;
    }
    for k in 0..n {
        let next = edge_at(image, n, k + 1);
        if next <= here {
            return false;
        }
        here = next;
    }
    true
}

impl<'a> Frame<'a> {
    // The image, or 11 to 15, the first that holds.
    pub fn of(image: &'a [u8]) -> Result<Frame<'a>, Refusal>
        ensures { result ≡ frame_of image.now }
    {
        let len = image.len();
        if len < 2 {
            return Err(Refusal::TooShort);
        }
        let Ok(_) = Form::try_from(image[len - 1]) else {
            return Err(Refusal::OtherForm);
        };
        let count = count_of(image);
        if MOST_PANELS < count {
            return Err(Refusal::TooMany);
        }
        if len < 2 * count + 2 {
            return Err(Refusal::NoStarts);
        }
        if !starts_fit(image, count) {
            return Err(Refusal::Starts);
        }
        Ok(Frame { image, count })
    }

    // The form that the last byte says.
    pub fn form(&self) -> Form
        ensures { result ≡ form_of self.now }
    {
        form_of(self.image)
    }

    // How many records there are.
    pub fn count(&self) -> usize
        ensures value { result ≡ count_of self.now }
        ensures few { result ≤ most_panels }
    {
        self.count
    }

    // Record k, the first being 0.
    pub fn record(&self, k: usize) -> &'a [u8]
        requires { k < count_of self.now }
        ensures { result.now ≡ record_in self.now k }
    {
        let start = edge_at(self.image, self.count, k);
        let end = edge_at(self.image, self.count, k + 1);
        &self.image[start..end]
    }
}
