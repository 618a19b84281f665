// The messages of the line to a QX panel: its packets, and its answers.
#![tactic(auto, unfolding(crate::specs::Message::qx_packet, crate::specs::Message::qx_answer))]

ghost use Rattle.std.specs.Prelude.{◌≡◌, ◌+◌, ◌≤◌, [], ◌∷◌, length};
ghost use Rattle.lists.specs.Lists.{laid_at};
ghost use Rattle.qx.specs.Message.{message, qx_packet, qx_answer};

use packet::MonitorId;

// The headers of a packet and of an answer.
const PACKET_HEADER: u8 = 0xA6;

const ANSWER_HEADER: u8 = 0x21;

// The byte behind the length, and how many bytes the length counts besides the data: that one, and the checksum.
const CONTROL: u8 = 0x01;

const AROUND_DATA: u8 = 2;

// The sizes of a packet without a value and with one, and of an answer, and the place of its value.
pub(crate) const ASKING: usize = 9;

pub(crate) const SETTING: usize = 10;

pub(crate) const ANSWER: usize = 9;

pub(crate) const VALUE: usize = 7;

// Bytes laid over out from a place on.
pub(crate) fn put(bytes: &[u8], at: usize, out: &mut [u8])
    requires { at + length bytes.now ≤ length out.old }
    ensures { out.new ≡ laid_at at bytes.now out.old }
{
    lists::copy(bytes, &mut out[at..]);
}

// A message: its head, the length of what is behind that, the control byte, the data, and the XOR of all that stands before it.
fn message<const N: usize>(head: &[u8], body: &[u8]) -> [u8; N]
    requires size { length head.now + length body.now + 3 ≡ N }
    requires counted { length body.now ≤ 2 }
    ensures { result ≡ message head.now body.now }
{
    let mut m = [0u8; N];
    put(head, 0, &mut m);
    put(
        &[body.len() as u8 + AROUND_DATA, CONTROL],
        head.len(),
        &mut m,
    );
    put(body, head.len() + 2, &mut m);
    let sum = xor::xor_all(&m[..N - 1]);
    put(&[sum], N - 1, &mut m);
    m
}

// A packet that asks.
pub(crate) fn get_packet(id: MonitorId, code: u8) -> [u8; ASKING]
    ensures { result ≡ qx_packet id (code ∷ []) }
{
    message(&[PACKET_HEADER, id.0, 0, 0, 0], &[code])
}

// A packet that sets.
pub(crate) fn set_packet(id: MonitorId, code: u8, value: u8) -> [u8; SETTING]
    ensures { result ≡ qx_packet id (code ∷ value ∷ []) }
{
    message(&[PACKET_HEADER, id.0, 0, 0, 0], &[code, value])
}

// The answer of a panel with this value.
pub(crate) fn answer_of(id: MonitorId, code: u8, value: u8) -> [u8; ANSWER]
    ensures { result ≡ qx_answer id (code ∷ value ∷ []) }
{
    message(&[ANSWER_HEADER, id.0, 0, 0], &[code, value])
}
