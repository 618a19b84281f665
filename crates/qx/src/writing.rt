// The packets for a QX panel, written out.
ghost use Rattle.std.specs.Prelude.{◌≡◌, ◌≤◌, length, Some};
ghost use mathlib.Core.List.{[], map, flatten};
ghost use Rattle.lists.specs.Lists.{laid_over};
ghost use Rattle.packet.specs.declared.MonitorId.{MonitorId};
ghost use Rattle.packet.specs.Packet.{longest};
ghost use Rattle.qx.specs.declared.Asked.{Asked};
ghost use Rattle.qx.specs.Message.{qx_packet};
ghost use Rattle.qx.specs.Asked.{data_for};
ghost use Rattle.qx.specs.Translation.{packets_told};

use crate::message::{ASKING, SETTING, put};
use crate::{Asked, MOST_PACKETS, Packets, asking, message};
use packet::MonitorId;

// The three packets of a picture.
fn put_picture(id: MonitorId, brightness: u8, contrast: u8, black_level: u8, out: &mut [u8])
    requires { longest ≤ length out.old }
    ensures { out.new ≡ laid_over (flatten (map (qx_packet id) (data_for (Some (Asked.SetPicture brightness contrast black_level))))) out.old }
{
    put(
        &message::set_packet(id, asking::BRIGHTNESS_SET, brightness),
        0,
        out,
    );
    put(
        &message::set_packet(id, asking::CONTRAST_SET, contrast),
        SETTING,
        out,
    );
    put(
        &message::set_packet(id, asking::BLACK_LEVEL_SET, black_level),
        2 * SETTING,
        out,
    );
}

// The packets of what is asked, one behind the other.
pub(crate) fn put_all(id: MonitorId, asked: Asked, out: &mut [u8])
    requires { longest ≤ length out.old }
    ensures { out.new ≡ laid_over (flatten (map (qx_packet id) (data_for (Some asked)))) out.old }
{
    match asked {
        Asked::GetPower => put(&message::get_packet(id, asking::POWER_GET), 0, out),
        Asked::SetPower(v) => put(&message::set_packet(id, asking::POWER_SET, v), 0, out),
        Asked::SetPicture(b, c, l) => put_picture(id, b, c, l, out),
    }
}

// How many they are, and their sizes.
#[tactic(auto, unfolding(crate::specs::Translation::packets_told, crate::specs::Asked::data_for, crate::specs::Message::qx_packet, crate::specs::Message::message, lists::specs::Lists::laid_over))]
pub(crate) fn told(asked: Asked) -> Packets
    ensures { (id : MonitorId) → result ≡ packets_told (map (qx_packet id) (data_for (Some asked))) }
{
    match asked {
        Asked::GetPower => Packets {
            count: 1,
            sizes: [ASKING, 0, 0],
        },
        Asked::SetPower(_) => Packets {
            count: 1,
            sizes: [SETTING, 0, 0],
        },
        Asked::SetPicture(_, _, _) => Packets {
            count: 3,
            sizes: [SETTING; MOST_PACKETS],
        },
    }
}
