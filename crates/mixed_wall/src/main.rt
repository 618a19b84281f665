// An example on a 2.01 line, a wall of both profiles and both kinds: panel 1 is general and of the 5 by 5 kind, panel 2 Phoenix and of the 15 by
// 10 kind, both in group 9. Each packet is printed with the answer behind it, and at the end panel 2's tint and its place in
// the wall as a caller sees them.
#![tactic(auto)]

ghost use Rattle.std.specs.Prelude.{◌≡◌, ◌<◌, IfOk};
ghost use Rattle.panels.specs.Wall.{table_of, panels_of};
ghost use Rattle.panels.specs.WellFormed.{WellFormed};
ghost use Rattle.packet.specs.declared.Edition.{Edition};
ghost use Rattle.answers.specs.Played.{played};

use models::Model;
use packet::{Edition, GroupId, LONGEST, MonitorId};
use panels::{Panel, Table};
use profiles::Video;
use requests::Request;
use sample::{Answer, Bytes};
use settings::{Profile, Row};
use std::io;
use tiling::Kind;

// Plays a packet, and prints it and its answer.
#[tactic(auto, using(answers::proofs::Formed::answered_formed))]
fn send(rt: &impl Print, t: Table, burst: &[u8]) -> io::Result<Table>
    requires { WellFormed t }
    ensures { IfOk result
        (λ after. (after ≡ table_of (played Edition.Sicp201 (panels_of t) burst.now).wall) × WellFormed after) }
{
    let played = answers::play(Edition::Sicp201, t, burst);
    let answer = Answer(Edition::Sicp201, played.reply);
    println!(rt; "{} {answer}", Bytes(burst))?;
    Ok(played.table)
}

// Plays a request's packet.
fn send_request(rt: &impl Print, t: Table, request: Request) -> io::Result<Table>
    requires { WellFormed t }
    ensures { IfOk result WellFormed }
{
    let mut out = [0u8; LONGEST];
    let written = requests::write_request(Edition::Sicp201, request, &mut out);
    let Ok(n) = written else {
        return Ok(t);
    };
    send(rt, t, text::front(&out, n))
}

// Panel 2 gets a video with this tint.
fn set_tint(rt: &impl Print, t: Table, tint: i8) -> io::Result<Table>
    requires { WellFormed t }
    ensures { IfOk result WellFormed }
{
    let video = Video {
        brightness: 50,
        colour: 50,
        contrast: 50,
        sharpness: 10,
        tint,
        black: 50,
        gamma: 3,
    };
    send_request(
        rt,
        t,
        requests::video_request(MonitorId(2), GroupId(0), video),
    )
}

// Panel 2 gets its place in a wall of this height and width.
fn set_place(rt: &impl Print, t: Table, position: u8, height: u8, width: u8) -> io::Result<Table>
    requires { WellFormed t }
    ensures { IfOk result WellFormed }
{
    let Some(byte) = tiling::coded_as(Kind::FifteenByTen, height, width) else {
        return Ok(t);
    };
    let model = Model {
        profile: Profile::Phoenix,
        kind: Kind::FifteenByTen,
    };
    let request = Request {
        model,
        id: MonitorId(2),
        group: GroupId(0),
        code: Row::TILING.set_code(),
        values: [1, 0, position, byte, 0, 0, 0],
        count: Row::TILING.byte_count(),
    };
    send_request(rt, t, request)
}

// Panel 2's tint.
fn show_tint(rt: &impl Print, p: Panel) -> io::Result<()> {
    if let Some(video) = panels::video_of(p) {
        println!(rt; "panel 2: tint {}", video.tint)?;
    }
    Ok(())
}

// The column and the row of a position in a wall of this width.
fn print_place(rt: &impl Print, position: u8, width: u8) -> io::Result<()> {
    if position == 0 || width == 0 {
        return Ok(());
    }
    let before = u64::from(position) - 1;
    let w = u64::from(width);
    println!(rt;
        "panel 2: column {}, row {}",
        before % w + 1,
        before / w + 1
    )
}

// Panel 2's place in the wall.
#[tactic(auto, using(crate::proofs::Places::third))]
fn show_place(rt: &impl Print, p: Panel) -> io::Result<()> {
    let values = p.values;
    let first = Row::TILING.place();
    if let Some(wall) = tiling::size_in(Kind::FifteenByTen, values[first + 3]) {
        print_place(rt, values[first + 2], wall.width)?;
    }
    Ok(())
}

// Panel 2 as a caller sees it.
fn show(rt: &impl Print, t: Table) -> io::Result<()>
    requires { WellFormed t }
{
    let Some(k) = panels::place_of(t, MonitorId(2)) else {
        return Ok(());
    };
    let p = panels::panel_at(t, k);
    show_tint(rt, p)?;
    show_place(rt, p)
}

fn run(rt: &impl Print) -> io::Result<()> {
    let mut wall = panels::empty_table();
    table_calls::add(&mut wall, MonitorId(1), GroupId(9), 0, 0).unwrap();
    table_calls::add(&mut wall, MonitorId(2), GroupId(9), 1, 1).unwrap();
    // group 9: video with sharpness 60; then both panels: video?
    wall = send(
        rt,
        wall,
        &[0x0C, 0x00, 0x09, 0x32, 50, 50, 50, 60, 50, 50, 3, 0x3A],
    )?;
    wall = send(rt, wall, &[0x05, 0x01, 0x00, 0x33, 0x37])?;
    wall = send(rt, wall, &[0x05, 0x02, 0x00, 0x33, 0x34])?;
    wall = set_tint(rt, wall, -20)?;
    wall = send(rt, wall, &[0x05, 0x02, 0x00, 0x33, 0x34])?;
    // group 9: the tiling of 002, position 2 and byte 0x12, which is 3 wide and 4 high for panel 1, 3 wide and 2 high for panel 2
    wall = send(
        rt,
        wall,
        &[0x09, 0x00, 0x09, 0x22, 0x01, 0x00, 0x02, 0x12, 0x33],
    )?;
    // position 7: of 12 for panel 1, and of 6 for panel 2
    wall = send(
        rt,
        wall,
        &[0x09, 0x01, 0x00, 0x22, 0x01, 0x00, 0x07, 0x00, 0x2C],
    )?;
    wall = send(
        rt,
        wall,
        &[0x09, 0x02, 0x00, 0x22, 0x01, 0x00, 0x07, 0x00, 0x2F],
    )?;
    wall = set_place(rt, wall, 20, 2, 15)?;
    wall = send(rt, wall, &[0x05, 0x02, 0x00, 0x23, 0x24])?;
    show(rt, wall)
}

fn main(rt: HostRuntime) -> io::Result<()> {
    run(&rt)
}
