// What a packet's data asks, and what a panel does with it.
ghost use Rattle.std.specs.Prelude.{◌≡◌, ◌∷◌, ◌+◌, ◌<◌, length, drop};
ghost use Rattle.settings.specs.Settings.{get_code, byte_count, values_of, values_with, tiling_row};
ghost use Rattle.answers.specs.Reply.{report_from};
ghost use Rattle.answers.specs.Judged.{command, stored, off_already, held_then, takes};
ghost use Rattle.answers.specs.Turn.{allowed_by, is_stored};
ghost use Rattle.answers.specs.Private.Orders.{order_of, stands_then};

use crate::{Answer, MOST_REPORTED, Names, Order, PROFILE_COUNT, Reply, TILING_COUNT};
use codes::Code;
use panels::Panel;
use settings::{OFF, Profile, Row, VALUE_COUNT};

// What these data bytes ask.
pub fn order_of(d: &[u8]) -> Order
    ensures { result ≡ order_of (command d.now) }
{
    let n = d.len();
    if n == 0 {
        return Order::NotAvailable;
    }
    let Some(code) = codes::found_by(d[0]) else {
        return Order::NotAvailable;
    };
    match code {
        Code::Set(row) => Order::Store(row),
        Code::Get(row) => {
            if n == 1 {
                Order::Report(row)
            } else {
                Order::NotAvailable
            }
        }
    }
}

// For each profile, by its number, whether its ranges allow the values behind the set code.
pub fn allowed_by(row: Row, d: &[u8]) -> [bool; PROFILE_COUNT]
    requires { 0 < length d.now }
    ensures { result ≡ allowed_by row (drop 1 d.now) }
{
    let general = settings::in_ranges(Profile::General, row, &d[1..]);
    let phoenix = settings::in_ranges(Profile::Phoenix, row, &d[1..]);
    [general, phoenix]
}

// Whether they turn off a panel that is off.
fn off_already(p: Panel, row: usize, d: &[u8]) -> bool
    ensures { result ≡ off_already row (drop 1 d.now) p }
{
    if row != Row::POWER.index() {
        return false;
    }
    if d.len() != 2 {
        return false;
    }
    let values = p.values;
    d[1] == OFF && values[Row::POWER.place()] == OFF
}

// The tiling that a panel would then hold: byte 0 leaves it the wall that it has.
fn tiling_then(p: Panel, d: &[u8]) -> [u8; TILING_COUNT]
    requires { length d.now ≡ byte_count tiling_row + 1 }
    ensures { result ≡ held_then tiling_row (drop 1 d.now) p }
{
    let values = p.values;
    let wall = values[Row::TILING.place() + 3];
    let mut held = [d[1], d[2], d[3], d[4]];
    models::fill(Row::TILING.index(), wall, &mut held);
    held
}

// Whether the wall that a panel would then stand in is one of its kind's, and has the position.
fn stands(p: Panel, d: &[u8]) -> bool
    requires { length d.now ≡ byte_count tiling_row + 1 }
    ensures { result ≡ stands_then (drop 1 d.now) p }
{
    let held = tiling_then(p, d);
    let profile = p.profile;
    let values = p.values;
    let model = models::model_in(profile, &values);
    let kind = model.kind;
    tiling::in_wall(kind, held[2], held[3])
}

// Whether a panel takes them: its own profile and kind allow them, and they do not turn it off while it is off.
pub fn takes(p: Panel, row: usize, allowed: [bool; PROFILE_COUNT], d: &[u8]) -> bool
    requires { allowed ≡ allowed_by row (drop 1 d.now) }
    ensures { result ≡ takes row (drop 1 d.now) p }
{
    let profile = p.profile;
    let number = u8::from(profile) as usize;
    if !allowed[number] {
        return false;
    }
    if row == Row::TILING.index() {
        return stands(p, d);
    }
    !off_already(p, row, d)
}

// Whether a panel is addressed and takes them. It takes any row number, as what it says does.
pub fn is_stored(
    p: Panel,
    names: Names,
    row: usize,
    allowed: [bool; PROFILE_COUNT],
    d: &[u8],
) -> bool
    requires { allowed ≡ allowed_by row (drop 1 d.now) }
    ensures { result ≡ is_stored names row (drop 1 d.now) p }
{
    panels::reaches(names.id, names.group, p) && takes(p, row, allowed, d)
}

// A row's values stored among a panel's.
fn store(row: Row, vs: &[u8], values: &mut [u8; VALUE_COUNT])
    requires { length vs.now ≡ byte_count row }
    ensures { values.new ≡ values_with row vs.now values.old }
{
    row.store(vs, values);
}

// The panel with the values behind the set code stored in a row.
pub fn with_values(mut p: Panel, row: Row, d: &[u8]) -> Panel
    requires { length d.now ≡ byte_count row + 1 }
    ensures { result ≡ stored row (held_then row (drop 1 d.now) p) p }
{
    if row == Row::TILING {
        let held = tiling_then(p, d);
        store(row, &held, &mut p.values);
        return p;
    }
    store(row, &d[1..], &mut p.values);
    p
}

// A panel's report of a row: the get code, and then its values.
pub fn report_of(p: Panel, row: Row) -> Reply
    ensures { result ≡ report_from p.id (get_code row ∷ values_of row p.values) }
{
    let first = row.place();
    let count = row.byte_count();
    let values = p.values;
    let mut bytes = [0u8; MOST_REPORTED];
    bytes[0] = row.get_code();
    bytes[1..count + 1].copy_from_slice(&values[first..first + count]);
    Reply {
        answer: Answer::Report,
        id: p.id,
        bytes,
        count: count + 1,
    }
}
