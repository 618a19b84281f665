// A request as the programs' steps tell it.
#![tactic(auto)]

ghost use Rattle.std.specs.Prelude.{◌≡◌};
ghost use Rattle.request_steps.specs.Steps.{told_for, told_with_model};

use models::Model;
use packet::{GroupId, MonitorId};
use requests::Request;
use settings::{MOST_VALUES, Profile};
use tiling::Kind;

// ID, group, code and values, for a panel of this model. Of the values those are kept that a request has room for; a request with
// more is refused by its count.
#[tactic(auto, unfolding(crate::specs::Steps::told_for, crate::specs::Steps::request_of, lists::specs::Lists::laid_over))]
pub fn told_for(model: Model, step: &[u8]) -> Option<Request>
    ensures { result ≡ told_for model step.now }
{
    let [id, group, code, rest @ ..] = step else {
        return None;
    };
    let mut values = [0u8; MOST_VALUES];
    lists::copy(text::front(rest, MOST_VALUES), &mut values);
    Some(Request {
        model,
        id: MonitorId(*id),
        group: GroupId(*group),
        code: *code,
        values,
        count: rest.len(),
    })
}

// In front of them the model's number: the profile's, and twice the kind's.
#[tactic(auto, unfolding(crate::specs::Steps::told_with_model))]
pub fn told_with_model(step: &[u8]) -> Option<Request>
    ensures { result ≡ told_with_model step.now }
{
    let [number, rest @ ..] = step else {
        return None;
    };
    let kind = Kind::try_from(*number / 2).ok()?;
    let profile = Profile::try_from(*number % 2).ok()?;
    told_for(Model { profile, kind }, rest)
}
