// The keys that an object may have.
ghost use Rattle.std.specs.Prelude.{◌≡◌, map};
ghost use Rattle.std.specs.List.{list_any};
ghost use Rattle.std.specs.Str.{bytes_eq};
ghost use Rattle.serde_json.specs.View.{members_view};
ghost use Rattle.segment_shape.specs.KeyNames.{name_of};
ghost use Rattle.segment_shape.specs.Keys.{are_among, head_keys, slave_keys, rate_keys, loss_keys};

use crate::key::Key;
use serde_json::{Map, Value};

const HEAD_KEYS: [Key; 10] = [
    Key::Version,
    Key::Ppm,
    Key::FrameNs,
    Key::Speed,
    Key::LossRun,
    Key::EpochNs,
    Key::CycleNs,
    Key::Cycles,
    Key::Slaves,
    Key::Losses,
];

// The last where the period may change.
const SLAVE_KEYS: [Key; 13] = [
    Key::Id,
    Key::Clock,
    Key::TpNs,
    Key::TfNs,
    Key::CablePs,
    Key::Parent,
    Key::Port,
    Key::Start,
    Key::PhaseFs,
    Key::PeriodFs,
    Key::ShiftNs,
    Key::Sync1Ns,
    Key::Rates,
];

const RATE_KEYS: [Key; 2] = [Key::Tick, Key::PeriodFs];

const LOSS_KEYS: [Key; 3] = [Key::Phase, Key::Number, Key::After];

fn is_one_of(key: &str, keys: &[Key]) -> bool
    ensures { result ≡ list_any (bytes_eq key.now) (map name_of keys.now) }
{
    for known in keys {
        if key == known.name() {
            return true;
        }
    }
    false
}

#[tactic(auto, unfolding(crate::specs::Keys::are_among))]
fn are_among(members: &Map<String, Value>, keys: &[Key]) -> bool
    ensures { result ≡ are_among (map name_of keys.now) (members_view members.now.entries) }
{
    for (key, _value) in members {
        if !is_one_of(key.as_str(), keys) {
            return false;
        }
    }
    true
}

#[tactic(auto, unfolding(crate::specs::Keys::head_keys))]
pub(crate) fn are_head_keys(members: &Map<String, Value>) -> bool
    ensures { result ≡ are_among head_keys (members_view members.now.entries) }
{
    are_among(members, &HEAD_KEYS)
}

#[tactic(auto, unfolding(crate::specs::Keys::slave_keys))]
pub(crate) fn are_slave_keys(members: &Map<String, Value>, changes: bool) -> bool
    ensures { result ≡ are_among (slave_keys changes) (members_view members.now.entries) }
{
    let known = if changes { 13 } else { 12 };
    are_among(members, &SLAVE_KEYS[..known])
}

#[tactic(auto, unfolding(crate::specs::Keys::rate_keys))]
pub(crate) fn are_rate_keys(members: &Map<String, Value>) -> bool
    ensures { result ≡ are_among rate_keys (members_view members.now.entries) }
{
    are_among(members, &RATE_KEYS)
}

#[tactic(auto, unfolding(crate::specs::Keys::loss_keys))]
pub(crate) fn are_loss_keys(members: &Map<String, Value>) -> bool
    ensures { result ≡ are_among loss_keys (members_view members.now.entries) }
{
    are_among(members, &LOSS_KEYS)
}
