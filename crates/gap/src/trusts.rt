// The trust of a picked place.
ghost use Rattle.std.specs.Prelude.{◌≡◌, ◌<◌, ◌≤◌, length, get_or};
ghost use Rattle.arrangement.specs.Arranged.{Places};
ghost use Rattle.patterns.specs.Best.{entries};

use basics::MessageIndex;
use engine::places::{chosen_place, index_of};

// The trust of the picked place of an index.
pub fn trust_of(trusts: &[u8], places: &[u16], index: MessageIndex) -> u32
    requires { Places (length trusts.now) places.now × (index.0 < length places.now) }
    ensures { (result ≡ get_or (entries trusts.now places.now) index.0 0) × (result ≤ 255) }
{
    let place = chosen_place(places, index);
    u32::from(trusts[index_of(place)])
}
