//! Room for the weights of a gap, by longer weights.
ghost use Rattle.std.specs.Prelude.{◌≡◌, ◌<◌, length};
ghost use Rattle.icu_rule_weights.specs.inner.LeadUses.{KeepUses};

use crate::lead_use::LeadUse;
use crate::level_gap::LevelGap;

/// How many weights with a lead byte a gap has room for, as the lead byte is used.
fn room_of(used: LeadUse, lead: u32, gap: LevelGap, greatest: u8) -> u32
    requires { lead < 256 }
{
    if used == LeadUse::Long {
        let from = gap.low.saturating_add(1).max(lead * 256 + 2);
        let to = gap.high.min(lead * 256 + u32::from(greatest) + 1);
        return to.saturating_sub(from);
    }
    u32::from(gap.low < lead * 256 && lead * 256 < gap.high)
}

/// How many weights a gap has room for, as lead bytes are used.
fn room(uses: &[LeadUse], gap: LevelGap, greatest: u8) -> usize
    requires { length uses.now ≡ 256 }
{
    let mut room: usize = 0;
    for lead in 0..256u32 {
        room = room.saturating_add(room_of(uses[lead as usize], lead, gap, greatest) as usize);
    }
    room
}

/// Makes the highest free lead bytes of a gap long, until it has room for its weights, or none is left.
pub(crate) fn make_room(uses: &mut [LeadUse], gap: LevelGap, greatest: u8)
    requires { length uses.old ≡ 256 }
    ensures { KeepUses uses.old uses.new }
{
    let mut room = room(uses, gap, greatest);
    for lead in (gap.low / 256 + 1..(gap.high / 256).min(256)).rev() {
        if gap.count <= room {
            return;
        }
        if uses[lead as usize] == LeadUse::Free {
            uses[lead as usize] = LeadUse::Long;
            room = room.saturating_add(usize::from(greatest.saturating_sub(2)));
        }
    }
}
