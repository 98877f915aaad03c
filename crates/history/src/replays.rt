// A whole run of calls over one sheet.
ghost use Rattle.std.specs.Prelude.{◌≡◌, min, vec_capacity};
ghost use Rattle.sheet.specs.Held.{held, places_of};
ghost use Rattle.history.specs.History.{both};
ghost use Rattle.history.specs.Law.{Replayed};

use crate::calls::Call;
use crate::logs::Log;
use crate::runs::perform;
use effect::Effect;
use loads::Record;
use norm::{Norm, SpecialNorm};
use sheet::Sheet;

// Opens a blank sheet over the memory, and makes the calls one after the other. Each is noted in the log, which begins anew;
// where there is no memory for one more turn, the calls that are left are not made.
pub fn replay<E: Effect, M: SpecialNorm>(
    norm: &M,
    memory: Vec<Record<E>>,
    places: usize,
    calls: &[Call<E>],
    log: &mut Log<E>,
) -> Sheet<E>
    ensures law { Replayed E.Effect.means (both (M.Norm.percentages norm.now) (M.SpecialNorm.special norm.now)) (places_of result) calls.now log.old log.new (held result) }
    ensures places { places_of result ≡ min (min places (vec_capacity memory)) 32 }
{
    let mut sheet = Sheet::open(memory, places);
    log.begin(sheet.records());
    for call in calls {
        let Ok(()) = log.make_room() else {
            return sheet;
        };
        let outcome = perform(norm, &mut sheet, *call);
        log.note(outcome, sheet.records());
    }
    sheet
}
