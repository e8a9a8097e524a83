//! A change that was planned is made, without memory.
ghost use Rattle.std.specs.Prelude.{◌≡◌};
ghost use Rattle.service_effects.specs.Effects.{Makes};
ghost use Rattle.service_effects.specs.Fitting.{Fits};
ghost use Rattle.service_effects.specs.States.{recorded_in};

use crate::effect::{Change, Effect};
use crate::tables::Tables;

/// Makes a change. It takes no memory.
pub fn carry_out(tables: &mut Tables, change: Change)
    requires { Fits tables.old change.moment change.effect }
    ensures { Makes change.moment change.effect (recorded_in tables.old) (recorded_in tables.new) }
{
    let Change { moment, effect } = change;
    match effect {
        Effect::Nothing => {}
        Effect::Add(row) => {
            tables.world.add_prepared(row);
        }
        Effect::Update {
            place,
            deadline,
            tags,
        } => tables.world.update(place, deadline, tags, moment),
        Effect::End(place) => tables.world.retire(place, moment),
        Effect::Include(plan) => tables.world.include(plan, moment),
        Effect::Results(batch) => {
            tables.results.commit(batch);
            tables.world.note_change(moment);
        }
        Effect::Exonerations(batch) => {
            tables.exonerations.commit(batch);
            tables.world.note_change(moment);
        }
        Effect::Artifacts(batch) => {
            tables.artifacts.commit(batch);
            tables.world.note_change(moment);
        }
    }
}
