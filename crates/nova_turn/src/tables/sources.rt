ghost use Rattle.std.specs.Prelude.{◌≡◌, ◌<◌, ◌-◌, ◌≤◌, ◌^◌, false, length, IfOk, OnOk, OnErr};
ghost use Rattle.std.specs.List.{AllByRecursion};
ghost use Rattle.law_turns.specs.Tables.{Refers};
ghost use Rattle.nova_model.specs.Capabilities.{is_held};
ghost use Rattle.nova_model.specs.Sources.{with_source};
ghost use Rattle.nova_deeds.specs.Counted.{AreTables, IsNumbered};
ghost use Rattle.nova_times.specs.Kept.{IsAlarm};
ghost use Rattle.nova_turn.specs.Parts.{state_of};

use crate::parts::Parts;
use nova_model::{Alarm, NewObject};
use std::alloc::AllocError;

/// The root's protection domain.
const ROOT: u32 = 0;

impl Parts {
    /// Makes a source of the processor `cpu`: a semaphore of counter 0, as the next object, that an alarm ups. The root has a capability to it at the
    /// selector of its number.
    pub fn add_source(
        &mut self,
        cpu: u32,
        first: u64,
        period: u64,
        count: u64,
    ) -> Result<u32, AllocError>
        requires few { length (state_of self.old).objects < 2 ^ 20 }
        requires alarms { length (state_of self.old).times.alarms < 2 ^ 20 }
        requires entries { length self.old.queues.all.entries ≤ length self.old.objects.items }
        requires stamp { self.old.queues.all.next_stamp < 2 ^ 64 - 1 }
        requires numbered { IsNumbered (2 ^ 31) (state_of self.old) }
        requires tables { AreTables (state_of self.old) }
        requires refer { AllByRecursion (Refers (state_of self.old).objects) (state_of self.old).objects }
        requires free { is_held (state_of self.old) 0 (length (state_of self.old).objects) ≡ false }
        requires alarm { IsAlarm (record { cpu = cpu; sm = length (state_of self.old).objects; first = first; period = period; count = count }) }
        ensures number { IfOk result (λ n. n ≡ length (state_of self.old).objects) }
        ensures added { OnOk result (state_of self.new ≡ with_source (state_of self.old) (record { cpu = cpu; first = first; period = period; count = count })) }
        ensures queues { self.new.queues.all ≡ self.old.queues.all }
        ensures revokes { self.new.revokes.list ≡ self.old.revokes.list }
        ensures places { self.old.revokes.places ≤ self.new.revokes.places }
        ensures place { OnOk result (length self.old.objects.items < self.new.revokes.places) }
        ensures log { self.new.reach.room ≡ self.old.reach.room }
        ensures memory { OnErr result (state_of self.new ≡ state_of self.old) }
    {
        self.times.room_for_alarm()?;
        self.reserve(ROOT)?;
        let number = self.objects.len() as u32;
        self.add_object(ROOT, number, NewObject::Sm { count: 0 });
        self.times.add_alarm(Alarm {
            cpu,
            sm: number,
            first,
            period,
            count,
        });
        Ok(number)
    }
}
