// The slot of a simulated card.
ghost use Rattle.std.specs.Prelude.{◌≡◌, Some, All, IfOk, OnOk, OnErr};
ghost use Rattle.std.specs.Option.{option_copied};
ghost use Rattle.apdu.specs.Stream.{HasCause};
ghost use Rattle.card_model.specs.Slot as slots;
ghost use Rattle.card_model.specs.Limits.{IsFittingCard, IsFittingChange, IsFittingWorld, HasRoom};
ghost use Rattle.sim_card.specs.Spares.{IsStockedWorld};

use crate::event::apply_event;
use crate::spares::{Spares, spares_of};
use crate::step::{holds_card, reset, step};
use apdu::{Command, Memory, Response};
use card_model::{
    Changes, Fault, Faults, Images, ScriptedSlot, Slot, SlotFault, World, WorldEvent, WorldRefusal,
};
use std::alloc::Global;
use std::marker::Model;

/// A slot for simulated cards. Contracts see its world, its planned faults with the number of calls
/// of `exchange` and `reset`, and how many of these failed.
#[derive(Drop)]
pub struct SimSlot {
    state: World,
    spares: Spares,
    faults: Faults,
    calls: u64,
    failures: u64,
}

impl Model for SimSlot {
    ghost use Rattle.sim_card.specs.Sim.{SimValue};

    ghost Value = { SimValue };

    ghost use Rattle.card_model.specs.Limits.{IsFittingWorld};
    ghost use Rattle.sim_card.specs.Spares.{IsStockedWorld};

    ghost view = { λ s. record { world = s.state; plan = record { faults = s.faults; calls = s.calls }; failures = s.failures } };

    ghost invariant = { λ s. IsFittingWorld s.state × IsStockedWorld s.state s.spares };
}

impl SimSlot {
    ghost use Rattle.sim_card.specs.Sim.{empty_slot};

    /// An empty slot with these cards and changes, and the calls that are to fail. For each card it makes the room of
    /// every content that a change gives it; the calls of the slot take no memory.
    pub fn new(
        alloc: Global,
        images: Images,
        changes: Changes,
        faults: Faults,
    ) -> Result<SimSlot, Memory>
        requires cards { All IsFittingCard images }
        requires changes { All IsFittingChange changes }
        requires room { All (HasRoom changes) images }
        ensures value { IfOk result (λ s. s ≡ empty_slot images changes faults) }
    {
        let spares = spares_of(alloc, images.as_slice(), &changes)?;
        Ok(SimSlot {
            state: World {
                cards: images,
                inside: None,
                changes,
            },
            spares,
            faults,
            calls: 0,
            failures: 0,
        })
    }

    /// The world as it is now.
    pub fn state(&self) -> &World
        ensures { result.now ≡ self.now.world }
    {
        &self.state
    }
}

// The fault of a call number.
fn fault_at(call: u64, faults: &Faults) -> Option<&Fault>
    ensures { option_copied result ≡ slots.fault_at call faults.now }
{
    faults.as_slice().iter().find(|fault| fault.at == call)
}

// An exchange with the fault that is planned for it, if any.
fn exchange_with(
    world: &mut World,
    spares: &mut Spares,
    fault: Option<Fault>,
    command: &Command,
) -> Result<Response, SlotFault>
    requires world { IsFittingWorld world.old }
    requires stocked { IsStockedWorld world.old spares.old }
    ensures fits { IsFittingWorld world.new }
    ensures stocked { IsStockedWorld world.new spares.new }
    ensures ok { IfOk result (slots.AnswersAt world.old (Some world.new) command.now) }
    ensures err { OnErr result (slots.MayHaveActed (Some world.old) (Some world.new) command.now) }
    ensures planned { slots.PlannedExchange fault world.old (Some world.new) command.now result }
{
    match fault {
        Some(fault) => {
            if fault.acted {
                let _ = step(world, spares, command);
            }
            Err(SlotFault)
        }
        None => {
            if !holds_card(world) {
                return Err(SlotFault);
            }
            Ok(step(world, spares, command))
        }
    }
}

// A reset with the fault that is planned for it, if any.
fn reset_with(world: &mut World, fault: Option<Fault>) -> Result<(), SlotFault>
    requires { IsFittingWorld world.old }
    ensures fits { IsFittingWorld world.new }
    ensures ok { OnOk result (slots.ResetsAt world.old (Some world.new)) }
    ensures planned { slots.PlannedReset fault world.old (Some world.new) result }
{
    if fault.is_some() || !holds_card(world) {
        return Err(SlotFault);
    }
    reset(world);
    Ok(())
}

impl Slot for SimSlot {
    ghost use Rattle.sim_card.specs.Sim.{failures_after};

    ghost world = { λ s. Some s.world };

    ghost plan = { λ s. Some s.plan };

    ghost faults = { λ s. s.failures };

    fn exchange(&mut self, command: &Command) -> Result<Response, SlotFault>
        ensures ok { IfOk result (slots.Answers (Some self.old.world)
            (Some self.new.world) command.now) }
        ensures err { OnErr result (slots.MayHaveActed (Some self.old.world)
            (Some self.new.world) command.now) }
        ensures counts { slots.Counts (Some self.old.plan) (Some self.new.plan) }
        ensures planned { slots.ExchangesAsPlanned (Some self.old.plan) (Some self.old.world)
            (Some self.new.world) command.now result }
        ensures cause { HasCause self.old.failures self.new.failures result }
        ensures failures { self.new.failures ≡ failures_after self.old.failures result }
    {
        self.calls = self.calls.saturating_add(1);
        let fault = fault_at(self.calls, &self.faults).copied();
        let result = exchange_with(&mut self.state, &mut self.spares, fault, command);
        if result.is_err() {
            self.failures = self.failures.saturating_add(1);
        }
        result
    }

    #[tactic(auto, using(crate::proofs::Worlds::stocked_reset))]
    fn reset(&mut self) -> Result<(), SlotFault>
        ensures ok { OnOk result (slots.Resets (Some self.old.world) (Some self.new.world)) }
        ensures err { OnErr result (slots.MayHaveReset (Some self.old.world)
            (Some self.new.world)) }
        ensures counts { slots.Counts (Some self.old.plan) (Some self.new.plan) }
        ensures planned { slots.ResetsAsPlanned (Some self.old.plan) (Some self.old.world)
            (Some self.new.world) result }
        ensures cause { HasCause self.old.failures self.new.failures result }
        ensures failures { self.new.failures ≡ failures_after self.old.failures result }
    {
        self.calls = self.calls.saturating_add(1);
        let fault = fault_at(self.calls, &self.faults).copied();
        let result = reset_with(&mut self.state, fault);
        if result.is_err() {
            self.failures = self.failures.saturating_add(1);
        }
        result
    }
}

impl ScriptedSlot for SimSlot {
    ghost use Rattle.std.specs.Prelude.{refl};

    ghost tells_both = { λ _ _. refl };

    #[tactic(auto, using(crate::proofs::Worlds::stocked_event))]
    fn world(&mut self, event: &WorldEvent) -> Result<(), WorldRefusal> {
        apply_event(&mut self.state, event)
    }
}
