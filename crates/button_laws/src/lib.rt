// Laws of the button interfaces. Each stands in the contract of a function, so the crate is proved only if the law is.
#![tactic(auto)]

ghost use Rattle.button_laws.specs.Clocks.{NewClockIsReal, ClockStaysReal, EveryTimeShownIsReal, ClockKeepsTime, ClockIsSet, SetOnlyForAll, ClockIsTold};
ghost use Rattle.interface.specs.declared.setup.InterfaceSetup.{InterfaceSetup};
ghost use Rattle.button_laws.specs.Examples.{LinksAct, AsksOrNot, SetsOrNot};
ghost use Rattle.button_laws.specs.Holding.{HoldEnds, HoldStays, LockSetsTheHold, LockEnds, UnlockFrees, RecordsActInOrder, SingleRecordObeyed, LinkedLockEnds, LinkedUnlockFrees, LockedIgnoresPushes, SilentWhileHeld, PushesKeepTheRest};
ghost use Rattle.button_laws.specs.ModuleStatus.{StatusIsTold, TypeIsTold};
ghost use Rattle.button_laws.specs.Interfaces.{EveryInterface};

// How long a channel stays locked, and what that means for its button.
pub fn hold_laws() -> u8
    ensures hold_ends { EveryInterface HoldEnds }
    ensures hold_stays { EveryInterface HoldStays }
    ensures locked_ignores_pushes { EveryInterface LockedIgnoresPushes }
    ensures silent_while_held { EveryInterface SilentWhileHeld }
    ensures pushes_keep_the_rest { EveryInterface PushesKeepTheRest }
{
    0
}

// What locks a channel, and what frees it.
pub fn lock_laws() -> u8
    ensures lock_sets_the_hold { EveryInterface LockSetsTheHold }
    ensures lock_ends { EveryInterface LockEnds }
    ensures unlock_frees { EveryInterface UnlockFrees }
    ensures records_act_in_order { EveryInterface RecordsActInOrder }
    ensures single_record_obeyed { EveryInterface SingleRecordObeyed }
    ensures linked_lock_ends { EveryInterface LinkedLockEnds }
    ensures linked_unlock_frees { EveryInterface LinkedUnlockFrees }
{
    0
}

// What the replies to a status request and to a type request tell.
pub fn module_status_laws() -> u8
    ensures status_is_told { EveryInterface StatusIsTold }
    ensures type_is_told { EveryInterface TypeIsTold }
{
    0
}

// What the clock shows, who is told it, and who sets it.
pub fn clock_laws() -> u8
    ensures new_clock_is_real { NewClockIsReal }
    ensures clock_stays_real { EveryInterface ClockStaysReal }
    ensures every_time_shown_is_real { EveryInterface EveryTimeShownIsReal }
    ensures clock_keeps_time { EveryInterface ClockKeepsTime }
    ensures clock_is_set { EveryInterface ClockIsSet }
    ensures set_only_for_all { EveryInterface SetOnlyForAll }
    ensures clock_is_told { EveryInterface ClockIsTold }
{
    0
}

// For each condition of these laws, what meets it and what does not.
pub fn conditions_are_met() -> u8
    ensures links { (s : InterfaceSetup) → LinksAct s }
    ensures asks { (s : InterfaceSetup) → AsksOrNot s }
    ensures sets { SetsOrNot }
{
    0
}
