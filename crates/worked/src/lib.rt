// Worked runs that meet every premise of the laws of memory and of isolation, and what the laws deny.
#![tactic(auto)]

ghost use Rattle.worked.specs.Denied.{SeatsDenied, GroupsDenied, RunsDenied, MemoryDenied, IsolationDenied};
ghost use Rattle.worked.specs.WorkedRun.{PremisesMet, MuchHappens, LawsApplied};

// The premises can be met, by runs in which much happens, and the laws then say what they promise.
pub fn laws_are_met() -> u8
    ensures premises { PremisesMet }
    ensures happens { MuchHappens }
    ensures applied { LawsApplied }
{
    0
}

// None of the definitions that the laws rest on allows everything: what each of them denies.
pub fn definitions_deny() -> u8
    ensures seats { SeatsDenied }
    ensures groups { GroupsDenied }
    ensures runs { RunsDenied }
    ensures memory { MemoryDenied }
    ensures isolation { IsolationDenied }
{
    0
}
