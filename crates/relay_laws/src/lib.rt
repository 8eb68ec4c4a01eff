// Laws of the relay in the words of its sheet, with its numbers. Each stands in the contract of a function, so the crate is
// proved only if the law is.
#![tactic(auto)]

ghost use Rattle.kinds.specs.Kinds.{EveryRelay};
ghost use Rattle.relay_laws.specs.RelayCommands.{CommandsObeyed};
ghost use Rattle.relay.specs.declared.relay.RelaySetup.{RelaySetup};
ghost use Rattle.relay_laws.specs.RelayExamples.{PairsFit, CommandsAsk, AsksOrNot};
ghost use Rattle.relay_laws.specs.RelayLayout.{ActionsObeyed, PairsLink, IdleCellsIgnored};
ghost use Rattle.relay_laws.specs.RelayListener.{ListenersAreRight};
ghost use Rattle.relay_laws.specs.RelayReports.{ReportsExactly};
ghost use Rattle.relay_laws.specs.RelayStarts.{TimesStarted};
ghost use Rattle.relay_laws.specs.RelayTimes.{TimesRun, ChannelsStay};

// What the commands 01, 02 and 03 make of the channels of a relay.
pub fn relay_command_laws() -> u8
    ensures commands { EveryRelay CommandsObeyed }
{
    0
}

// What a relay tells of its channels.
pub fn relay_report_laws() -> u8
    ensures reports { EveryRelay ReportsExactly }
{
    0
}

// What whoever listens to a relay knows of its contacts.
pub fn relay_listener_laws() -> u8
    ensures listener { EveryRelay ListenersAreRight }
{
    0
}

// How long a channel runs while nothing is asked of it.
pub fn relay_time_laws() -> u8
    ensures times { EveryRelay TimesRun }
    ensures stays { EveryRelay ChannelsStay }
    ensures starts { TimesStarted }
{
    0
}

// Where the pairs of a relay stand, what they ask for and whom they link, and which cells have no influence.
pub fn relay_layout_laws() -> u8
    ensures actions { ActionsObeyed }
    ensures links { EveryRelay PairsLink }
    ensures idle_cells { EveryRelay IdleCellsIgnored }
{
    0
}

// For each condition of these laws, what meets it and what does not.
pub fn relay_conditions_are_met() -> u8
    ensures pairs { (s : RelaySetup) → PairsFit s }
    ensures commands { CommandsAsk }
    ensures asks { (s : RelaySetup) → AsksOrNot s }
{
    0
}
