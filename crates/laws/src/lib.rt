// Laws of the relay, the panel and the button interface. Each stands in the contract of a function, so the crate is proved only if the law is.
#![tactic(auto)]

ghost use Rattle.std.specs.List.{AllByRecursion};
ghost use Rattle.laws.specs.Blocks.{TakesBlockWrites, BlockWritesKeepChannels};
ghost use Rattle.kinds.specs.Kinds.{EveryRelay, EveryModule};
ghost use Rattle.laws.specs.LampFrames.{LampsOnlyToLinks, ElseFromOwnAddress};
ghost use Rattle.laws.specs.LampModes.{LampsObey, LampsAreSet, EveryKindWithLamps};
ghost use Rattle.laws.specs.MemoryReads.{AnswersReads, ReadsBack};
ghost use Rattle.laws.specs.Pairs.{FirstPairFound, NoPairFound, FirstMatchObeyed, NoMatchKept};
ghost use Rattle.laws.specs.Pushing.{PushMoves, PushIgnored, EveryKindWithButtons};
ghost use Rattle.laws.specs.Sending.{SendsOnly, WellFormed, NoWrite};
ghost use Rattle.laws.specs.Times.{TimeEnds, ChannelTimeEnds};
ghost use Rattle.laws.specs.WorkedLines.{worked_lines, Claim};

// All frames sent are well formed, and none is a write.
pub fn sending_laws() -> u8
    ensures well_formed { EveryModule (SendsOnly WellFormed) }
    ensures no_write { EveryModule (SendsOnly NoWrite) }
{
    0
}

// Which pair is found for a channel, and what a button status from a linked address then does to the channel.
pub fn pair_laws() -> u8
    ensures first_pair_found { FirstPairFound }
    ensures no_pair_found { NoPairFound }
    ensures first_match_obeyed { FirstMatchObeyed }
    ensures no_match_kept { NoMatchKept }
{
    0
}

// To whom a relay sends, and why.
pub fn lamp_laws() -> u8
    ensures lamps_only_to_links { EveryRelay LampsOnlyToLinks }
    ensures else_from_own_address { EveryRelay ElseFromOwnAddress }
{
    0
}

// When a running channel opens.
pub fn time_laws() -> u8
    ensures time_ends { TimeEnds }
    ensures channel_time_ends { EveryRelay ChannelTimeEnds }
{
    0
}

// What a block write does, and that it switches no channel.
pub fn block_laws() -> u8
    ensures takes_block_writes { EveryModule TakesBlockWrites }
    ensures block_writes_keep_channels { EveryRelay BlockWritesKeepChannels }
{
    0
}

// What reads are answered with.
pub fn read_laws() -> u8
    ensures reads_one { EveryModule (AnswersReads 0xFD 0xFE 1) }
    ensures reads_four { EveryModule (AnswersReads 0xC9 0xCC 4) }
    ensures reads_back { EveryModule ReadsBack }
{
    0
}

// What a push does to the buttons.
pub fn push_laws() -> u8
    ensures push_moves { EveryKindWithButtons PushMoves }
    ensures push_ignored { EveryKindWithButtons PushIgnored }
{
    0
}

// What the lamp commands do to each lamp.
pub fn mode_laws() -> u8
    ensures lamps_obey { EveryKindWithLamps LampsObey }
    ensures lamps_are_set { EveryKindWithLamps LampsAreSet }
{
    0
}

// Examples worked out by hand: what the definitions say of them.
pub fn worked_lines() -> u8
    ensures { AllByRecursion Claim worked_lines }
{
    0
}
