// What concerns a group of addresses.
ghost use Rattle.std.specs.Prelude.{◌≡◌, IfOk, map, vec_items};
ghost use Rattle.runs.specs.Isolation.{all_sent, frames_of};
ghost use Rattle.runs.specs.Replays.{shown_entry};
ghost use Rattle.pairing.specs.Groups.{within};

use bus::Frame;
use runs::Entry;
use std::alloc::{AllocError, Global};

// Whether the address is one of the group.
pub fn is_in(group: &[u8], address: u8) -> bool
    ensures { result ≡ within group.now address }
{
    group.iter().any(|member| *member == address)
}

// The frames that were sent, oldest first.
#[tactic(auto, using(crate::proofs::Sent::sent_more))]
pub fn all_sent(heap: Global, entries: &[Entry]) -> Result<Vec<Frame>, AllocError>
    ensures { IfOk result (λ v. vec_items v ≡ all_sent (map shown_entry entries.now)) }
{
    let mut sent = Vec::new(heap);
    for entry in entries {
        sent.extend_from_slice(entry.sent.as_slice())?;
    }
    Ok(sent)
}

// The frames that bear an address of the group, in their order.
pub fn frames_of(heap: Global, group: &[u8], frames: &[Frame]) -> Result<Vec<Frame>, AllocError>
    ensures { IfOk result (λ v. vec_items v ≡ frames_of (within group.now) frames.now) }
{
    frames
        .iter()
        .filter(|frame| is_in(group, frame.address))
        .copied()
        .collect(heap)
}
