// What a button or a command can ask of a channel.

// Times are in seconds, and may be out of range; the channel corrects them.
#[derive(Clone, Copy)]
pub enum Action {
    Clear,
    Set,
    Toggle,
    ToggleTimer(u32),
    Start(u32),
}
