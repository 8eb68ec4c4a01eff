// What a link or a command can ask of the hold on a channel.

// Times are in seconds; 0xFFFFFF and more means until the channel is unlocked.
#[derive(Clone, Copy)]
pub enum Locking {
    Lock(u32),
    Toggle(u32),
    Unlock,
}
