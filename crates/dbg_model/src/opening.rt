// The opening of a session: its program and its settings.
use dbg_traits::Settings;
use elf32_read::Image;

/// What a session begins with.
#[derive(Drop)]
pub struct Opening {
    /// The program.
    pub image: Image,
    /// The settings of the command line.
    pub settings: Settings,
}
